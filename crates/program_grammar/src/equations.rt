//! Equations and whole programs, over tokens. What weighs anything does so inside an equation, which
//! has limits of its own, and so the budget outside is 0.

ghost use Rattle.std.specs.Prelude.{◌≡◌, [], ◌∷◌};
ghost use Rattle.az_text.specs.declared.mark.MarkKind.TheVariants.{Semicolon};
ghost use Rattle.grammar_rules.specs.Gives.{Gives, IsReadBy, Passes};
ghost use Rattle.grammar_rules.specs.Readers.{read_many};
ghost use Rattle.grammar_rules.specs.Tokens.{name_class};
ghost use Rattle.program_grammar.specs.Grammar.{program, weight_of_end};
ghost use Rattle.program_grammar.specs.Values as value;
ghost use Rattle.program_grammar.specs.Words.{class, read_mark};
ghost use Rattle.program_grammar.specs.Readers.{read_equation_body, read_equation, read_equations, read_sections, read_header, read_program};

use crate::declarations::section;
use crate::domains::domain_of_rows;
use crate::expressions::expr;
use crate::sides::indices;
use crate::size::is_within;
use crate::words::{INPUT, LOCAL, OUTPUT, name, sees};
use crate::{Chain, Declaration, Equation, Expr, ProgramText};
use az_lin::{List, Name};
use az_text::{MarkKind, Token};
use grammar_rules::classes::NAME;
use grammar_rules::{Cursor, ReadError, TokenCursor, finish};
use std::alloc::Global;

/// The limit on nodes and opened parentheses together while an equation is read, and the one on
/// nodes at its end.
const NODES_AND_PARENTHESES: u32 = 1024;

const NODES: u32 = 512;

fn equation_body(
    alloc: Global,
    cursor: TokenCursor<'_>,
) -> Result<(Equation, TokenCursor<'_>), ReadError>
    ensures { Gives result (read_equation_body 1025 cursor.entry.budget cursor.entry.rest.now) }
{
    let (variable, next) = name(alloc, cursor, 0)?;
    let (indices, next) = indices(alloc, next)?;
    let next = next.mark(MarkKind::Equal, 0)?;
    let (body, end) = expr(alloc, next, 1025)?;
    Ok((
        Equation {
            variable,
            indices,
            body,
        },
        end,
    ))
}

/// Past the semicolon behind this body.
fn ended<'a>(body: &Expr, cursor: TokenCursor<'a>) -> Result<TokenCursor<'a>, ReadError>
    ensures { Passes result (read_mark Semicolon (weight_of_end body.now) 0 cursor.entry.rest.now) }
{
    let weight = u32::from(!is_within(body, NODES));
    cursor.limited(0).mark(MarkKind::Semicolon, weight)
}

fn equation(
    alloc: Global,
    cursor: TokenCursor<'_>,
) -> Result<(Equation, TokenCursor<'_>), ReadError>
    ensures { Gives result (read_equation 0 cursor.entry.rest.now) }
{
    let start = cursor.limited(NODES_AND_PARENTHESES);
    let (equation, end) = equation_body(alloc, start)?;
    match ended(&equation.body, end) {
        Ok(end) => Ok((equation, end)),
        Err(fault) => Err(fault),
    }
}

fn some_equations(
    alloc: Global,
    cursor: TokenCursor<'_>,
) -> Result<(List<Equation>, TokenCursor<'_>), ReadError>
    ensures { Gives result (read_many class (name_class ∷ []) read_equation 0 cursor.entry.rest.now) }
{
    let mut items = Vec::new(alloc);
    let mut place = cursor.limited(0);
    'members: while sees(place, &[NAME]) {
        let (next, end) = equation(alloc, place)?;
        items.push(next)?;
        place = end;
    }
    Ok((List::from_vec(items), place))
}

fn equations(
    alloc: Global,
    cursor: TokenCursor<'_>,
) -> Result<(List<Equation>, TokenCursor<'_>), ReadError>
    ensures { Gives result (read_equations 0 cursor.entry.rest.now) }
{
    let next = cursor.limited(0).keyword("let", 0)?;
    let (equations, end) = some_equations(alloc, next)?;
    Ok((equations, end.mark(MarkKind::Dot, 0)?))
}

type Sections = (List<Declaration>, (List<Declaration>, List<Declaration>));

fn sections(
    alloc: Global,
    cursor: TokenCursor<'_>,
) -> Result<(Sections, TokenCursor<'_>), ReadError>
    ensures { Gives result (read_sections cursor.entry.budget cursor.entry.rest.now) }
{
    let (inputs, next) = section(alloc, INPUT, "input", cursor)?;
    let (outputs, next) = section(alloc, OUTPUT, "output", next)?;
    let (locals, end) = section(alloc, LOCAL, "local", next)?;
    Ok(((inputs, (outputs, locals)), end))
}

type Header = (Name, ((List<Name>, List<Chain>), Sections));

fn header(alloc: Global, cursor: TokenCursor<'_>) -> Result<(Header, TokenCursor<'_>), ReadError>
    ensures { Gives result (read_header cursor.entry.budget cursor.entry.rest.now) }
{
    let next = cursor.keyword("affine", 0)?;
    let (name, next) = name(alloc, next, 0)?;
    let (domain, next) = domain_of_rows(alloc, next)?;
    let (sections, end) = sections(alloc, next)?;
    Ok(((name, (domain, sections)), end))
}

fn whole(header: Header, equations: List<Equation>) -> ProgramText
    ensures { result ≡ value.program header equations }
{
    let (name, ((params, domain), (inputs, (outputs, locals)))) = header;
    ProgramText {
        name,
        params,
        domain,
        inputs,
        outputs,
        locals,
        equations,
    }
}

fn program(
    alloc: Global,
    cursor: TokenCursor<'_>,
) -> Result<(ProgramText, TokenCursor<'_>), ReadError>
    requires { cursor.budget ≡ 0 }
    ensures { Gives result (read_program cursor.entry.budget cursor.entry.rest.now) }
{
    let (header, next) = header(alloc, cursor)?;
    match equations(alloc, next) {
        Ok((equations, end)) => Ok((whole(header, equations), end)),
        Err(fault) => Err(fault),
    }
}

/// The program of a list of tokens.
pub fn read_tokens(alloc: Global, tokens: &[Token]) -> Result<ProgramText, ReadError>
    ensures { IsReadBy program 0 tokens.now result }
{
    finish(program(alloc, Cursor::new(tokens, 0)))
}
