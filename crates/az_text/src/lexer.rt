//! The lexer: one pass over the text.

ghost use Rattle.std.specs.Prelude.{Result, IfOk};
ghost use Rattle.az_text.specs.declared.fault.LexFault.{LexFault};
ghost use Rattle.az_text.specs.declared.token.Token.{Token};
ghost use Rattle.az_text.specs.Reading.{Reads, Answers, IsReadOf, AreIn};
ghost use Rattle.az_text.specs.Fronts.{lexed};

use crate::front::{Front, front_of};
use crate::{LexFault, Token};
use az_lin::List;
use std::alloc::Global;

/// The tokens of a text in order, or its first fault.
fn tokens_of(alloc: Global, text: &[u8]) -> Result<List<Token<'_>>, LexFault>
    ensures { Answers result (lexed text.now) }
{
    let mut tokens = Vec::new(alloc);
    let mut from = 0;
    while from < text.len() {
        match front_of(&text[from..]) {
            Front::Between(len) => from += len,
            Front::Cut(kind, len) => {
                let to = from + len;
                tokens.push(Token { kind, from, to })?;
                from = to;
            }
            Front::Wide => return Err(LexFault::WideNumber(from)),
            Front::Nothing => return Err(LexFault::BadByte(from)),
        }
    }
    Ok(List::from_vec(tokens))
}

/// The tokens of a text in order, each with its span, or the first fault. The time is linear in the
/// length of the text, which lends the tokens their words.
pub fn lex(alloc: Global, text: &[u8]) -> Result<List<Token<'_>>, LexFault>
    // The answer is one that the grammar gives.
    ensures found { IsReadOf text.now result }
    // No other is.
    ensures only { (answer : Result (List Token) LexFault) → Reads 0 text.now answer → Answers result answer }
    // The tokens stand in the text in order, each where its bytes spell it.
    ensures spans { IfOk result (λ tokens. AreIn text.now 0 tokens) }
    // The answer is a function of the text.
    ensures exact { Answers result (lexed text.now) }
{
    tokens_of(alloc, text)
}
