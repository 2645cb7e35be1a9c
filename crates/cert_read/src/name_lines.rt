//! The line with a formula's name.

ghost use Rattle.std.specs.Prelude.{◌≡◌, ◌≢◌, ◌<◌, ℕ, MatchOption, IfSome, length, position};
ghost use Rattle.az_ast.specs.Writable.{IsWritable};
ghost use Rattle.cert_read.specs.Inner.Found.{IsNameLine};
ghost use Rattle.std.specs.Str.{bytes_eq};
ghost use Rattle.target_map.specs.Refusals.{name_of};
ghost use Rattle.target_map.specs.declared.which.Which.{Which};
ghost use Rattle.target_map.specs.declared.which.Which.TheVariants as which;

use az_ast::{Program, Variable};
use grammar_rules::behind;
use line_fields::{fields_are_one, last_natural, spaced_natural, spaced_word};
use target_map::Which;

fn place_of(variables: &[Variable], name: &[u8]) -> Option<usize>
    ensures place { result ≡ position (λ variable. bytes_eq variable.name name.now) variables.now }
    ensures within { IfSome result (λ place. place < length variables.now) }
{
    variables
        .iter()
        .position(|variable| variable.name.as_str().as_bytes() == name)
}

/// The number of the variable of that name.
fn variable(program: &Program, name: &[u8]) -> Option<u32>
    ensures { MatchOption result ((x : ℕ) → x < length program.now.variables → name.now ≢ name_of program.now x)
        (λ x. (x < length program.now.variables) × (name.now ≡ name_of program.now x)) }
{
    match place_of(program.variables(), name) {
        Some(place) => Some(place as u32),
        None => None,
    }
}

fn read_order(program: &Program, line: &[u8]) -> Option<Which>
    requires { IsWritable program.now }
    ensures { MatchOption result ((reader read : ℕ) → IsNameLine program.now (which.Order reader read) line.now → ⊥) (λ which. IsNameLine program.now which line.now) }
{
    fields_are_one();
    let Some(fields) = behind(line, b"Order ") else {
        return None;
    };
    let Some(name) = spaced_word(fields) else {
        return None;
    };
    let Some(reader) = variable(program, name.word) else {
        return None;
    };
    let Some(read) = last_natural(name.rest) else {
        return None;
    };
    Some(Which::Order { reader, read })
}

fn read_life(program: &Program, line: &[u8]) -> Option<Which>
    requires { IsWritable program.now }
    ensures { MatchOption result ((reader read writer : ℕ) → IsNameLine program.now (which.Life reader read writer) line.now → ⊥) (λ which. IsNameLine program.now which line.now) }
{
    fields_are_one();
    let Some(fields) = behind(line, b"Life ") else {
        return None;
    };
    let Some(name) = spaced_word(fields) else {
        return None;
    };
    let Some(reader) = variable(program, name.word) else {
        return None;
    };
    let Some(number) = spaced_natural(name.rest) else {
        return None;
    };
    let Some(writer) = variable(program, number.rest) else {
        return None;
    };
    Some(Which::Life {
        reader,
        read: number.value as u32,
        writer,
    })
}

fn read_keep(program: &Program, line: &[u8]) -> Option<Which>
    requires { IsWritable program.now }
    ensures { MatchOption result ((output writer : ℕ) → IsNameLine program.now (which.Keep output writer) line.now → ⊥) (λ which. IsNameLine program.now which line.now) }
{
    fields_are_one();
    let Some(fields) = behind(line, b"Keep ") else {
        return None;
    };
    let Some(name) = spaced_word(fields) else {
        return None;
    };
    let Some(output) = variable(program, name.word) else {
        return None;
    };
    let Some(writer) = variable(program, name.rest) else {
        return None;
    };
    Some(Which::Keep { output, writer })
}

/// The formula that the line names.
pub(crate) fn read_name(program: &Program, line: &[u8]) -> Option<Which>
    requires { IsWritable program.now }
    ensures { MatchOption result ((which : Which) → IsNameLine program.now which line.now → ⊥) (λ which. IsNameLine program.now which line.now) }
{
    match read_order(program, line) {
        Some(which) => Some(which),
        None => match read_life(program, line) {
            Some(which) => Some(which),
            None => read_keep(program, line),
        },
    }
}
