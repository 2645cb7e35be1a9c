//! What is said of a command.

ghost use Rattle.std.specs.Prelude.{◌≡◌, IfOk, string_bytes};
ghost use Rattle.command_listing.specs.Commands.{front, said};
ghost use Rattle.command_listing.specs.Turns.{IsTurnSaid};
ghost use Rattle.session_state.specs.Stopping.{IsStopSaid};

use az_desk::Desk;
use az_lin::List;
use session_state::{Stop, say, say_stop};
use std::alloc::{AllocError, Global};

/// What stands before a command's line.
fn front(alloc: Global, number: usize, word: &str) -> Result<String, AllocError>
    ensures { IfOk result (λ text. string_bytes text ≡ front number word.now) }
{
    format!(in alloc; "{number} {word}: ")
}

/// What is said of a command that is carried out.
fn said(
    alloc: Global,
    number: usize,
    word: &str,
    answer: &str,
    text: &[u8],
) -> Result<Vec<u8>, AllocError>
    ensures { IfOk result (λ bytes. bytes.items ≡ said number word.now answer.now text.now) }
{
    let line = format!(in alloc; "{number} {word}: {answer}\n")?;
    let mut bytes = line.into_bytes();
    bytes.extend_from_slice(text)?;
    Ok(bytes)
}

/// Says the line of a command that is refused, and nothing where it stops for another reason.
fn refuse<D: Desk>(alloc: Global, desk: &mut D, number: usize, word: &str, stop: Stop) -> Stop
    ensures { IsStopSaid (front number word.now) stop (D.seen desk.old) result (D.seen desk.new) }
{
    let refusal = match stop {
        Stop::Refused(refusal) => refusal,
        Stop::Fault(call) => return Stop::Fault(call),
        Stop::Memory => return Stop::Memory,
    };
    let Ok(front) = front(alloc, number, word) else {
        return Stop::Memory;
    };
    say_stop(alloc, desk, front.as_str(), Stop::Refused(refusal))
}

/// Says what is said of a command, by what it answered: its line and text, or the line of its refusal.
pub fn end_turn<D: Desk>(
    alloc: Global,
    desk: &mut D,
    number: usize,
    word: &str,
    answer: &str,
    carried: Result<List<u8>, Stop>,
) -> Result<(), Stop>
    ensures { IsTurnSaid number word.now answer.now carried (D.seen desk.old) result (D.seen desk.new) }
{
    let text = match carried {
        Ok(text) => text,
        Err(stop) => return Err(refuse(alloc, desk, number, word, stop)),
    };
    let bytes = said(alloc, number, word, answer, text.as_slice())?;
    say(alloc, desk, bytes.as_slice())
}
