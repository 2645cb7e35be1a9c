//! `alphaz`: evaluates systems of affine equations over polyhedral domains, and carries out scripts.
//!
//! The call behind it, `alphaz_cli::alphaz`, says what is answered and said.
#![tactic(auto)]

use alphaz_cli::{OpenGate, alphaz};
use az_desk::HostDesk;
use std::env;
use std::process::ExitCode;

/// The status for want of memory.
const MEMORY_STATUS: u8 = 13;

fn main(rt: HostRuntime) -> ExitCode {
    let alloc = rt.alloc();
    let mut words = Vec::new(alloc);
    // Arguments that are no text are answered as no words are: with the usage line.
    if let Ok(arguments) = env::args(&rt) {
        for argument in arguments {
            if words.push(argument).is_err() {
                return ExitCode::from(MEMORY_STATUS);
            }
        }
    }
    let mut desk = HostDesk::new(&rt);
    let words = words.as_slice();
    let words = if words.is_empty() { words } else { &words[1..] };
    ExitCode::from(alphaz(&rt, alloc, words, &mut desk, &OpenGate).code)
}
