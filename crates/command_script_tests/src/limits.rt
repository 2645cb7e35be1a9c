//! The limits on commands and turns.

use az_lin::Limit;
use az_text::LexFault;
use command_script::{ScriptFault, read_script};
use std::alloc::{AllocError, Global};
use std::test::Fail;

/// A text of pieces, each so many times.
fn repeated(alloc: Global, pieces: &[(&str, u32)]) -> Result<String, AllocError> {
    let mut text = String::new(alloc);
    for (piece, times) in pieces {
        for _ in 0..*times {
            text.push_str(piece)?;
        }
    }
    Ok(text)
}

fn answer(alloc: Global, pieces: &[(&str, u32)]) -> Result<String, AllocError> {
    let text = repeated(alloc, pieces)?;
    match read_script(alloc, text.as_bytes()) {
        Ok(commands) => {
            let count = commands.len();
            format!(in alloc; "ok {count}")
        }
        Err(ScriptFault::Lex(LexFault::BadByte(place))) => format!(in alloc; "byte {place}"),
        Err(ScriptFault::Syntax(place)) => format!(in alloc; "at {place}"),
        Err(ScriptFault::Limit(Limit::Commands)) => String::from_str(alloc, "Commands"),
        Err(ScriptFault::Limit(Limit::Turns)) => String::from_str(alloc, "Turns"),
        Err(_) => String::from_str(alloc, "another"),
    }
}

/// The pieces of a script, and what is answered for it. The places count six bytes for each `Run();`.
struct Case {
    pieces: &'static [(&'static str, u32)],
    want: &'static str,
}

const CASES: [Case; 8] = [
    Case {
        pieces: &[("Run();", 256)],
        want: "ok 256",
    },
    Case {
        pieces: &[("Run();", 257)],
        want: "Commands",
    },
    Case {
        pieces: &[("Run();", 257), ("Run(;", 1)],
        want: "at 1546",
    },
    Case {
        pieces: &[("Run();", 257), ("?", 1)],
        want: "byte 1542",
    },
    Case {
        pieces: &[("Interleave(2, [0", 1), (",1", 65_535), ("]);", 1)],
        want: "ok 1",
    },
    Case {
        pieces: &[("Interleave(2, [0", 1), (",1", 65_536), ("]);", 1)],
        want: "Turns",
    },
    Case {
        pieces: &[
            ("Interleave(2, [0", 1),
            (",1", 65_536),
            ("]);", 1),
            ("Run();", 256),
        ],
        want: "Commands",
    },
    Case {
        pieces: &[("SpreadReduce(S, [0", 1), (",1", 65_536), ("]);", 1)],
        want: "ok 1",
    },
];

#[test]
fn keeps_the_limits(rt: HostRuntime) -> Result<(), Fail> {
    for case in &CASES {
        let got = answer(rt.alloc(), case.pieces)?;
        assert_eq!(rt; got.as_str(), case.want);
    }
    Ok(())
}
