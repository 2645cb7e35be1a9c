//! Words, and what they ask for.
//!
//! The answers were found by hand, by the grammar of words.

use az_lin::Name;
use command_words::{Binding, Evaluation, Request, request_of};
use std::alloc::{AllocError, Global};
use std::test::Fail;

// Words with a space between them stand before an arrow, and behind it the command with its plain words, and
// the count of workers where it has one.

/// No command.
const NOTHING: &str = "\
    →none§\
    help→none§\
    --help→none§\
    -- run s.azs→none§\
    Run s.azs→none§\
    runs s.azs→none§\
    run→none§\
    eval→none§\
    check→none§\
    make→none§\
";

const EVALUATIONS: &str = "\
    eval p.ab→eval p.ab§\
    eval help→eval help§\
    eval -→eval -§\
    eval p N=3 A@a.csv→eval p N=3 A@a.csv§\
    eval p N=-0→eval p N=0§\
    eval p N=-007→eval p N=-7§\
    eval p N=9999999999999999999→eval p N=9999999999999999999§\
    eval p N=00000000000000000001→none§\
    eval p A@=→eval p A@=§\
    eval p A@b=c→eval p A@b=c§\
    eval p A@x@y→eval p A@x@y§\
    eval p A=1=2→none§\
    eval p A@→none§\
    eval p 1A=2→none§\
    eval p →none§\
    eval -- p N=1→eval p N=1§\
    eval p -- N=1→eval p N=1§\
    eval p N=1 --→eval p N=1§\
    eval -- -p→eval -p§\
    eval -- →eval §\
    eval --→none§\
    eval -- p --→none§\
    eval -p→none§\
    eval p --workers 1→none§\
    eval p --workers=1→none§\
    eval p --help→none§\
";

const RUNS: &str = "\
    run s→run s 1§\
    run -→run - 1§\
    run s --workers 7→run s 7§\
    run --workers 7 s→run s 7§\
    run --workers=64 s→run s 64§\
    run s --workers=1→run s 1§\
    run s --workers 2 --→run s 2§\
    run --workers 2 -- s→run s 2§\
    run -- --workers→run --workers 1§\
    run -- --→run -- 1§\
    run -- →run  1§\
    run s --→run s 1§\
    run s -- --→none§\
    run a b→none§\
    run →none§\
    run -s→none§\
    run -- s --workers 2→none§\
    run --workers 2→none§\
    run s -h→none§\
    run s --help→none§\
    run s -V→none§\
    run s --version→none§\
    run s --worker 2→none§\
    run s --workers2→none§\
    run s -w 2→none§\
    run s -é→none§\
    run é --workers 3→run é 3§\
    run --- s→none§\
    run --=2 s→none§\
    run --workersx=2 s→none§\
    run --WORKERS 2 s→none§\
";

/// Counts of workers.
const COUNTS: &str = "\
    run s --workers 64→run s 64§\
    run s --workers 65→none§\
    run s --workers 0→none§\
    run s --workers 01→none§\
    run s --workers=01→none§\
    run s --workers +1→none§\
    run s --workers -1→none§\
    run s --workers=-1→none§\
    run s --workers 1.5→none§\
    run s --workers 1x→none§\
    run s --workers x→none§\
    run s --workers 18446744073709551617→none§\
    run s --workers 340282366920938463463374607431768211457→none§\
    run s --workers→none§\
    run s --workers=→none§\
    run s --workers →none§\
    run s --workers -→none§\
    run s --workers --→none§\
    run s --workers -- 2→none§\
    run s --workers=2=2→none§\
    run s --workers 2 --workers 2→none§\
    run s --workers=2 --workers 2→none§\
    run --workers 2 s --workers=2→none§\
    run --workers --workers=2 s→none§\
";

const OTHERS: &str = "\
    check s c→check s c§\
    check - -→check - -§\
    check s -- -c→check s -c§\
    check -- -s -c→check -s -c§\
    check s→none§\
    check s c d→none§\
    check s -c→none§\
    check --workers 2 s c→none§\
    check s c --workers=1→none§\
    make 1→make 1 1§\
    make 128→make 128 1§\
    make -- 7→make 7 1§\
    make 7 --workers 2→make 7 2§\
    make --workers=64 128→make 128 64§\
    make 129→none§\
    make 0→none§\
    make 01→none§\
    make -7→none§\
    make x→none§\
    make 1 2→none§\
    make 7 --workers 65→none§\
";

const TABLES: [&str; 5] = [NOTHING, EVALUATIONS, RUNS, COUNTS, OTHERS];

fn owned(alloc: Global, words: &str) -> Result<Vec<String>, AllocError> {
    let mut owned = Vec::new(alloc);
    for word in words.split(' ') {
        owned.push(String::from_str(alloc, word)?)?;
    }
    Ok(owned)
}

fn binding(alloc: Global, binding: &Binding) -> Result<String, AllocError> {
    match binding {
        Binding::Parameter { name, number } => {
            let name = name.as_str();
            format!(in alloc; " {name}={number}")
        }
        Binding::Table { name, file } => {
            let name = name.as_str();
            let file = file.as_str();
            format!(in alloc; " {name}@{file}")
        }
    }
}

fn evaluation(alloc: Global, asked: &Evaluation) -> Result<String, AllocError> {
    let program = asked.program.as_str();
    let mut text = format!(in alloc; "eval {program}")?;
    for bound in asked.bindings.as_slice() {
        text.push_str(binding(alloc, bound)?.as_str())?;
    }
    Ok(text)
}

fn two(alloc: Global, first: &Name, second: &Name) -> Result<String, AllocError> {
    let first = first.as_str();
    let second = second.as_str();
    format!(in alloc; "check {first} {second}")
}

fn answer(alloc: Global, words: &[String]) -> Result<String, AllocError> {
    match request_of(alloc, words)? {
        Some(Request::Eval(asked)) => evaluation(alloc, &asked),
        Some(Request::Run { script, workers }) => {
            let script = script.as_str();
            format!(in alloc; "run {script} {workers}")
        }
        Some(
            Request::Check {
                script,
                certificate,
            },
        ) => two(alloc, &script, &certificate),
        Some(Request::Make { number, workers }) => format!(in alloc; "make {number} {workers}"),
        None => String::from_str(alloc, "none"),
    }
}

#[test]
fn answers_words(rt: HostRuntime) -> Result<(), Fail> {
    let mut count = 0u32;
    for table in &TABLES {
        for case in table.split('§') {
            let Some((words, want)) = case.split_once('→') else {
                break;
            };
            let words = owned(rt.alloc(), words)?;
            let got = answer(rt.alloc(), words.as_slice())?;
            assert_eq!(rt; got.as_str(), want);
            count = count.wrapping_add(1);
        }
    }
    assert_eq!(rt; count, 112);
    Ok(())
}

#[test]
fn no_words_ask_for_nothing(rt: HostRuntime) -> Result<(), Fail> {
    assert!(rt; request_of(rt.alloc(), &[])?.is_none());
    Ok(())
}
