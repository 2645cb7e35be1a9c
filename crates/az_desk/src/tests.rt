//! Desks through their trait and by their own calls.

ghost use Rattle.std.specs.Prelude.{◌≡◌, ◌⊎◌, OnOk, IsErrOf};
ghost use Rattle.std.specs.Option.{ForSome};
ghost use Rattle.az_desk.specs.Desk.{Fails, said_more, written};
ghost use Rattle.az_desk.specs.Files.{content_of};
ghost use Rattle.az_desk.specs.declared.call.Call.TheVariants.{Read, Write, Say};
ghost use Rattle.az_desk.specs.declared.fault.DeskFault.TheVariants.{Failed};

use crate::{Call, Desk, DeskFault, Failure, HonestDesk, HostDesk, MemoryDesk};
use az_lin::{LinFault, List, Name};
use std::alloc::Global;
use std::fs;
use std::test::Fail;

/// Copies a file and says what it holds.
fn copy_and_say<D: Desk>(alloc: Global, desk: &mut D, from: &str, to: &str) -> Result<(), DeskFault>
    ensures done { OnOk result (ForSome ((D.seen desk.old).files) (λ files.
        D.seen desk.new ≡ said_more (content_of files from.now) (written to.now (content_of files from.now) (D.seen desk.old)))) }
    ensures cause { IsErrOf result Failed → Fails (Read from.now) (D.seen desk.old) (D.seen desk.new)
        ⊎ (Fails (Write to.now) (D.seen desk.old) (D.seen desk.new) ⊎ Fails Say (D.seen desk.old) (D.seen desk.new)) }
{
    let bytes = desk.read(alloc, from)?;
    desk.write(alloc, to, bytes.as_slice())?;
    desk.say(alloc, bytes.as_slice())
}

/// The files `a`, with the bytes "one", and `b`, with the bytes "two".
fn two_files(alloc: Global) -> Result<List<(Name, List<u8>)>, LinFault> {
    let mut files = List::new(alloc);
    for (name, bytes) in [("a", "one"), ("b", "two")] {
        let bytes = Vec::from_slice(alloc, bytes.as_bytes())?;
        files.push((Name::from_str(alloc, name)?, List::from_vec(bytes)))?;
    }
    Ok(files)
}

fn failing_at(alloc: Global, call: u64, kept: usize) -> Result<List<Failure>, LinFault> {
    let mut failures = List::new(alloc);
    failures.push(Failure { call, kept })?;
    Ok(failures)
}

#[test]
fn an_honest_desk_keeps_what_it_is_given(rt: HostRuntime) -> Result<(), Fail> {
    let alloc = rt.alloc();
    let mut desk = HonestDesk::new(alloc, two_files(alloc)?);
    copy_and_say(alloc, &mut desk, "b", "c")?;
    copy_and_say(alloc, &mut desk, "a", "b")?;
    copy_and_say(alloc, &mut desk, "z", "a")?;
    for (name, bytes) in [("a", ""), ("b", "one"), ("c", "two")] {
        assert_eq!(rt; desk.file(name), Some(bytes.as_bytes()));
    }
    assert_eq!(rt; desk.file("z"), None);
    assert_eq!(rt; desk.files().len(), 3);
    assert_eq!(rt; desk.said(), b"twoone".as_slice());
    Ok(())
}

/// What a failed call was asked, in words.
fn shown(call: Option<&Call>) -> (&str, &str) {
    match call {
        None => ("none", ""),
        Some(Call::Read(name)) => ("read", name.as_str()),
        Some(Call::Write(name)) => ("write", name.as_str()),
        Some(Call::Say) => ("say", ""),
    }
}

#[test]
fn a_memory_desk_fails_at_the_listed_call(rt: HostRuntime) -> Result<(), Fail> {
    let alloc = rt.alloc();
    for (call, kept, from, calls, last, written, said) in [
        (0, 2, "a", 2, ("read", "a"), "two", "!"),
        (1, 2, "a", 3, ("write", "b"), "on", "!"),
        (1, 9, "a", 3, ("write", "b"), "one", "!"),
        (2, 1, "a", 4, ("say", ""), "one", "o!"),
        (9, 1, "z", 2, ("read", "z"), "two", "!"),
    ] {
        let mut desk = MemoryDesk::new(alloc, two_files(alloc)?, failing_at(alloc, call, kept)?);
        assert_eq!(rt; shown(desk.last()), ("none", ""));
        let result = copy_and_say(alloc, &mut desk, from, "b");
        assert_eq!(rt; result, Err(DeskFault::Failed));
        desk.say(alloc, b"!")?;
        assert_eq!(rt; (desk.faults(), desk.calls()), (1, calls));
        assert_eq!(rt; shown(desk.last()), last);
        assert_eq!(rt; desk.contents().file("b"), Some(written.as_bytes()));
        assert_eq!(rt; desk.contents().said(), said.as_bytes());
    }
    Ok(())
}

/// The files that a test of the host's desk writes, and takes away again.
const HOST_FILES: [&str; 2] = ["az_desk_test_one.tmp", "az_desk_test_two.tmp"];

#[test]
fn a_host_desk_reads_what_it_wrote(rt: HostRuntime) -> Result<(), Fail> {
    let alloc = rt.alloc();
    let mut desk = HostDesk::new(&rt);
    let [one, two] = HOST_FILES;
    // no file has the empty name
    assert_eq!(rt; desk.read(alloc, "").err(), Some(DeskFault::Failed));
    desk.write(alloc, one, b"one\n")?;
    copy_and_say(alloc, &mut desk, one, two)?;
    assert_eq!(rt; desk.read(alloc, two)?.as_slice(), b"one\n".as_slice());
    for name in HOST_FILES {
        fs::remove_file(&rt, name)?;
        assert_eq!(rt; desk.read(alloc, name).err(), Some(DeskFault::Failed));
    }
    Ok(())
}
