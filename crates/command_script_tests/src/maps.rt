//! Maps over the parameters N and M, and what they mean.
//!
//! The rows were found by hand: a coefficient for N, for M and for each index, and then the constant.

use az_lin::{List, Name, Row};
use command_script::{Command, MapText, ResolveFault, read_script, resolve_map};
use std::alloc::{AllocError, Global};
use std::test::Fail;

const CASES: &str = "\
    (i -> N-1-i)→1 0 -1 | -1;§\
    (t,i -> t,t+i)→0 0 1 0 | 0;0 0 1 1 | 0;§\
    ( -> N+1,0)→1 0 | 1;0 0 | 0;§\
    ( -> )→§\
    (i -> )→§\
    (M_,i -> i+i+M, 2*M-3N+4-1)→0 1 0 2 | 0;-3 2 0 0 | 3;§\
    (i -> i-i)→0 0 0 | 0;§\
    (i -> j)→unknown j§\
    (i -> 0*j)→unknown j§\
    (i -> k-k, l)→unknown k§\
    (i -> i, l, k)→unknown l§\
    (i,i -> i)→twice i§\
    (i,i -> j)→unknown j§\
    (N -> N)→twice N§\
    (i,N,i -> 0)→twice N§\
    (i,j,j,i -> 1152921504606846976)→twice j§\
    (i -> 1152921504606846975*i)→0 0 1152921504606846975 | 0;§\
    (i -> 1152921504606846976*i)→entry§\
    (i -> -1152921504606846975*i)→0 0 -1152921504606846975 | 0;§\
    (i -> -1152921504606846976*i)→entry§\
    (i -> 1152921504606846976*i - i)→0 0 1152921504606846975 | 0;§\
    (i -> 1152921504606846975)→0 0 0 | 1152921504606846975;§\
    (i -> i, 1152921504606846975 + 1)→entry§\
    (i -> 170141183460469231731687303715884105727*i - 170141183460469231731687303715884105727*i)→0 0 0 | 0;§\
    (i -> 170141183460469231731687303715884105727*i + 170141183460469231731687303715884105727*i)→entry§\
";

fn show_row(alloc: Global, row: &Row) -> Result<String, AllocError> {
    let mut all = String::new(alloc);
    for coef in row.coefs() {
        let coef = *coef;
        write!(all, "{coef} ")?;
    }
    let konst = row.konst();
    write!(all, "| {konst};")?;
    Ok(all)
}

fn show_rows(alloc: Global, rows: &[Row]) -> Result<String, AllocError> {
    let mut all = String::new(alloc);
    for row in rows {
        let row = show_row(alloc, row)?;
        all.push_str(row.as_str())?;
    }
    Ok(all)
}

fn params(alloc: Global) -> Result<List<Name>, Fail> {
    let mut params = List::new(alloc);
    for name in ["N", "M"] {
        let name = Name::from_str(alloc, name).ok().ok_or("a name")?;
        params.push(name).ok().ok_or("a list")?;
    }
    Ok(params)
}

fn answer(alloc: Global, map: &MapText) -> Result<String, Fail> {
    let params = params(alloc)?;
    match resolve_map(alloc, map, params.as_slice()) {
        Ok(map) => Ok(show_rows(alloc, map.rows())?),
        Err(ResolveFault::Unknown(name)) => {
            let name = name.as_str();
            Ok(format!(in alloc; "unknown {name}")?)
        }
        Err(ResolveFault::Twice(name)) => {
            let name = name.as_str();
            Ok(format!(in alloc; "twice {name}")?)
        }
        Err(ResolveFault::Entry) => Ok(String::from_str(alloc, "entry")?),
        Err(ResolveFault::Memory) => Err("memory".into()),
    }
}

fn resolved(alloc: Global, text: &str) -> Result<String, Fail> {
    let script = format!(in alloc; "CoB(X, {text});")?;
    let commands = read_script(alloc, script.as_bytes())
        .ok()
        .ok_or("a script")?;
    match commands.get(0) {
        Some(Command::CoB { map, .. }) => answer(alloc, map),
        _ => Err("a change of basis".into()),
    }
}

#[test]
fn resolves_maps(rt: HostRuntime) -> Result<(), Fail> {
    let mut count = 0u32;
    for case in CASES.split('§') {
        let Some((text, want)) = case.split_once('→') else {
            break;
        };
        let got = resolved(rt.alloc(), text)?;
        assert_eq!(rt; got.as_str(), want, "in {text}");
        count = count.wrapping_add(1);
    }
    assert_eq!(rt; count, 25);
    Ok(())
}
