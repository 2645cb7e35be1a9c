//! What the commands that are read have in them.
//!
//! The commands were found by hand, by the grammar.

use crate::shown::command;
use command_script::read_script;
use std::alloc::Global;
use std::test::Fail;

/// Scripts of one command, with its word and arguments behind the arrow.
const CASES: &str = "\
    ReadAlphabets(\"a b//c.ab\");→ReadAlphabets a b//c.ab §\
    CheckProgram();→CheckProgram  §\
    Show();→Show  §\
    FindSchedule(X, Y,Z);→FindSchedule X Y Z §\
    CoB(X, (i -> N-1-i));→CoB X i -> 1 N -1 -1 i ; §\
    CoB(X, (t,i -> 2*t - 3i + 4, -i, +7, N));→CoB X t i -> 2 t -3 i 4 ; -1 i ; 7 ; 1 N ; §\
    CoB(X, ( -> ));→CoB X -> §\
    CoB(X, (i,i -> 0*j, i-i));→CoB X i i -> 0 j ; 1 i -1 i ; §\
    CoB(X, (i -> 170141183460469231731687303715884105727*i - 170141183460469231731687303715884105727));→CoB X i -> 170141183460469231731687303715884105727 i -170141183460469231731687303715884105727 ; §\
    Normalize();→Normalize  §\
    Inline(Y, X);→Inline Y X§\
    RemoveUnused(X);→RemoveUnused X §\
    SimplifyReduction(S, [1,-2,0]);→SimplifyReduction S 1 -2 0 §\
    SimplifyReduction(S, []);→SimplifyReduction S §\
    FactorReduction(S);→FactorReduction S §\
    SplitReduction(S, - 1);→SplitReduction S -1§\
    setDimensionKinds(O, B 4, P, P 8, I);→setDimensionKinds outer band 4 processor 1 processor 8 inner §\
    setDimensionKinds(B -4, P -1, P 1);→setDimensionKinds band -4 processor -1 processor 1 §\
    setDimensionKinds();→setDimensionKinds §\
    setSpaceTimeMap(Z, ( -> T+1,0));→setSpaceTimeMap Z -> 1 T 1 ; 0 ; §\
    setMemoryMap(X, mx, (t,i -> t,i), [2,0]);→setMemoryMap X mx t i -> 1 t ; 1 i ; 2 0 §\
    setStatementOrder(Y, X);→setStatementOrder Y X §\
    VerifyTargetMapping();→VerifyTargetMapping  §\
    WriteCertificate(\"c\");→WriteCertificate c §\
    setParameter(N, 007);→setParameter N 7§\
    setParameter(N, -0);→setParameter N 0§\
    setParameter(N, -170141183460469231731687303715884105727);→setParameter N -170141183460469231731687303715884105727§\
    ReadInput(A, \"\");→ReadInput A §\
    Run();→Run  §\
    Interleave(2, [1,1,-1]);→Interleave 2 1 1 -1 §\
    ShowLoops();→ShowLoops  §\
    RunLoops();→RunLoops  §\
    SpreadReduce(S, [200,-1]);→SpreadReduce S 200 -1 §\
";

fn shown(alloc: Global, text: &str) -> Result<String, Fail> {
    let commands = read_script(alloc, text.as_bytes()).ok().ok_or("a script")?;
    let first = commands.get(0).ok_or("a command")?;
    Ok(command(alloc, first)?)
}

#[test]
fn reads_commands(rt: HostRuntime) -> Result<(), Fail> {
    let mut count = 0u32;
    for case in CASES.split('§') {
        let Some((text, want)) = case.split_once('→') else {
            break;
        };
        let got = shown(rt.alloc(), text)?;
        assert_eq!(rt; got.as_str(), want, "in {text}");
        count = count.wrapping_add(1);
    }
    assert_eq!(rt; count, 33);
    Ok(())
}
