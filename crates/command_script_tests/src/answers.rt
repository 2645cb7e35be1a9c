//! Scripts, and what is answered for each.
//!
//! The answers were found by hand, by the grammar.

use az_lin::Limit;
use az_text::LexFault;
use command_script::{ScriptFault, read_script};
use std::alloc::{AllocError, Global};
use std::test::Fail;

// Each script stands before an arrow, and its answer behind: how many commands are read, the byte of its
// fault, or the limit.

/// Whole scripts, and where they end.
const SCRIPTS: &str = "\
    →ok 0§\
    \x20// nothing\n→ok 0§\
    Show();→ok 1§\
    Show ( ) ; // shown→ok 1§\
    Show(); Run(); Show();→ok 3§\
    Show→at 4§\
    Show(→at 5§\
    Show()→at 6§\
    Show(;→at 5§\
    Show[];→at 4§\
    Show(X);→at 5§\
    Show();;→at 7§\
    Show(), Run();→at 6§\
    Show() Run();→at 7§\
    Show(); Run(→at 12§\
    show();→at 0§\
    Show(); normalize();→at 8§\
    ();→at 0§\
    7→at 0§\
    \"Show\"();→at 0§\
    Show(); ?→byte 8§\
    Show(. ?→byte 7§\
    ? 999999999999999999999999999999999999999→byte 0§\
    999999999999999999999999999999999999999 ?→wide 0§\
";

/// Commands with a file, which stands between quotes.
const FILES: &str = "\
    ReadAlphabets(\"a.ab\");→ok 1§\
    ReadAlphabets(\"\");→ok 1§\
    ReadAlphabets(a);→at 14§\
    ReadAlphabets();→at 14§\
    ReadAlphabets(\"a\" \"b\");→at 18§\
    ReadAlphabets(\"a\", \"b\");→at 17§\
    ReadAlphabets(\"a);→byte 14§\
    ReadAlphabets(\"a\nb\");→byte 14§\
    WriteCertificate(\"c\");→ok 1§\
    ReadInput(A, \"a.csv\");→ok 1§\
    ReadInput(\"a.csv\", A);→at 10§\
    ReadInput(A);→at 11§\
";

/// Names, which any word may be.
const NAMES: &str = "\
    Inline(Y, X);→ok 1§\
    Inline(Inline, Show);→ok 1§\
    RemoveUnused(reduce);→ok 1§\
    CoB(affine, (case,esac -> let,max));→ok 1§\
    Inline(Y);→at 8§\
    Inline(Y, X, Z);→at 11§\
    Inline(Y X);→at 9§\
    RemoveUnused(\"X\");→at 13§\
    RemoveUnused();→at 13§\
    FactorReduction(S);→ok 1§\
    FactorReduction(S, 1);→at 17§\
    FindSchedule(X);→ok 1§\
    FindSchedule(X, Y, Z);→ok 1§\
    FindSchedule();→at 13§\
    FindSchedule(X,);→at 15§\
    FindSchedule(X Y);→at 15§\
    setStatementOrder(X, Y);→ok 1§\
    setStatementOrder();→at 18§\
    VerifyTargetMapping();→ok 1§\
    VerifyTargetMapping(1);→at 20§\
    CheckProgram(); Normalize(); ShowLoops(); RunLoops();→ok 4§\
";

/// Numbers, vectors and factors.
const NUMBERS: &str = "\
    SplitReduction(S, 1);→ok 1§\
    SplitReduction(S, -1);→ok 1§\
    SplitReduction(S, +1);→at 18§\
    SplitReduction(S, i);→at 18§\
    SplitReduction(S);→at 16§\
    setParameter(N, -4);→ok 1§\
    setParameter(N, 4 + 1);→at 18§\
    setParameter(N, --4);→at 17§\
    setParameter(4, N);→at 13§\
    setParameter(N, 170141183460469231731687303715884105727);→ok 1§\
    setParameter(N, 170141183460469231731687303715884105728);→wide 16§\
    SimplifyReduction(S, [1,0]);→ok 1§\
    SimplifyReduction(S, [-1,-0]);→ok 1§\
    SimplifyReduction(S, []);→ok 1§\
    SimplifyReduction(S, [+1]);→at 22§\
    SimplifyReduction(S, [- -1]);→at 24§\
    SimplifyReduction(S, [1,]);→at 24§\
    SimplifyReduction(S, [,1]);→at 22§\
    SimplifyReduction(S, [1 0]);→at 24§\
    SimplifyReduction(S, 1);→at 21§\
    SpreadReduce(S, [200]);→ok 1§\
    Interleave(2, [1,1,0,1]);→ok 1§\
    Interleave(-2, [-1]);→ok 1§\
    Interleave([1]);→at 11§\
    Interleave(2);→at 12§\
    Interleave(2, 1);→at 14§\
";

/// Kinds of dimensions.
const KINDS: &str = "\
    setDimensionKinds();→ok 1§\
    setDimensionKinds(O, P 2);→ok 1§\
    setDimensionKinds(O, B 4, P, P 8, I);→ok 1§\
    setDimensionKinds(B -4, P -1);→ok 1§\
    setDimensionKinds(O 3);→at 20§\
    setDimensionKinds(I 1);→at 20§\
    setDimensionKinds(B);→at 19§\
    setDimensionKinds(B, P);→at 19§\
    setDimensionKinds(P -);→at 21§\
    setDimensionKinds(P +2);→at 20§\
    setDimensionKinds(P2);→at 18§\
    setDimensionKinds(o);→at 18§\
    setDimensionKinds(O P);→at 20§\
    setDimensionKinds(O,);→at 20§\
    setDimensionKinds(,);→at 18§\
    setDimensionKinds(2);→at 18§\
";

/// Maps, and the commands that have one.
const MAPS: &str = "\
    CoB(X, (i -> N-1-i));→ok 1§\
    CoB(X, ( -> ));→ok 1§\
    CoB(X, (->1));→ok 1§\
    CoB(X, (i -> 2 i - 3*N + 4, -i));→ok 1§\
    CoB(X, (i,j -> i));→ok 1§\
    CoB(X);→at 5§\
    CoB(X, i);→at 7§\
    CoB(X, [i -> i]);→at 7§\
    CoB((i -> i), X);→at 4§\
    CoB(X, (i, -> i));→at 11§\
    CoB(X, (2 -> i));→at 8§\
    CoB(X, (i - > i));→at 10§\
    CoB(X, (i));→at 9§\
    CoB(X, (i -> ,i));→at 13§\
    CoB(X, (i -> i,));→at 15§\
    CoB(X, (i -> i i));→at 15§\
    CoB(X, (i -> 2*3));→at 15§\
    CoB(X, (i -> --i));→at 14§\
    CoB(X, (i -> (i)));→at 13§\
    CoB(X, (i -> i);→at 15§\
    setSpaceTimeMap(X, (t,i -> t,i));→ok 1§\
    setMemoryMap(X, mx, (t,i -> t,i), [2,0]);→ok 1§\
    setMemoryMap(X, mx, (i -> i), []);→ok 1§\
    setMemoryMap(X, (t,i -> t,i), [2,0]);→at 16§\
    setMemoryMap(X, mx, (i -> i));→at 28§\
    setMemoryMap(X, mx, (i -> i), [-1]);→at 31§\
    setMemoryMap(X, mx, (i -> i), [+1]);→at 31§\
";

const TABLES: [&str; 6] = [SCRIPTS, FILES, NAMES, NUMBERS, KINDS, MAPS];

fn answer(alloc: Global, text: &str) -> Result<String, AllocError> {
    match read_script(alloc, text.as_bytes()) {
        Ok(commands) => {
            let count = commands.len();
            format!(in alloc; "ok {count}")
        }
        Err(ScriptFault::Lex(LexFault::BadByte(place))) => format!(in alloc; "byte {place}"),
        Err(ScriptFault::Lex(LexFault::WideNumber(place))) => format!(in alloc; "wide {place}"),
        Err(ScriptFault::Syntax(place)) => format!(in alloc; "at {place}"),
        Err(ScriptFault::Limit(Limit::Commands)) => String::from_str(alloc, "Commands"),
        Err(ScriptFault::Limit(Limit::Turns)) => String::from_str(alloc, "Turns"),
        Err(ScriptFault::Limit(_)) => String::from_str(alloc, "limit"),
        Err(_) => String::from_str(alloc, "memory"),
    }
}

#[test]
fn answers_scripts(rt: HostRuntime) -> Result<(), Fail> {
    let mut count = 0u32;
    for table in &TABLES {
        for case in table.split('§') {
            let Some((text, want)) = case.split_once('→') else {
                break;
            };
            let got = answer(rt.alloc(), text)?;
            assert_eq!(rt; got.as_str(), want, "in {text}");
            count = count.wrapping_add(1);
        }
    }
    assert_eq!(rt; count, 126);
    Ok(())
}
