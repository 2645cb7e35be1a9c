//! Programs that are certified or refused. The kinds, cases and points were found by hand.

use alphabets_read::read_program;
use az_ast::Program;
use az_lin::{Limit, RatPoint};
use domain_check::{CertifyFault, CheckKind, CheckNo, certify};
use std::alloc::{AllocError, Global};
use std::test::Fail;

/// Programs that are certified.
const CERTIFIED: [&str; 12] = [
    "affine Ramp {|} output X {i|0<=i<=3}; let X[i] = [2*i+1]; .",
    "affine Prefix {N|N>=0} input A {i|0<=i<N}; output S {i|0<=i<N}; let S[i] = case {|i=0} : A[i]; {|i>0} : S[i-1] + A[i]; esac; .",
    "affine Stencil {T,W|T>=1 && W>=3} input A {i|0<=i<W}; output Y {i|0<=i<W}; local X {t,i|0<=t<=T && 0<=i<W}; let X[t,i] = case {|t=0} : A[i]; {|t>=1 && i=0} : X[t-1,i]; {|t>=1 && i=W-1} : X[t-1,i]; {|t>=1 && 1<=i<=W-2} : X[t-1,i-1] + X[t-1,i] + X[t-1,i+1]; esac; Y[i] = X[T,i]; .",
    "affine Pair {N|N>=1} input A {i|0<=i<N}; output Y {i|0<=i<N}; local X {i|0<=i<N}; let Y[i] = X[i] + 1; X[i] = A[i]; .",
    "affine Neg {|} output R {i|-3<=i<=2}; let R[i] = case {|i=-3} : 1; {|i>-3} : R[i-1]*2; esac; .",
    "affine Nest {|} output Y {i|0<=i<=3}; let Y[i] = case {|i<=1} : 1; {|i>=2} : 2; esac + reduce(max, [k], {|1<=k<=i} : [k]); .",
    "affine Sums {N|N>=1} input A {i|1<=i<=N}; output S {i|1<=i<=N}; let S[i] = reduce(+, [k], {|1<=k<=i} : A[k]); .",
    "affine Win {N|N>=4} input A {i|0<=i<N}; output M {i|0<=i<=N-3}; let M[i] = reduce(max, [k], {|i<=k<=i+2} : A[k]); .",
    "affine Two {|} output X {i|0<=i<=1 || 4<=i<=5}; let X[i] = case {|i<=0 || i>=5} : 1; {|1<=i<=4} : [i]; esac; .",
    "affine Half {|} output X {i|0<=i<=5}; let X[i] = case {|2*i<=5} : 1; {|2*i>=5} : 2; esac; .",
    "affine Loop {|} output S {i|0<=i<=1}; let S[i] = S[i]; .",
    "affine Flip {N|N>=1} input A {i|0<=i<N}; output Y {i|0<=i<N}; local X {i|0<=i<N}; let Y[i] = X[i]; X[i] = A[i]; .",
];

/// Programs that are refused, and why.
const REFUSED: [(&str, &str); 21] = [
    (
        "affine C {|} output X {i|-5<=i<=5}; let X[i] = case {|i<=0} : 1; {|i>=0} : 2; esac; .",
        "Overlap 0 case 0 at 0",
    ),
    (
        "affine C {|} output X {i|-5<=i<=5}; let X[i] = case {|i<0} : 1; {|i>0} : 2; esac; .",
        "Gap 0 case 1 at 0",
    ),
    (
        "affine D {N|N>=1} input A {i|0<=i<N}; output B {i|0<=i<N}; let B[i] = A[i-1]; .",
        "Outside 1 case 0 at 1,0",
    ),
    (
        "affine U {|} output X {i|0<=i}; let X[i] = 1; .",
        "Unbounded 0 case 0 at 1",
    ),
    (
        "affine U {|} output X {i|i<=0}; let X[i] = 1; .",
        "Unbounded 0 case 1 at -1",
    ),
    (
        "affine U {|} output X {i,j|0<=i<=3 && 0<=j}; let X[i,j] = 1; .",
        "Unbounded 0 case 2 at 0,1",
    ),
    (
        "affine U {|} output X {i|0<=i<=1 || 5<=i}; let X[i] = 1; .",
        "Unbounded 0 case 2 at 1",
    ),
    // The numbers begin anew for each variable.
    (
        "affine U {|} input A {i|0<=i<=3}; output X {i|0<=i}; let X[i] = 1; .",
        "Unbounded 1 case 0 at 1",
    ),
    (
        "affine E {|} output X {i|0<=i<=2}; let X[i] = reduce(+, [k], {|k>=0} : 1); .",
        "Endless 0 case 0 at 1",
    ),
    (
        "affine E {|} output X {i|0<=i<=2}; let X[i] = reduce(+, [k], {|k<=i} : 1); .",
        "Endless 0 case 1 at -1",
    ),
    // A reduction in a reduction; the numbers go on over the equation.
    (
        "affine E {|} output X {i|0<=i<=2}; let X[i] = reduce(+, [k], {|0<=k<=i} : reduce(max, [m], {|m>=k} : [m])); .",
        "Endless 0 case 2 at 1",
    ),
    // The second access, in the second branch.
    (
        "affine O {|} input A {i|0<=i<=3}; output X {i|0<=i<=4}; let X[i] = case {|i<=2} : A[i]; {|i>=3} : A[i]; esac; .",
        "Outside 1 case 5 at 4",
    ),
    // An access, a gap and an overlap in a reduction in a branch.
    (
        "affine O {|} input A {i|0<=i<=2}; output X {i|0<=i<=3}; let X[i] = case {|i<=1} : 1; {|i>=2} : reduce(+, [k], {|0<=k<=i} : A[k]); esac; .",
        "Outside 1 case 5 at 3,3",
    ),
    (
        "affine G {|} output X {i|0<=i<=3}; let X[i] = case {|i<=1} : 0; {|i>=2} : reduce(+, [k], {|0<=k<=i} : case {|k<=0} : 1; {|k>=2} : 2; esac); esac; .",
        "Gap 0 case 5 at 2,1",
    ),
    (
        "affine L {|} output X {i|0<=i<=3}; let X[i] = case {|i<=1} : 0; {|i>=2} : reduce(+, [k], {|0<=k<=i} : case {|k<=1} : 1; {|k>=1} : 2; esac); esac; .",
        "Overlap 0 case 4 at 2,1",
    ),
    // The first branch with the last, and the last two.
    (
        "affine L {|} output X {i|0<=i<=4}; let X[i] = case {|i<=1} : 0; {|i=2} : 1; {|i>=1} : 2; esac; .",
        "Overlap 0 case 1 at 1",
    ),
    (
        "affine L {|} output X {i|0<=i<=4}; let X[i] = case {|i<=0} : 0; {|1<=i<=2} : 1; {|i>=2} : 2; esac; .",
        "Overlap 0 case 2 at 2",
    ),
    // Several disjuncts in a branch and in the domain that is read.
    (
        "affine G {|} output X {i|0<=i<=4}; let X[i] = case {|i<=0 || i>=3} : 0; {|i=1} : 1; esac; .",
        "Gap 0 case 3 at 2",
    ),
    (
        "affine O {|} input A {i|0<=i<=1 || 3<=i<=4}; output X {i|0<=i<=4}; let X[i] = A[i]; .",
        "Outside 1 case 2 at 2",
    ),
    // A negated and a composed entry go before a direction that goes on for ever.
    (
        "affine N {|} output X {i|0<=i}; let X[i] = case {|i>=-1152921504606846975} : 1; esac; .",
        "Entry",
    ),
    (
        "affine N {|} input A {i|0<=4*i<=8}; output X {i|0<=i}; let X[i] = A[576460752303423488*i]; .",
        "Entry",
    ),
];

fn word(kind: CheckKind) -> &'static str {
    match kind {
        CheckKind::Unbounded => "Unbounded",
        CheckKind::Overlap => "Overlap",
        CheckKind::Gap => "Gap",
        CheckKind::Outside => "Outside",
        CheckKind::Endless => "Endless",
    }
}

fn push_point(alloc: Global, said: &mut String, point: &RatPoint) -> Result<(), AllocError> {
    let mut mark = " ";
    for number in point.nums.as_slice() {
        let shown = format!(in alloc; "{mark}{number}")?;
        said.push_str(shown.as_str())?;
        if point.den != 1 {
            let below = format!(in alloc; "/{}", point.den)?;
            said.push_str(below.as_str())?;
        }
        mark = ",";
    }
    Ok(())
}

/// The kind, the variable, the case and the point.
fn refusal(alloc: Global, no: &CheckNo) -> Result<String, AllocError> {
    let mut said = String::from_str(alloc, word(no.kind))?;
    let place = format!(in alloc; " {} case {} at", no.variable, no.case_no)?;
    said.push_str(place.as_str())?;
    push_point(alloc, &mut said, &no.point)?;
    Ok(said)
}

/// Why a program is refused.
fn cause(alloc: Global, fault: &CertifyFault) -> Result<String, AllocError> {
    match fault {
        CertifyFault::No(no) => refusal(alloc, no),
        CertifyFault::Overflow { .. } => String::from_str(alloc, "Overflow"),
        CertifyFault::Entry => String::from_str(alloc, "Entry"),
        CertifyFault::Limit(Limit::Systems) => String::from_str(alloc, "Systems"),
        CertifyFault::Limit(_) => String::from_str(alloc, "Limit"),
        CertifyFault::Memory => Err(AllocError),
    }
}

/// What certification answers.
fn answer(alloc: Global, program: Program) -> Result<String, AllocError> {
    match certify(alloc, program) {
        Ok(_) => String::from_str(alloc, "certified"),
        Err(refused) => cause(alloc, &refused.1),
    }
}

fn answer_to(alloc: Global, text: &str) -> Result<String, Fail> {
    match read_program(alloc, text.as_bytes()) {
        Ok(program) => Ok(answer(alloc, program)?),
        Err(_) => Ok(String::from_str(alloc, "unread")?),
    }
}

#[test]
fn certified_programs(rt: HostRuntime) -> Result<(), Fail> {
    for text in &CERTIFIED {
        let said = answer_to(rt.alloc(), text)?;
        assert_eq!(rt; said.as_str(), "certified", "for {text}");
    }
    Ok(())
}

#[test]
fn refused_programs(rt: HostRuntime) -> Result<(), Fail> {
    for (text, wanted) in &REFUSED {
        let said = answer_to(rt.alloc(), text)?;
        assert_eq!(rt; said.as_str(), *wanted, "for {text}");
    }
    Ok(())
}

const DISJUNCTS: &str = "case {|i<=0||i<=1||i<=2||i<=3||i<=4||i<=5||i<=6||i<=7} : ";

/// Seven cases in one another have 8^6 cases of a context at the innermost, which is found before
/// the domain that goes on for ever.
#[test]
fn too_many_cases(rt: HostRuntime) -> Result<(), Fail> {
    let alloc = rt.alloc();
    let mut text = String::from_str(alloc, "affine M {|} output X {i|0<=i}; let X[i] = ")?;
    for _ in 0..7 {
        text.push_str(DISJUNCTS)?;
    }
    text.push_str("1")?;
    for _ in 0..7 {
        text.push_str("; esac")?;
    }
    text.push_str("; .")?;
    let said = answer_to(alloc, text.as_str())?;
    assert_eq!(rt; said.as_str(), "Systems");
    Ok(())
}
