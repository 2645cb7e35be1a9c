//! What the programs that are read have in them.
//!
//! The rows and trees were found by hand, by the grammar and the order of columns.

use crate::read_program;
use az_ast::{Expr, Program, Role};
use az_lin::{Domain, Row};
use std::alloc::{AllocError, Global};
use std::test::Fail;

// What is read is shown: a row as its coefficients, a bar and its constant, a disjunct in braces.

fn show_row(alloc: Global, row: &Row) -> Result<String, AllocError> {
    let mut all = String::new(alloc);
    for coef in row.coefs() {
        let coef = *coef;
        write!(all, "{coef} ")?;
    }
    let konst = row.konst();
    write!(all, "| {konst};")?;
    Ok(all)
}

fn show_rows(alloc: Global, rows: &[Row]) -> Result<String, AllocError> {
    let mut all = String::new(alloc);
    for row in rows {
        let row = show_row(alloc, row)?;
        all.push_str(row.as_str())?;
    }
    Ok(all)
}

fn show_domain(alloc: Global, domain: &Domain) -> Result<String, AllocError> {
    let mut all = String::new(alloc);
    for conj in domain.disjuncts() {
        let rows = show_rows(alloc, conj.rows())?;
        all.push_str("{")?;
        all.push_str(rows.as_str())?;
        all.push_str("}")?;
    }
    Ok(all)
}

fn show(alloc: Global, expr: &Expr) -> Result<String, AllocError> {
    match expr {
        Expr::Const(value) => {
            let value = *value;
            format!(in alloc; "{value}")
        }
        Expr::Index(row) => {
            let row = show_row(alloc, row)?;
            format!(in alloc; "[{row}]")
        }
        Expr::Access(variable, map) => {
            let variable = *variable;
            let rows = show_rows(alloc, map.rows())?;
            format!(in alloc; "{variable}({rows})")
        }
        Expr::Neg(body) => {
            let body = show(alloc, body.get())?;
            format!(in alloc; "Neg({body})")
        }
        Expr::Bin(op, left, right) => {
            let op = *op;
            let left = show(alloc, left.get())?;
            let right = show(alloc, right.get())?;
            format!(in alloc; "{op:?}({left}, {right})")
        }
        Expr::Cases(branches) => {
            let mut all = String::from_str(alloc, "Cases(")?;
            for branch in branches.as_slice() {
                let domain = show_domain(alloc, &branch.domain)?;
                let body = show(alloc, &branch.body)?;
                write!(all, "{domain} {body}; ")?;
            }
            all.push_str(")")?;
            Ok(all)
        }
        Expr::Reduce(op, extra, domain, body) => {
            let op = *op;
            let extra = *extra;
            let domain = show_domain(alloc, domain)?;
            let body = show(alloc, body.get())?;
            format!(in alloc; "{op:?} over {extra} {domain}({body})")
        }
    }
}

/// Domains over the columns N and i, with the rows that they give.
const DOMAINS: &str = "\
    →{}§\
    0<=i<N→{0 1 | 0;1 -1 | -1;}§\
    0<=i&&i<N→{0 1 | 0;1 -1 | -1;}§\
    i<=N→{1 -1 | 0;}§\
    i<N→{1 -1 | -1;}§\
    i>=N→{-1 1 | 0;}§\
    i>N→{-1 1 | -1;}§\
    i=N→{-1 1 | 0;1 -1 | 0;}§\
    i==2*N-1→{-2 1 | 1;2 -1 | -1;}§\
    N>i>=0→{1 -1 | -1;0 1 | 0;}§\
    0<=i<N=5→{0 1 | 0;1 -1 | -1;1 0 | -5;-1 0 | 5;}§\
    0==1→{0 0 | -1;0 0 | 1;}§\
    2i<=4→{0 -2 | 4;}§\
    4*i<6→{0 -4 | 5;}§\
    2*i+3i-i<=0→{0 -4 | 0;}§\
    1+2+i>=N-4→{-1 1 | 7;}§\
    -i>=-N→{1 -1 | 0;}§\
    +i+i>-i-1→{0 3 | 0;}§\
    N-i>=N-i→{0 0 | 0;}§\
    2000000000000000000*i-2000000000000000000*i>=0→{0 0 | 0;}§\
    i<=1152921504606846975→{0 -1 | 1152921504606846975;}§\
    007<=i→{0 1 | -7;}§\
    \x20|| →{}{}§\
    i=0||2<=i<=N→{0 1 | 0;0 -1 | 0;}{0 1 | -2;1 -1 | 0;}§\
    i<0|| ||i>0→{0 -1 | -1;}{}{0 1 | -1;}§\
";

/// Expressions over the columns N and i, where A is variable 0 and B is variable 1.
const EXPRESSIONS: &str = "\
    5→5§\
    -5→-5§\
    - 5→-5§\
    -9223372036854775808→-9223372036854775808§\
    i→[0 1 | 0;]§\
    [i]→[0 1 | 0;]§\
    -i→Neg([0 1 | 0;])§\
    -(5)→Neg(5)§\
    (-5)→-5§\
    -[5]→Neg([0 0 | 5;])§\
    [-5]→[0 0 | -5;]§\
    [2*i-3N+i+7-1]→[-3 3 | 6;]§\
    [N-N]→[0 0 | 0;]§\
    1-2-3→Sub(Sub(1, 2), 3)§\
    1-2+3→Add(Sub(1, 2), 3)§\
    1-(2-3)→Sub(1, Sub(2, 3))§\
    2*3*4→Mul(Mul(2, 3), 4)§\
    1+2*3→Add(1, Mul(2, 3))§\
    1*2+3→Add(Mul(1, 2), 3)§\
    (1+2)*3→Mul(Add(1, 2), 3)§\
    1-5→Sub(1, 5)§\
    1 - -5→Sub(1, -5)§\
    2*-5→Mul(2, -5)§\
    -i*2→Mul(Neg([0 1 | 0;]), 2)§\
    -5*i→Mul(-5, [0 1 | 0;])§\
    max(1, min(2, 3))→Max(1, Min(2, 3))§\
    and(1, or(2, xor(3, 4)))→And(1, Or(2, Xor(3, 4)))§\
    A[i-1]→0(0 1 | -1;)§\
    B[N-i,2*i]→1(1 -1 | 0;0 2 | 0;)§\
    X[i]→3(0 1 | 0;)§\
    C[]→2()§\
    {|i>=1} : 7→Cases({0 1 | -1;} 7; )§\
    {|} : 1 + 2→Cases({} Add(1, 2); )§\
    1 + ({|} : 2)→Add(1, Cases({} 2; ))§\
    case {|i<0||i>0} : 1; {|i=0} : {|} : 2; esac→Cases({0 -1 | -1;}{0 1 | -1;} 1; {0 1 | 0;0 -1 | 0;} Cases({} 2; ); )§\
    reduce(+, [k], {|0<=k<i} : A[k])→Add over 1 {0 0 1 | 0;0 1 -1 | -1;}(0(0 0 1 | 0;))§\
    reduce(max, [k,l], {|} : [k-2*l+N])→Max over 2 {}([1 0 1 -2 | 0;])§\
    reduce(*, [k], {|k=N} : reduce(xor, [l], {|l=k} : B[l,k]))→Mul over 1 {-1 0 1 | 0;1 0 -1 | 0;}(Xor over 1 {0 0 -1 1 | 0;0 0 1 -1 | 0;}(1(0 0 0 1 | 0;0 0 1 0 | 0;)))§\
    reduce(+, [], {|} : {|i=N} : i)→Add over 0 {}(Cases({-1 1 | 0;1 -1 | 0;} [0 1 | 0;]; ))§\
    reduce(+, [k], {|} : k) - [i]→Sub(Add over 1 {}([0 0 1 | 0;]), [0 1 | 0;])§\
";

fn read(alloc: Global, before: &str, between: &str, behind: &str) -> Result<Program, Fail> {
    let mut text = String::from_str(alloc, before)?;
    text.push_str(between)?;
    text.push_str(behind)?;
    let program = read_program(alloc, text.as_bytes()).ok();
    Ok(program.ok_or("a program")?)
}

#[test]
fn reads_domains(rt: HostRuntime) -> Result<(), Fail> {
    let alloc = rt.alloc();
    let mut count = 0u32;
    for case in DOMAINS.split('§') {
        let Some((text, want)) = case.split_once('→') else {
            break;
        };
        let program = read(alloc, "affine P {N|} input A {i|", text, "}; let .")?;
        let variable = program.variables().first().ok_or("a variable")?;
        let got = show_domain(alloc, &variable.domain)?;
        assert_eq!(rt; got.as_str(), want, "in {text}");
        count = count.wrapping_add(1);
    }
    assert_eq!(rt; count, 25);
    Ok(())
}

const EXPRESSION: &str = "affine P {N|} input A {a|}; B {a,b|}; C {|}; output X {a|}; let X[i] = ";

#[test]
fn reads_expressions(rt: HostRuntime) -> Result<(), Fail> {
    let alloc = rt.alloc();
    let mut count = 0u32;
    for case in EXPRESSIONS.split('§') {
        let Some((text, want)) = case.split_once('→') else {
            break;
        };
        let program = read(alloc, EXPRESSION, text, "; .")?;
        let equation = program.equations().first().ok_or("an equation")?;
        let got = show(alloc, &equation.body)?;
        assert_eq!(rt; got.as_str(), want, "in {text}");
        count = count.wrapping_add(1);
    }
    assert_eq!(rt; count, 40);
    Ok(())
}

const ORDER: &str =
    "affine Order {N,M | 0<=M<N} input B {i|}; A {|}; output Y {|}; local int X {i,j|}; W {|}; ";

/// The variables in the order of their sections, each with its columns.
const VARIABLES: [(&str, Role, usize); 5] = [
    ("B", Role::Input, 3),
    ("A", Role::Input, 2),
    ("Y", Role::Output, 2),
    ("X", Role::Local, 4),
    ("W", Role::Local, 2),
];

/// The equations as they are written, each with the number of its variable.
const BODIES: [(u32, &str); 3] = [
    (3, "Add(4(), 0(0 0 0 1 | 0;))"),
    (4, "Mul(2(), 1())"),
    (2, "3(1 0 | 0;0 1 | 0;)"),
];

#[test]
fn numbers_variables(rt: HostRuntime) -> Result<(), Fail> {
    let alloc = rt.alloc();
    let body = "let X[k,l] = W[] + B[l]; W[] = Y[] * A[]; Y[] = X[N,M]; ";
    let program = read(alloc, ORDER, body, ".")?;
    assert_eq!(rt; program.name().as_str(), "Order");
    assert_eq!(rt; program.params().len(), 2);
    let domain = show_domain(alloc, program.pdom())?;
    assert_eq!(rt; domain.as_str(), "{0 1 | 0;1 -1 | -1;}");
    assert_eq!(rt; program.variables().len(), 5);
    for (variable, (name, role, width)) in program.variables().iter().zip(&VARIABLES) {
        assert_eq!(rt; variable.name.as_str(), *name);
        assert!(rt; variable.role == *role);
        assert_eq!(rt; variable.domain.width(), *width);
    }
    assert_eq!(rt; program.equations().len(), 3);
    for (equation, (variable, want)) in program.equations().iter().zip(&BODIES) {
        assert_eq!(rt; equation.variable, *variable);
        let got = show(alloc, &equation.body)?;
        assert_eq!(rt; got.as_str(), *want);
    }
    Ok(())
}
