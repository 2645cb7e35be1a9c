//! How fast programs are evaluated: a stencil of three reads, a prefix sum over a table, a chain that
//! is asked for from its far end, and a reduction at each point. The arguments are the sizes of the
//! four, and 0 leaves one out. Printed are the rows of each and a sum of their values, modulo 2^64.
#![tactic(auto)]

use alphabets_read::read_program;
use az_ast::Values;
use domain_check::certify;
use equation_meaning_tests::evaluated;
use std::alloc::Global;
use std::env;
use std::process::ExitCode;

/// Points of W = N columns over T = N steps.
const STENCIL: &str =
    "affine Stencil {N | N>=2} output Y {i | 0<=i<=N}; local X {t,i | 0<=t<=N && 0<=i<=N}; let X[t,i] = case {| t=0} : [i]; {| t>=1 && i=0} : X[t-1,i]; {| t>=1 && i=N} : X[t-1,i]; {| t>=1 && 1<=i<=N-1} : X[t-1,i-1] + X[t-1,i] + X[t-1,i+1]; esac; Y[i] = X[N,i]; .";

const PREFIX: &str =
    "affine Prefix {N | N>=2} input A {i | 0<=i<N}; output S {i | 0<=i<N}; let S[i] = case {| i=0} : A[i]; {| i>0} : S[i-1] + A[i]; esac; .";

const CHAIN: &str =
    "affine Chain {N | N>=2} output S {i | 0<=i<N}; let S[i] = case {| i=N-1} : 1; {| i<=N-2} : S[i+1] + 3; esac; .";

const SUMS: &str =
    "affine Sums {N | N>=2} output S {i | 0<=i<N}; local A {i | 0<=i<N}; let S[i] = reduce(+, [k], {| 0<=k<N} : A[k] * [i+k]); A[i] = [2*i+1]; .";

/// How many rows there are, and the sum of their values.
#[derive(Drop)]
struct Total {
    rows: u64,
    sum: i64,
}

fn total_of(values: &Values) -> Total {
    let mut total = Total { rows: 0, sum: 0 };
    for x in 0..2 {
        if let Some(table) = values.table(x) {
            for row in table.rows() {
                total.rows = total.rows.saturating_add(1);
                total.sum = total.sum.wrapping_add(row.1);
            }
        }
    }
    total
}

fn run(alloc: Global, text: &str, size: u32) -> Option<Total> {
    let program = read_program(alloc, text.as_bytes()).ok()?;
    match certify(alloc, program) {
        Ok(checked) => match evaluated(alloc, &checked, &[i128::from(size)], &[5, 3, 1]) {
            Some(Ok(values)) => Some(total_of(&values)),
            _ => None,
        },
        Err(_) => None,
    }
}

fn number(word: Option<String>) -> u32 {
    match word {
        Some(word) => word.as_str().parse::<u32>().unwrap_or(8),
        None => 8,
    }
}

/// The sizes, or 8 where there is no argument.
fn sizes(rt: &HostRuntime) -> [u32; 4] {
    match env::args(rt) {
        Ok(mut words) => {
            let stencil = words.nth(1);
            let prefix = words.next();
            let chain = words.next();
            let sums = words.next();
            [number(stencil), number(prefix), number(chain), number(sums)]
        }
        Err(_) => [8, 8, 8, 8],
    }
}

fn main(rt: HostRuntime) -> ExitCode {
    let alloc = rt.alloc();
    let [stencil, prefix, chain, sums] = sizes(&rt);
    let runs = [
        ("stencil", STENCIL, stencil),
        ("prefix", PREFIX, prefix),
        ("chain", CHAIN, chain),
        ("sums", SUMS, sums),
    ];
    for (name, text, size) in runs {
        if size == 0 {
            continue;
        }
        let Some(total) = run(alloc, text, size) else {
            return ExitCode::FAILURE;
        };
        let said = println!(rt; "{name} {} rows, sum {}", total.rows, total.sum);
        if said.is_err() {
            return ExitCode::FAILURE;
        }
    }
    ExitCode::SUCCESS
}
