//! Texts of programs, and what is answered for each.
//!
//! The answers were found by hand, by the grammar and the rules on shapes.

use crate::{ReadFault, read_program};
use az_text::LexFault;
use std::alloc::{AllocError, Global};
use std::test::Fail;

// Each text stands before an arrow, and its answer behind: that it is read, the byte of its fault, the
// limit, or the kind and the item.

/// Programs, their sections and where texts end.
const PROGRAMS: &str = "\
    affine P {|} let .→ok§\
    →at 0§\
    program P {|} let .→at 0§\
    affine→at 6§\
    affine let {|} let .→at 7§\
    affine 9 {|} let .→at 7§\
    affine P let .→at 9§\
    affine P {|}→at 12§\
    affine P {|} X[] = 1; .→at 13§\
    affine P {|} let→at 16§\
    affine P {|} let X[] = 1;  →at 27§\
    affine P {|} let . .→at 19§\
    affine P {|} let ;→at 17§\
    affine P {|} input A {|}; B {|}; output Y {|}; local Z {|}; let Y[] = A[]; Z[] = B[]; .→ok§\
    affine P {|} output Y {|}; let Y[] = 1; .→ok§\
    affine P {|} local Y {|}; let Y[] = 1; .→ok§\
    affine P {|} input let .→at 19§\
    affine P {|} output local X {|}; let .→at 20§\
    affine P {|} local .→at 19§\
    affine P {|} local X {|}; input A {|}; let .→at 26§\
    affine P {|} local X {|}; output A {|}; let .→at 26§\
    affine P {|} output X {|}; input A {|}; let .→at 27§\
    affine P {|} input A {|}; input B {|}; let .→at 26§\
";

/// Blanks, comments and tokens. A fault of the tokens goes before all others.
const TOKENS: &str = "\
    affine\tP\r\n{|}let.→ok§\
    affine P {|} // a comment ? and 1 \"\nlet . // the end→ok§\
    affine P {|} let //.→at 20§\
    affine _P {|} let .→byte 7§\
    affine P ?→byte 9§\
    let affine P ?→byte 13§\
    affine P {N|N>=0 & N<=9} let .→byte 17§\
    affine P {|} let X[] = 6/2; .→byte 24§\
    affine P {|} let X[] = \"1; .→byte 23§\
    affine P {|} let X[] = \"1\"; .→at 23§\
    affine P {|} let X[] = 1.5; .→at 24§\
    affine P {|} let X[] = [0->1]; .→at 25§\
    affine P {N|N<=170141183460469231731687303715884105728} let .→wide 15§\
    let let 999999999999999999999999999999999999999 ?→wide 8§\
    let let ? 999999999999999999999999999999999999999→byte 8§\
";

/// Declarations and their domains.
const DECLARATIONS: &str = "\
    affine P {|} input int A {|}; long B {|}; C {|}; let .→ok§\
    affine P {|} input int long A {|}; let .→at 23§\
    affine P {|} input long {|}; let .→at 24§\
    affine P {|} input case {|}; let .→at 19§\
    affine P {|} input A [i]; let .→at 21§\
    affine P {|} input A {i}; let .→at 23§\
    affine P {|} input A {i|} let .→at 26§\
    affine P {|} input A {i|,} let .→at 24§\
    affine P {|} input A {||}; let .→at 22§\
    affine P {|} input A {| || }; let .→ok§\
    affine P {|} input A {i|i=0||||2<=i}; let .→ok§\
    affine P {|} input A {i|&&0<=i}; let .→at 24§\
    affine P {|} input A {i|0<=i&&}; let .→at 30§\
    affine P {|} input A {i|0<=i&&||i=1}; let .→at 30§\
    affine P {|} input A {i|0<=i ; let .→at 29§\
";

/// Parameters and their domain, which has one disjunct.
const PARAMETERS: &str = "\
    affine P {N,M|N>=0&&M>N} let .→ok§\
    affine P {N,M|N>=0||M>N} let .→at 18§\
    affine P {,N|} let .→at 10§\
    affine P {N,|} let .→at 12§\
    affine P {N M|} let .→at 12§\
    affine P {max|} let .→at 10§\
    affine P {N} let .→at 11§\
    affine P {| ]→at 12§\
    affine P {|; let .→at 11§\
";

/// Chains and affine sides.
const SIDES: &str = "\
    affine P {N|0<=N&&0<N&&N>=0&&N>0&&N=1&&N==1} let .→ok§\
    affine P {N|0<=N<5=5>=N>0==0} let .→ok§\
    affine P {N|N} let .→at 13§\
    affine P {N|N && 0<=N} let .→at 14§\
    affine P {N|N>=} let .→at 15§\
    affine P {N|N<>0} let .→at 14§\
    affine P {N|0<=N<&&N>0} let .→at 17§\
    affine P {N|+N-1>=-2*N+3N-0+1} let .→ok§\
    affine P {N|--N>=0} let .→at 13§\
    affine P {N|+>=0} let .→at 13§\
    affine P {N|N+>=0} let .→at 14§\
    affine P {N|2*3>=0} let .→at 14§\
    affine P {N|2*>=0} let .→at 14§\
    affine P {N|N*2>=0} let .→at 13§\
    affine P {N|2 3>=0} let .→at 14§\
    affine P {N|2N N>=0} let .→at 15§\
    affine P {N|(N)>=0} let .→at 12§\
    affine P {N|N>=max} let .→at 15§\
    affine P {N|N>=N[0]} let .→at 16§\
";

/// Equations, sums, products and signs.
const EQUATIONS: &str = "\
    affine P {|} output X {i,j|}; let X[a,b] = [a-b]; .→ok§\
    affine P {|} let X = 1; .→at 19§\
    affine P {|} let X[1] = 1; .→at 19§\
    affine P {|} let X[i,] = 1; .→at 21§\
    affine P {|} let X[i+1] = 1; .→at 20§\
    affine P {|} let X[] == 1; .→at 21§\
    affine P {|} let X[] = ; .→at 23§\
    affine P {|} let X[] = 1 .→at 25§\
    affine P {|} let int X[] = 1; .→at 17§\
    affine P {|} let esac[] = 1; .→at 17§\
    affine P {|} output X {i|}; let X[i] = 1+2-3*-4 - -5 * i - -i; .→ok§\
    affine P {|} let X[] = +1; .→at 23§\
    affine P {|} let X[] = *1; .→at 23§\
    affine P {|} let X[] = 1 + ; .→at 27§\
    affine P {|} let X[] = 1 - ; .→at 27§\
    affine P {|} let X[] = 1 * ; .→at 27§\
    affine P {|} let X[] = --1; .→at 24§\
    affine P {|} let X[] = -; .→at 24§\
    affine P {|} let X[] = 1 2; .→at 25§\
    affine P {|} let X[] = 2i; .→at 24§\
    affine P {|} let X[] = i (1); .→at 25§\
";

/// Operands.
const OPERANDS: &str = "\
    affine P {|} output X {i|}; let X[i] = -[2*i+1] * [i] + -(i) + ((7)); .→ok§\
    affine P {|} let X[] = []; .→at 24§\
    affine P {|} let X[] = [i,i]; .→at 25§\
    affine P {|} let X[] = [i; .→at 25§\
    affine P {|} input Z {|}; A {i|}; B {i,j|}; output X {i|}; let X[i] = Z[] + A[i-1] - -B[2*i,-i]; .→ok§\
    affine P {|} let X[] = A[i,]; .→at 27§\
    affine P {|} let X[] = A[,i]; .→at 25§\
    affine P {|} let X[] = A[A[i]]; .→at 26§\
    affine P {|} let X[] = A[i; .→at 26§\
    affine P {|} let X[] = (); .→at 24§\
    affine P {|} let X[] = (1; .→at 25§\
    affine P {|} let X[] = (1)); .→at 26§\
    affine P {|} let X[] = input; .→at 23§\
    affine P {|} let X[] = {1}; .→at 24§\
    affine P {|} output X {|}; let X[] = max(1, min(2, and(3, or(4, xor(5, 6))))); .→ok§\
    affine P {|} let X[] = max 1; .→at 27§\
    affine P {|} let X[] = max(); .→at 27§\
    affine P {|} let X[] = min(1); .→at 28§\
    affine P {|} let X[] = and(1, ); .→at 30§\
    affine P {|} let X[] = or(1, 2, 3); .→at 30§\
    affine P {|} let X[] = xor(1 2); .→at 29§\
";

/// Restrictions and cases.
const CASES: &str = "\
    affine P {|} output X {i|}; let X[i] = {|i>=0||i<-1} : 1 + ({|} : 2); .→ok§\
    affine P {|} let X[] = {|} 1; .→at 27§\
    affine P {|} let X[] = {|} : ; .→at 29§\
    affine P {|} let X[] = {|} : {|} : 1; .→at 29§\
    affine P {|} let X[] = {i|} : 1; .→at 24§\
    affine P {|} let X[] = {||} : 1; .→at 24§\
    affine P {|} let X[] = {|: 1; .→at 25§\
    affine P {|} let X[] = 1 + {|} : 1; .→at 27§\
    affine P {|} output X {i|}; let X[i] = case {|i<0} : 1; {|i=0||i>0} : {|} : max({|} : 2, {|} : 3); esac * 4; .→ok§\
    affine P {|} let X[] = case esac; .→at 28§\
    affine P {|} let X[] = case 1; esac; .→at 28§\
    affine P {|} let X[] = case {|} 1; esac; .→at 32§\
    affine P {|} let X[] = case {|} : ; esac; .→at 34§\
    affine P {|} let X[] = case {|} : 1 esac; .→at 36§\
    affine P {|} let X[] = case {|} : 1; ; .→at 37§\
    affine P {|} let X[] = case {|} : 1; {|} : 2; . →at 46§\
    affine P {|} let X[] = case {|} : 1; esac esac; .→at 42§\
";

/// Reductions.
const REDUCTIONS: &str = "\
    affine P {|} input A {i|}; output X {i|}; let X[i] = reduce(+, [k,l], {|0<=k<=l<i} : A[k+l]) - -reduce(*, [], {|} : {|i>0||i<0} : 2); .→ok§\
    affine P {|} output X {|}; let X[] = reduce(max, [k], {|} : reduce(min, [l], {|k=l} : 1)); .→ok§\
    affine P {|} output X {|}; let X[] = reduce(and, [k], {|} : 1) + reduce(or, [k], {|} : 1) + reduce(xor, [k], {|} : 1); .→ok§\
    affine P {|} let X[] = reduce [+]; .→at 30§\
    affine P {|} let X[] = reduce(-, [k], {|} : 1); .→at 30§\
    affine P {|} let X[] = reduce(sum, [k], {|} : 1); .→at 30§\
    affine P {|} let X[] = reduce(+ [k], {|} : 1); .→at 32§\
    affine P {|} let X[] = reduce(+, k, {|} : 1); .→at 33§\
    affine P {|} let X[] = reduce(+, [k+1], {|} : 1); .→at 35§\
    affine P {|} let X[] = reduce(+, [k,], {|} : 1); .→at 36§\
    affine P {|} let X[] = reduce(+, [k] {|} : 1); .→at 37§\
    affine P {|} let X[] = reduce(+, [k], 1); .→at 38§\
    affine P {|} let X[] = reduce(+, [k], {k|0<=k} : 1); .→at 39§\
    affine P {|} let X[] = reduce(+, [k], {|0<=k||k<0} : 1); .→at 44§\
    affine P {|} let X[] = reduce(+, [k], {|} 1); .→at 42§\
    affine P {|} let X[] = reduce(+, [k], {|} : ); .→at 44§\
    affine P {|} let X[] = reduce(+, [k], {|} : 1; .→at 45§\
";

/// Names: which are reserved, and which scope they come from.
const NAMES: &str = "\
    affine P {i0|} let .→Reserved 0§\
    affine P {N,i12|} let .→Reserved 0§\
    affine i0 {i,ix,i0a,I0,i_0|} input j0 {i1,i2|}; output I1 {i0|}; let I1[i7] = reduce(+, [i8], {|} : [i7+i8]); .→ok§\
    affine P {|} input i007 {|}; let .→Reserved 1§\
    affine P {|} input A {|}; output i1 {|}; let .→Reserved 2§\
    affine P {N,M,N|} let .→TwiceName 0§\
    affine P {|} input A {|}; B {|}; output A {|}; let .→TwiceName 3§\
    affine P {|} input A {i,j,i|}; let .→TwiceName 1§\
    affine P {N|} input A {N|}; let .→TwiceName 1§\
    affine P {N|} input N {i|}; P {N_|}; output X {X|}; let X[X] = N + N[X]; .→ok§\
    affine P {|} output X {i,j|}; let X[k,k] = 1; .→TwiceName 2§\
    affine P {N|} output X {i|}; let X[N] = 1; .→TwiceName 2§\
    affine P {|} output X {i|}; let X[i] = reduce(+, [i], {|} : 1); .→TwiceName 2§\
    affine P {N|} output X {i|}; let X[i] = 1 + reduce(+, [k,N], {|} : 1); .→TwiceName 2§\
    affine P {|} output X {|}; let X[] = reduce(+, [k,k], {|} : 1); .→TwiceName 2§\
    affine P {|} output X {|}; let X[] = reduce(+, [k], {|} : reduce(+, [k], {|} : 1)); .→TwiceName 2§\
    affine P {|} output X {|}; let X[] = reduce(+, [k], {|} : 1) * reduce(+, [k], {|} : k); .→ok§\
    affine P {N|N>=M} let .→UnknownName 0§\
    affine P {N|0*M>=0} let .→UnknownName 0§\
    affine P {|} input A {i|0<=i<N}; let .→UnknownName 1§\
    affine P {|} input A {i|}; B {j|i=0}; let .→UnknownName 2§\
    affine P {|} output X {i|}; let X[j] = [i]; .→UnknownName 2§\
    affine P {|} output X {i|}; let X[i] = j; .→UnknownName 2§\
    affine P {|} output X {i|}; let X[i] = [j-j]; .→UnknownName 2§\
    affine P {|} input A {|}; output X {|}; let X[] = A; .→UnknownName 3§\
    affine P {|} output X {|}; let X[] = A[]; .→UnknownName 2§\
    affine P {|} output X {i|}; let X[i] = X[k]; .→UnknownName 2§\
    affine P {|} let X[] = 1; .→UnknownName 1§\
    affine P {|} output X {i|}; let X[i] = {|k=0} : 1; .→UnknownName 2§\
    affine P {|} output X {i|}; let X[i] = reduce(+, [k], {|k=l} : 1); .→UnknownName 2§\
    affine P {|} output X {i|}; let X[i] = reduce(+, [k], {|} : 1) + k; .→UnknownName 2§\
";

/// Constants and entries at the edges of their ranges.
const NUMBERS: &str = "\
    affine P {|} output X {|}; let X[] = 9223372036854775807; .→ok§\
    affine P {|} output X {|}; let X[] = 9223372036854775808; .→Literal 2§\
    affine P {|} output X {|}; let X[] = -9223372036854775808; .→ok§\
    affine P {|} output X {|}; let X[] = - 9223372036854775809; .→Literal 2§\
    affine P {|} output X {|}; let X[] = -(9223372036854775808); .→Literal 2§\
    affine P {|} output X {|}; let X[] = 1 -9223372036854775808; .→Literal 2§\
    affine P {|} output X {|}; let X[] = 1 - -9223372036854775808; .→ok§\
    affine P {|} output X {|}; let X[] = 170141183460469231731687303715884105727; .→Literal 2§\
    affine P {|} output X {|}; let X[] = {|} : reduce(+, [], {|} : max(1, 9223372036854775808)); .→Literal 2§\
    affine P {N|N<=1152921504606846975} let .→ok§\
    affine P {N|N<=1152921504606846976} let .→Entry 0§\
    affine P {N|N>=1152921504606846975} let .→ok§\
    affine P {N|N>1152921504606846975} let .→Entry 0§\
    affine P {N|N<1152921504606846976} let .→ok§\
    affine P {N|N==1152921504606846976} let .→Entry 0§\
    affine P {N|1152921504606846975*N>=0} let .→ok§\
    affine P {N|1152921504606846975*N>=-N} let .→Entry 0§\
    affine P {N|-1152921504606846976*N>=0} let .→Entry 0§\
    affine P {N|1152921504606846976*N>=N} let .→ok§\
    affine P {N|0<=170141183460469231731687303715884105727} let .→Entry 0§\
    affine P {|} input A {i|i=0||i=1152921504606846976}; let .→Entry 1§\
    affine P {|} output X {i|}; let X[i] = [2000000000000000000*i - 2000000000000000000*i]; .→ok§\
    affine P {|} output X {i|}; let X[i] = [170141183460469231731687303715884105727*i + 170141183460469231731687303715884105727i - 170141183460469231731687303715884105727*i - 170141183460469231731687303715884105727*i]; .→ok§\
    affine P {|} output X {i|}; let X[i] = [1152921504606846975*i+1152921504606846975]; .→ok§\
    affine P {|} output X {i|}; let X[i] = [1152921504606846975*i+i]; .→Entry 2§\
    affine P {|} output X {i|}; let X[i] = X[i-1152921504606846976]; .→Entry 2§\
    affine P {|} output X {i|}; let X[i] = {|i>-1152921504606846976} : 1152921504606846976; .→ok§\
    affine P {|} output X {i|}; let X[i] = {|i>=-1152921504606846976} : 1; .→Entry 2§\
    affine P {|} output X {|}; let X[] = reduce(+, [k], {|k=1152921504606846976} : 1); .→Entry 2§\
";

/// Numbers of indices and of equations.
const COUNTS: &str = "\
    affine P {|} input A {i|}; output X {|}; let X[] = A[]; .→Arity 3§\
    affine P {|} input A {i|}; output X {i|}; let X[i] = 1 + A[i,i]; .→Arity 3§\
    affine P {|} output X {i|}; let X[] = 1; .→Arity 2§\
    affine P {|} output X {i|}; let X[i,j] = 1; .→Arity 2§\
    affine P {|} input A {|}; let A[] = 1; .→InputEquation 2§\
    affine P {|} input A {|}; output X {|}; let X[] = 1; A[] = 1; .→InputEquation 4§\
    affine P {|} output X {|}; let X[] = 1; X[] = 1; .→TwoEquations 3§\
    affine P {|} output X {|}; local Y {|}; let Y[] = 1; X[] = 2; Y[] = 3; .→TwoEquations 5§\
    affine P {|} output X {|}; let .→NoEquation 1§\
    affine P {|} input A {|}; local Y {|}; let .→NoEquation 2§\
    affine P {|} input A {|}; output X {|}; Y {|}; local Z {|}; let Z[] = 1; X[] = 1; .→NoEquation 3§\
    affine P {|} input A {|}; output X {|}; local Y {|}; Z {|}; let X[] = 1; .→NoEquation 3§\
";

/// Of several shapes the one at the first item, and of that item the first kind.
const ORDER: &str = "\
    affine P {i0,i0|M>=2000000000000000000} let .→Reserved 0§\
    affine P {N,N|M>=2000000000000000000} let .→TwiceName 0§\
    affine P {N|M>=2000000000000000000} let .→UnknownName 0§\
    affine P {N|N>=2000000000000000000} input i0 {|}; let .→Entry 0§\
    affine P {|} input A {|}; i0 {|}; B {|}; i0 {j,j|}; let .→Reserved 2§\
    affine P {|} input A {|}; A {i|j=0}; let .→TwiceName 2§\
    affine P {|} input A {i,i|j=0}; let .→TwiceName 1§\
    affine P {|} input A {i|i=2000000000000000000&&j=0}; A {|}; let .→UnknownName 1§\
    affine P {|} input A {i|i=2000000000000000000}; A {|}; let .→Entry 1§\
    affine P {|} output X {|}; local X {|}; let X[i,i] = j; .→TwiceName 2§\
    affine P {|} output X {|}; let X[i,i] = j; .→TwiceName 2§\
    affine P {|} output X {|}; let X[i] = 9223372036854775808 + j; .→UnknownName 2§\
    affine P {|} output X {|}; let X[i] = [2000000000000000000] + 9223372036854775808; .→Literal 2§\
    affine P {|} output X {|}; let X[i] = [2000000000000000000]; .→Entry 2§\
    affine P {|} input A {|}; let A[i] = 1; .→Arity 2§\
    affine P {|} input A {|}; let A[] = 1; A[] = 1; .→InputEquation 2§\
    affine P {|} output X {|}; let X[] = 1; X[i] = 1; .→Arity 3§\
    affine P {|} output X {|}; Y {|}; let X[] = 1; X[] = Z[]; .→UnknownName 4§\
    affine P {|} output X {|}; Y {|}; let Y[i] = 1; Y[j,j] = 1; .→Arity 3§\
    affine P {|} output X {|}; Y {|}; let Y[] = 1; Y[] = 1; .→TwoEquations 4§\
    affine P {|} output X {|}; Y {|}; let Y[] = j; .→UnknownName 3§\
";

/// Limits, each with a text that just keeps it.
const LIMITS: &str = "\
    affine P {a,b,c,d,e,f,g,h|} let .→ok§\
    affine P {a,b,c,d,e,f,g,h,j|} let .→Names§\
    affine P {|} input A {a,b,c,d,e,f,g,h|}; let .→ok§\
    affine P {|} input A {a,b,c,d,e,f,g,h,j|}; let .→Columns§\
    affine P {a,b,c,d,e,f,g,h|} output X {j,k,l,m,n,o,p,q|}; let X[j,k,l,m,n,o,p,q] = reduce(+, [r,s,t,u,v,w,x,y], {|} : y); .→ok§\
    affine P {|} output X {j,k,l,m,n,o,p,q|}; let X[j,k,l,m,n,o,p,q] = reduce(+, [r,s,t,u,v,w,x,y,z], {|} : 1); .→Columns§\
    affine P {|} output X {a|}; let X[a] = reduce(+, [b,c,d,e,f,g,h], {|} : reduce(+, [i,j,k,l,m,n,o,p], {|} : 1) + reduce(+, [i,j,k,l,m,n,o,p], {|} : 1)); .→ok§\
    affine P {|} output X {a|}; let X[a] = reduce(+, [b,c,d,e,f,g,h], {|} : reduce(+, [i,j,k,l,m,n,o,p,q], {|} : 1)); .→Columns§\
    affine P {|} output X {|}; let X[a,b,c,d,e,f,g,h,i,j,k,l,m,n,o,p] = 1; .→Arity 2§\
    affine P {|} output X {|}; let X[a,b,c,d,e,f,g,h,i,j,k,l,m,n,o,p,q] = 1; .→Columns§\
    affine P {|} input A {i|i=0||i=1||i=2||i=3||i=4||i=5||i=6||i=7}; let .→ok§\
    affine P {|} input A {i|i=0||i=1||i=2||i=3||i=4||i=5||i=6||i=7||i=8}; let .→Disjuncts§\
    affine P {|} input A {| || || || || || || || }; let .→ok§\
    affine P {|} input A {| || || || || || || || || }; let .→Disjuncts§\
    affine P {|} output X {|}; let X[] = {| || || || || || || || } : 1; .→ok§\
    affine P {|} output X {|}; let X[] = {| || || || || || || || || } : 1; .→Disjuncts§\
    affine P {|} output X {|}; let X[] = reduce(+, [], {|} : case {|} : 1; {| || || || || || || || || } : 2; esac); .→Disjuncts§\
    affine P {a,b,c,d,e,f,g,h,a|} input A {a,b,c,d,e,f,g,h,j|}; let .→Names§\
    affine P {|} input A {a,b,c,d,e,f,g,h,j| || || || || || || || || }; let .→Columns§\
    affine P {i0|} input A {| || || || || || || || || }; let .→Disjuncts§\
    affine P {a,b,c,d,e,f,g,h,j|} input let .→at 36§\
    affine P {i0,i0|} input A {| || || || || || || || || }; let X[] = 1 .→at 68§\
    affine P {a,b,c,d,e,f,g,h,j|} ? input let .→byte 30§\
";

const TABLES: [&str; 14] = [
    PROGRAMS,
    TOKENS,
    DECLARATIONS,
    PARAMETERS,
    SIDES,
    EQUATIONS,
    OPERANDS,
    CASES,
    REDUCTIONS,
    NAMES,
    NUMBERS,
    COUNTS,
    ORDER,
    LIMITS,
];

fn answer(alloc: Global, text: &str) -> Result<String, AllocError> {
    match read_program(alloc, text.as_bytes()) {
        Ok(_) => String::from_str(alloc, "ok"),
        Err(ReadFault::Lex(LexFault::BadByte(place))) => format!(in alloc; "byte {place}"),
        Err(ReadFault::Lex(LexFault::WideNumber(place))) => format!(in alloc; "wide {place}"),
        Err(ReadFault::Syntax(place)) => format!(in alloc; "at {place}"),
        Err(ReadFault::Limit(limit)) => format!(in alloc; "{limit:?}"),
        Err(ReadFault::Shape { kind, item }) => format!(in alloc; "{kind:?} {item}"),
        Err(_) => String::from_str(alloc, "memory"),
    }
}

#[test]
fn answers_texts(rt: HostRuntime) -> Result<(), Fail> {
    let mut count = 0u32;
    for table in &TABLES {
        for case in table.split('§') {
            let Some((text, want)) = case.split_once('→') else {
                break;
            };
            let got = answer(rt.alloc(), text)?;
            assert_eq!(rt; got.as_str(), want, "in {text}");
            count = count.wrapping_add(1);
        }
    }
    assert_eq!(rt; count, 273);
    Ok(())
}

/// A text of pieces, each so many times.
struct Long {
    pieces: &'static [(&'static str, u32)],
    want: &'static str,
}

const HEAD: &str = "affine P {|} output X {|}; let X[] = ";

const LONG: [Long; 20] = [
    // 512 nodes, and then 513
    Long {
        pieces: &[(HEAD, 1), ("-(1)", 1), ("+1", 255), ("; .", 1)],
        want: "ok",
    },
    Long {
        pieces: &[(HEAD, 1), ("1", 1), ("+1", 256), ("; .", 1)],
        want: "Size",
    },
    Long {
        pieces: &[(HEAD, 1), ("max(", 255), ("1", 1), (",1)", 255), ("; .", 1)],
        want: "ok",
    },
    Long {
        pieces: &[(HEAD, 1), ("max(", 256), ("1", 1), (",1)", 256), ("; .", 1)],
        want: "Size",
    },
    Long {
        pieces: &[(HEAD, 1), ("case ", 1), ("{|} : 1; ", 511), ("esac; .", 1)],
        want: "ok",
    },
    Long {
        pieces: &[(HEAD, 1), ("case ", 1), ("{|} : 1; ", 512), ("esac; .", 1)],
        want: "Size",
    },
    Long {
        pieces: &[
            (HEAD, 1),
            ("({|} : ", 511),
            ("1", 1),
            (")", 511),
            ("; .", 1),
        ],
        want: "ok",
    },
    // they are too many at the semicolon: what stands before it is met first
    Long {
        pieces: &[(HEAD, 1), ("1", 1), ("+1", 256), (") ; .", 1)],
        want: "at 550",
    },
    Long {
        pieces: &[(HEAD, 1), ("1", 1), ("+1", 256)],
        want: "at 550",
    },
    Long {
        pieces: &[(HEAD, 1), ("1", 1), ("+1", 256), ("; )", 1)],
        want: "Size",
    },
    // 1,024 nodes and parentheses together, and then one more
    Long {
        pieces: &[(HEAD, 1), ("(", 1024)],
        want: "at 1061",
    },
    Long {
        pieces: &[(HEAD, 1), ("(", 1024), ("+", 1)],
        want: "at 1061",
    },
    Long {
        pieces: &[(HEAD, 1), ("(", 1024), ("1 )", 1)],
        want: "Size",
    },
    Long {
        pieces: &[(HEAD, 1), ("(", 1025)],
        want: "Size",
    },
    Long {
        pieces: &[(HEAD, 1), ("(", 1024), ("1 ?", 1)],
        want: "byte 1063",
    },
    Long {
        pieces: &[(HEAD, 1), ("1", 1), ("+1", 511), ("+", 1), (")", 1)],
        want: "at 1061",
    },
    Long {
        pieces: &[(HEAD, 1), ("1", 1), ("+1", 512), (")", 1)],
        want: "Size",
    },
    // each equation has its own count
    Long {
        pieces: &[
            ("affine P {|} output X {|}; Y {|}; let X[] = -1", 1),
            ("+1", 255),
            ("; Y[] = 1", 1),
            ("+1", 255),
            ("; .", 1),
        ],
        want: "ok",
    },
    // Size is met while the text is read, and so before the other limits
    Long {
        pieces: &[
            ("affine P {a,b,c,d,e,f,g,h,j|} let X[] = 1", 1),
            ("+1", 256),
            ("; .", 1),
        ],
        want: "Size",
    },
    Long {
        pieces: &[
            ("affine P {a,b,c,d,e,f,g,h,j|} let X[] = 1", 1),
            ("+1", 255),
            ("; .", 1),
        ],
        want: "Names",
    },
];

/// The pieces, one after another.
fn repeated(alloc: Global, pieces: &[(&str, u32)]) -> Result<String, AllocError> {
    let mut text = String::new(alloc);
    for (piece, times) in pieces {
        for _ in 0..*times {
            text.push_str(piece)?;
        }
    }
    Ok(text)
}

#[test]
fn answers_long_texts(rt: HostRuntime) -> Result<(), Fail> {
    for case in &LONG {
        let text = repeated(rt.alloc(), case.pieces)?;
        let got = answer(rt.alloc(), text.as_str())?;
        assert_eq!(rt; got.as_str(), case.want, "in {text}");
    }
    Ok(())
}

/// A program with so many inputs of different names, and then the rest of the text.
fn with_inputs(alloc: Global, count: u32, rest: &str) -> Result<String, AllocError> {
    let mut text = String::from_str(alloc, "affine P {|} input ")?;
    for number in 0..count {
        write!(text, "v{number}")?;
        text.push_str(" {|}; ")?;
    }
    text.push_str(rest)?;
    Ok(text)
}

#[test]
fn counts_variables(rt: HostRuntime) -> Result<(), Fail> {
    let alloc = rt.alloc();
    let most = with_inputs(alloc, 256, "let .")?;
    assert_eq!(rt; answer(alloc, most.as_str())?.as_str(), "ok");
    let more = with_inputs(alloc, 257, "let .")?;
    assert_eq!(rt; answer(alloc, more.as_str())?.as_str(), "Names");
    let most = with_inputs(alloc, 254, "output X {|}; local Y {|}; let Y[] = 1; .")?;
    assert_eq!(rt; answer(alloc, most.as_str())?.as_str(), "NoEquation 255");
    let more = with_inputs(alloc, 255, "output X {|}; local Y {|}; let Y[] = 1; .")?;
    assert_eq!(rt; answer(alloc, more.as_str())?.as_str(), "Names");
    Ok(())
}

#[test]
fn reads_nested_parentheses(rt: HostRuntime) -> Result<(), Fail> {
    let alloc = rt.alloc();
    let deep = repeated(
        alloc,
        &[(HEAD, 1), ("(", 1023), ("1", 1), (")", 1023), ("; .", 1)],
    )?;
    assert_eq!(rt; answer(alloc, deep.as_str())?.as_str(), "ok");
    let deeper = repeated(
        alloc,
        &[(HEAD, 1), ("(", 1024), ("1", 1), (")", 1024), ("; .", 1)],
    )?;
    assert_eq!(rt; answer(alloc, deeper.as_str())?.as_str(), "Size");
    Ok(())
}
