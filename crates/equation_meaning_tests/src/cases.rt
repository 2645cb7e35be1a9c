//! Programs and what their evaluation answers: what the program is for, an arrow, its text, an arrow, its
//! parameters, an arrow, the numbers of its inputs one after another, an arrow, and the answer.
//!
//! All values were found by hand.

/// Prefix sums over a table.
pub(crate) const PREFIXES: &str = "\
    three numbers→affine Prefix {N | N>=0} input int A {i | 0<=i<N}; output int S {i | 0<=i<N}; let S[i] = case {| i=0} : A[i]; {| i>0} : S[i-1] + A[i]; esac; .→3→1 2 3→S 0=1 1=3 2=6;§\
    one number→affine Prefix {N | N>=0} input int A {i | 0<=i<N}; output int S {i | 0<=i<N}; let S[i] = case {| i=0} : A[i]; {| i>0} : S[i-1] + A[i]; esac; .→1→1→S 0=1;§\
    no numbers→affine Prefix {N | N>=0} input int A {i | 0<=i<N}; output int S {i | 0<=i<N}; let S[i] = case {| i=0} : A[i]; {| i>0} : S[i-1] + A[i]; esac; .→0→→S;§\
    a parameter outside its domain→affine Prefix {N | N>=0} input int A {i | 0<=i<N}; output int S {i | 0<=i<N}; let S[i] = case {| i=0} : A[i]; {| i>0} : S[i-1] + A[i]; esac; .→-1→→Params§\
    the sum wraps→affine Prefix {N | N>=0} input int A {i | 0<=i<N}; output int S {i | 0<=i<N}; let S[i] = case {| i=0} : A[i]; {| i>0} : S[i-1] + A[i]; esac; .→2→9223372036854775807 1→S 0=9223372036854775807 1=-9223372036854775808;§\
";

/// Programs that users know.
pub(crate) const OTHERS: &str = "\
    the greatest of no numbers is the least word→affine Nest {|} output Y {i | 0<=i<=3}; let Y[i] = case {| i<=1} : 1; {| i>=2} : 2; esac + reduce(max, [k], {| 1<=k<=i} : [k]); .→→→Y 0=-9223372036854775807 1=2 2=4 3=5;§\
    a stencil→affine Stencil {T,W | T>=1 && W>=3} input A {i | 0<=i<W}; output Y {i | 0<=i<W}; local X {t,i | 0<=t<=T && 0<=i<W}; let X[t,i] = case {| t=0} : A[i]; {| t>=1 && i=0} : X[t-1,i]; {| t>=1 && i=W-1} : X[t-1,i]; {| t>=1 && 1<=i<=W-2} : X[t-1,i-1] + X[t-1,i] + X[t-1,i+1]; esac; Y[i] = X[T,i]; .→1 8→0 0 0 1 0 0 0 0→Y 0=0 1=0 2=1 3=1 4=1 5=0 6=0 7=0;X 0,0=0 0,1=0 0,2=0 0,3=1 0,4=0 0,5=0 0,6=0 0,7=0 1,0=0 1,1=0 1,2=1 1,3=1 1,4=1 1,5=0 1,6=0 1,7=0;§\
    a stencil, once more→affine Stencil {T,W | T>=1 && W>=3} input A {i | 0<=i<W}; output Y {i | 0<=i<W}; Z {|}; let Y[i] = case {| i=0} : A[i]; {| i=W-1} : A[i]; {| 1<=i<=W-2} : A[i-1] + A[i] + A[i+1]; esac; Z[] = [T]; .→4 3→1 10 100→Y 0=1 1=111 2=100;Z =4;§\
    a stencil and the sum of its last row→affine Made {T,W | T>=1 && W>=3} input A {i | 0<=i<W}; output Z {|}; local X {t,i | 0<=t<=T && 0<=i<W}; let X[t,i] = case {| t=0} : A[i]; {| t>=1 && i=0} : X[t-1,i]; {| t>=1 && i=W-1} : X[t-1,i]; {| t>=1 && 1<=i<=W-2} : X[t-1,i-1] + X[t-1,i] + X[t-1,i+1]; esac; Z[] = reduce(+, [k], {| 0<=k<W} : X[T,k]); .→1 4→-49 -39 -15 23→Z =-160;X 0,0=-49 0,1=-39 0,2=-15 0,3=23 1,0=-49 1,1=-103 1,2=-31 1,3=23;§\
    a local between an input and an output→affine Pair {N | N>=1} input A {i | 0<=i<N}; output Y {i | 0<=i<N}; local X {i | 0<=i<N}; let Y[i] = X[i] + 1; X[i] = A[i]; .→2→5 7→Y 0=6 1=8;X 0=5 1=7;§\
    a local between an input and an output, once more→affine Pair {N | N>=1} input A {i | 0<=i<N}; output Y {i | 0<=i<N}; local X {i | 0<=i<N}; let Y[i] = X[i] + 1; X[i] = A[i]; .→3→5 7 9→Y 0=6 1=8 2=10;X 0=5 1=7 2=9;§\
    a table from its end→affine Flip {N | N>=1} input A {i | 0<=i<N}; output Y {i | 0<=i<N}; local X {i | 0<=i<N}; let Y[i] = X[i]; X[i] = A[N-1-i]; .→3→5 7 9→Y 0=9 1=7 2=5;X 0=9 1=7 2=5;§\
    prefix sums by reductions→affine Sums {N | N>=1} input A {i | 1<=i<=N}; output S {i | 1<=i<=N}; let S[i] = reduce(+, [k], {| 1<=k<=i} : A[k]); .→4→3 -1 4 10→S 1=3 2=2 3=6 4=16;§\
    the greatest of three→affine Win {N | N>=4} input A {i | 0<=i<N}; output M {i | 0<=i<=N-3}; let M[i] = reduce(max, [k], {| i<=k<=i+2} : A[k]); .→5→3 1 4 1 5→M 0=4 1=4 2=5;§\
    powers of two→affine Neg {|} output R {i | -3<=i<=2}; let R[i] = case {| i=-3} : 1; {| i>-3} : R[i-1]*2; esac; .→→→R -3=1 -2=2 -1=4 0=8 1=16 2=32;§\
    an index expression→affine Ramp {|} output X {i | 0<=i<=3}; let X[i] = [2*i+1]; .→→→X 0=1 1=3 2=5 3=7;§\
";

/// Programs without reductions.
pub(crate) const RECURRENCES: &str = "\
    each number is the sum of the two before it→affine Fib {|} output F {i | 0<=i<=7}; let F[i] = case {| i<=1} : 1; {| i>=2} : F[i-1] + F[i-2]; esac; .→→→F 0=1 1=1 2=2 3=3 4=5 5=8 6=13 7=21;§\
    the numbers of subsets→affine Pascal {|} output P {i,j | 0<=i<=4 && 0<=j<=i}; let P[i,j] = case {| j=0} : 1; {| i=j && j>=1} : 1; {| 1<=j<=i-1} : P[i-1,j-1] + P[i-1,j]; esac; .→→→P 0,0=1 1,0=1 1,1=1 2,0=1 2,1=2 2,2=1 3,0=1 3,1=3 3,2=3 3,3=1 4,0=1 4,1=4 4,2=6 4,3=4 4,4=1;§\
    from the far end→affine Count {N | N>=0} output S {i | 0<=i<=N}; let S[i] = case {| i=N} : 0; {| i<N} : S[i+1] + 1; esac; .→4→→S 0=4 1=3 2=2 3=1 4=0;§\
    a domain of two disjuncts that share a point→affine Two {|} output X {i | 0<=i<=2 || 2<=i<=3 || 6<=i<=7}; let X[i] = case {| i<=0 || i>=6} : 1; {| 1<=i<=5} : [i]; esac; .→→→X 0=1 1=1 2=2 3=3 6=1 7=1;§\
    two variables that read each other→affine Turn {|} output E {i | 0<=i<=5}; local O {i | 0<=i<=5}; let E[i] = case {| i=0} : 1; {| i>=1} : O[i-1]; esac; O[i] = case {| i=0} : 0; {| i>=1} : E[i-1]; esac; .→→→E 0=1 1=0 2=1 3=0 4=1 5=0;O 0=0 1=1 2=0 3=1 4=0 5=1;§\
    a front that goes over a square from two sides→affine Front {|} output X {i,j | 0<=i<=2 && 0<=j<=2}; let X[i,j] = case {| i=0} : 1; {| i>=1 && j=0} : 1; {| i>=1 && j>=1} : X[i-1,j] + X[i,j-1]; esac; .→→→X 0,0=1 0,1=1 0,2=1 1,0=1 1,1=2 1,2=3 2,0=1 2,1=3 2,2=6;§\
    Words wrap in products, negations and index expressions→affine Wrap {|} output X {i | 15<=i<=16}; Y {i | 15<=i<=16}; Z {i | 15<=i<=16}; let X[i] = [576460752303423487*i+576460752303423487]; Y[i] = -X[i]; Z[i] = X[i] * 4; .→→→X 15=9223372036854775792 16=-8646911284551352337;Y 15=-9223372036854775792 16=8646911284551352337;Z 15=-64 16=2305843009213693884;§\
    the order of operands→affine Order {|} input A {i | 0<=i<=1}; output X {|}; Y {|}; let X[] = A[0] - A[1]; Y[] = (A[0] - A[1]) - (A[1] - A[0]); .→→10 3→X =7;Y =14;§\
    an index that isn't a parameter's neighbour, and a scalar→affine Scalars {N | N>=0} input A {|}; output X {i | 0<=i<=2}; local Y {|}; let X[i] = Y[] * [N-i]; Y[] = A[] + 1; .→5→1→X 0=10 1=8 2=6;Y =2;§\
    the greater and the lesser of two→affine Both {|} input A {i | 0<=i<=1}; output X {|}; Y {|}; let X[] = max(A[0], A[1]); Y[] = min(A[0], A[1]); .→→-4 3→X =3;Y =-4;§\
    each local reads the next one→affine Stairs {|} output A {|}; local B {|}; C {|}; D {|}; let A[] = B[] + 1; B[] = C[] * 2; C[] = D[] - 3; D[] = 10; .→→→A =15;B =14;C =7;D =10;§\
    thin: points far apart in a box→affine Thin {|} output X {i,j | 0<=i<=3 && j=100*i}; let X[i,j] = case {| i=0} : 7; {| i>=1} : X[i-1,j-100] + 1; esac; .→→→X 0,0=7 1,100=8 2,200=9 3,300=10;§\
    factors at the bound of small ones and beyond it, at the last coordinates→affine Bound {|} output X {i | 1099511627774<=i<=1099511627775}; Y {i | 1099511627774<=i<=1099511627775}; Z {i | 1099511627774<=i<=1099511627775}; let X[i] = [65535*i-1]; Y[i] = [65536*i+1]; Z[i] = [-65536*i]; .→→→X 1099511627774=72056494526169089 1099511627775=72056494526234624;Y 1099511627774=72057594037796865 1099511627775=72057594037862401;Z 1099511627774=-72057594037796864 1099511627775=-72057594037862400;§\
    a large factor in a condition→affine Step {|} output X {i | 0<=i<=3}; let X[i] = case {| 65536*i<=65536} : 1; {| 65536*i>=65537} : 2; esac; .→→→X 0=1 1=1 2=2 3=2;§\
    a large factor in an access→affine Thin {|} output X {i,j | 0<=i<=3 && j=65536*i}; let X[i,j] = case {| i=0} : 7; {| i>=1} : X[i-1,65536*i-65536] + 1; esac; .→→→X 0,0=7 1,65536=8 2,131072=9 3,196608=10;§\
";

/// Programs with reductions.
pub(crate) const REDUCTIONS: &str = "\
    a product of matrices→affine Product {N | N>=1} input A {i,j | 0<=i<N && 0<=j<N}; B {i,j | 0<=i<N && 0<=j<N}; output C {i,j | 0<=i<N && 0<=j<N}; let C[i,j] = reduce(+, [k], {| 0<=k<N} : A[i,k] * B[k,j]); .→2→1 2 3 4 5 6 7 8→C 0,0=19 0,1=22 1,0=43 1,1=50;§\
    the identities of the operators→affine Empty {|} output A {|}; B {|}; C {|}; D {|}; E {|}; F {|}; G {|}; let A[] = reduce(+, [k], {| 1<=k<=0} : 5); B[] = reduce(*, [k], {| 1<=k<=0} : 5); C[] = reduce(and, [k], {| 1<=k<=0} : 5); D[] = reduce(or, [k], {| 1<=k<=0} : 5); E[] = reduce(xor, [k], {| 1<=k<=0} : 5); F[] = reduce(max, [k], {| 1<=k<=0} : 5); G[] = reduce(min, [k], {| 1<=k<=0} : 5); .→→→A =0;B =1;C =-1;D =0;E =0;F =-9223372036854775808;G =9223372036854775807;§\
    the same operators over 6, 3 and 12→affine Folds {|} input A {i | 0<=i<=2}; output B {|}; C {|}; D {|}; E {|}; F {|}; G {|}; let B[] = reduce(*, [k], {| 0<=k<=2} : A[k]); C[] = reduce(and, [k], {| 1<=k<=2} : A[k] - 1); D[] = reduce(or, [k], {| 0<=k<=2} : A[k]); E[] = reduce(xor, [k], {| 0<=k<=2} : A[k]); F[] = reduce(max, [k], {| 0<=k<=2} : A[k]); G[] = reduce(min, [k], {| 0<=k<=2} : A[k]); .→→6 3 12→B =216;C =2;D =15;E =9;F =12;G =3;§\
    a reduction in a reduction: for each j up to i the greatest k + j, which is 2j→affine Nested {|} output X {i | 0<=i<=4}; let X[i] = reduce(+, [j], {| 0<=j<=i} : reduce(max, [k], {| 0<=k<=j} : [k+j])); .→→→X 0=0 1=2 2=6 3=12 4=20;§\
    a reduction that reads later points of its own variable→affine Later {|} output S {i | 0<=i<=4}; let S[i] = 1 + reduce(+, [k], {| i+1<=k<=4} : S[k]); .→→→S 0=16 1=8 2=4 3=2 4=1;§\
    a case in a reduction chooses at each point of the body→affine Choice {|} output X {i | 0<=i<=3}; let X[i] = reduce(+, [k], {| 0<=k<=3} : case {| k<=i} : 1; {| k>=i+1} : 100; esac); .→→→X 0=301 1=202 2=103 3=4;§\
";

/// Programs whose values depend on themselves, and one whose values don't. The chain of a cycle begins
/// with the point that is met again; a variable stands by its number.
pub(crate) const CYCLES: &str = "\
    a point that reads itself→affine Loop {|} output S {i | 0<=i<=1}; let S[i] = S[i]; .→→→Cycle 0[0]§\
    through two variables→affine Two {|} output A {i | 0<=i<=1}; local B {i | 0<=i<=1}; let A[i] = B[i]; B[i] = A[i] + 1; .→→→Cycle 0[0] 1[0]§\
    through a reduction, at its own point→affine Fold {|} output S {i | 1<=i<=2}; let S[i] = 1 + reduce(+, [k], {| 1<=k<=i} : S[k]); .→→→Cycle 0[1]§\
    through a reduction, at a later point→affine Fold {|} output S {|}; local T {k | 0<=k<=2}; let S[] = reduce(+, [k], {| 0<=k<=2} : T[k]); T[k] = case {| k<=1} : 1; {| k=2} : S[]; esac; .→→→Cycle 0[] 1[2]§\
    through a branch that holds at one point alone; the way to it is no part of the cycle→affine Branch {|} output S {i | 0<=i<=5}; let S[i] = case {| i<=3} : S[i+1]; {| i=4} : S[3]; {| i>=5} : 1; esac; .→→→Cycle 0[3] 0[4]§\
    a read that isn't taken closes nothing→affine Spared {|} output S {i | 0<=i<=2}; let S[i] = case {| i<=2} : [i]; {| i>=3} : S[i]; esac; .→→→S 0=0 1=1 2=2;§\
    a cycle in a local that no output needs→affine Aside {|} output A {|}; local B {|}; C {|}; let A[] = 1; B[] = C[]; C[] = B[]; .→→→Cycle 1[] 2[]§\
    the left operand is evaluated first→affine Left {|} output A {|}; local B {|}; C {|}; let A[] = B[] + C[]; B[] = A[]; C[] = A[]; .→→→Cycle 0[] 1[]§\
    a chain that is closed at its end→affine Chain {|} output Z {|}; local S {i | 0<=i<=1}; let Z[] = S[0]; S[i] = case {| i=1} : Z[]; {| i<=0} : S[i+1] + 1; esac; .→→→Cycle 0[] 1[0] 1[1]§\
";

/// The limits on boxes and on points, at the limit and one beyond it.
pub(crate) const LIMITS: &str = "\
    2,049 points in a box of 4,198,401→affine Big {|} output X {i,j | 0<=i<=2048 && j=i}; let X[i,j] = 1; .→→→Box§\
    one point more than a box may have→affine Line {|} output X {i | 0<=i<=4194304}; let X[i] = [i]; .→→→Box§\
    a box counts where its reduction is evaluated, and else it doesn't→affine Wide {N | N>=0} output X {|}; let X[] = case {| N=0} : 1; {| N>=1} : reduce(+, [i,j], {| 0<=i<=2048 && j=i} : 1); esac; .→1→→Box§\
    a box that isn't asked for→affine Wide {N | N>=0} output X {|}; let X[] = case {| N=0} : 1; {| N>=1} : reduce(+, [i,j], {| 0<=i<=2048 && j=i} : 1); esac; .→0→→X =1;§\
    a branch that isn't taken→affine Branch {N | N>=0} output Z {|}; let Z[] = case {| N=0} : 5; {| N>=1} : reduce(+, [i], {| 0<=i<2049} : reduce(+, [j], {| 0<=j<2048} : 1)); esac; .→0→→Z =5;§\
    a refused box goes before a cycle, also before one in an earlier variable→affine First {|} output S {|}; X {i,j | 0<=i<=2048 && j=i}; let S[] = S[]; X[i,j] = 1; .→→→Box§\
    a coordinate beyond 2^40 - 1→affine Far {|} output X {i | 1099511627776<=i<=1099511627776}; let X[i] = 1; .→→→Coordinate§\
    1 + 2,047 + 2,047 * 2,048 points, which is 2^22→affine Nested {N | N>=0} output Z {i | 0<=i<N}; local Y {|}; let Z[i] = 1; Y[] = reduce(+, [i], {| 0<=i<2047} : reduce(+, [j], {| 0<=j<2048} : 1)); .→0→→Z;Y =4192256;§\
    one point more→affine Nested {N | N>=0} output Z {i | 0<=i<N}; local Y {|}; let Z[i] = 1; Y[] = reduce(+, [i], {| 0<=i<2047} : reduce(+, [j], {| 0<=j<2048} : 1)); .→1→→Points§\
    2,049 + 2,049 * 2,048 body points in a branch that is taken→affine Branch {N | N>=0} output Z {|}; let Z[] = case {| N=0} : 5; {| N>=1} : reduce(+, [i], {| 0<=i<2049} : reduce(+, [j], {| 0<=j<2048} : 1)); esac; .→1→→Points§\
    the limit on points goes before a cycle, also before one in an earlier variable→affine First {|} output S {|}; Y {|}; let S[] = S[]; Y[] = reduce(+, [i], {| 0<=i<2048} : reduce(+, [j], {| 0<=j<2048} : 1)); .→→→Points§\
";
