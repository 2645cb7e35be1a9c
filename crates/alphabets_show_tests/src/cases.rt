//! Programs with the text that is shown of them, found by hand by the table of forms.
//!
//! A program stands before an arrow, and its text behind it.

/// Whole programs.
pub(crate) const PROGRAMS: &str = "\
    affine P {|} let .→affine P {|}\nlet\n.\n§\
    affine P {N|} let .→affine P {N |}\nlet\n.\n§\
    affine P {N,M|N>=1&&M>N} let .→affine P {N,M | N-1>=0 && -N+M-1>=0}\nlet\n.\n§\
    affine P {N|N=3} let .→affine P {N | N-3>=0 && -N+3>=0}\nlet\n.\n§\
    affine Ramp {|} output X {i|0<=i<=3}; let X[i]=[2*i+1]; .→affine Ramp {|}\noutput\n  X {i0 | i0>=0 && -i0+3>=0};\nlet\n  X[i0] = [2*i0+1];\n.\n§\
    affine Flip {N|N>=1} input A {i|0<=i<N}; output Y {i|0<=i<N}; local X {i|0<=i<N}; let Y[i]=X[i]; X[i]=A[i]; .→\
    affine Flip {N | N-1>=0}\ninput\n  A {i0 | i0>=0 && N-i0-1>=0};\noutput\n  Y {i0 | i0>=0 && N-i0-1>=0};\nlocal\n  X {i0 | i0>=0 && N-i0-1>=0};\n\
    let\n  Y[i0] = X[i0];\n  X[i0] = A[i0];\n.\n§\
    affine Two {|} input A {|}; int B {a,b|}; local long X {t,x|x=t}; let X[a,b]=A[]*B[b,a]; .→\
    affine Two {|}\ninput\n  A {|};\n  B {i0,i1 |};\nlocal\n  X {i0,i1 | -i0+i1>=0 && i0-i1>=0};\nlet\n  X[i0,i1] = (A[] * B[i1,i0]);\n.\n§\
";

/// Domains of a variable `A` of one index, under a parameter `N`.
pub(crate) const DOMAINS: &str = "\
    →|§\
    0<=i<N→| i0>=0 && N-i0-1>=0§\
    i<=1||4<=i<=5→| -i0+1>=0 || i0-4>=0 && -i0+5>=0§\
    \x20|| →| || §\
    \x20||i>=0→|  || i0>=0§\
    i>=0|| →| i0>=0 || §\
    i>=0|| ||i<N→| i0>=0 ||  || N-i0-1>=0§\
    1>=0→| 1>=0§\
    0>=1→| -1>=0§\
    0=0→| 0>=0 && 0>=0§\
    i>=1152921504606846975→| i0-1152921504606846975>=0§\
";

/// Bodies of the equation of `X`, of one index, under a parameter `N`.
pub(crate) const BODIES: &str = "\
    5→5§\
    -5→-5§\
    - 0→0§\
    9223372036854775807→9223372036854775807§\
    -9223372036854775808→-9223372036854775808§\
    i→[i0]§\
    [N]→[N]§\
    [0]→[0]§\
    [-7]→[-7]§\
    [N-N]→[0]§\
    [-i]→[-i0]§\
    [i-N]→[-N+i0]§\
    [2*i-3N+7]→[-3*N+2*i0+7]§\
    [N+i-1]→[N+i0-1]§\
    [-2*i-1]→[-2*i0-1]§\
    [-1152921504606846975*i]→[-1152921504606846975*i0]§\
    A[i-1]→A[i0-1]§\
    B[N-i,2*i]→B[N-i0,2*i0]§\
    C[]→C[]§\
    -i→-([i0])§\
    -(5)→-(5)§\
    -A[0]→-(A[0])§\
    1-2-3→((1 - 2) - 3)§\
    1-(2-3)→(1 - (2 - 3))§\
    1+2*3→(1 + (2 * 3))§\
    1 - -5→(1 - -5)§\
    max(1,min(2,3))→max(1, min(2, 3))§\
    and(1,or(2,xor(3,4)))→and(1, or(2, xor(3, 4)))§\
    case {|i<=1} : 1; {|i>=2} : 2; esac→case {| -i0+1>=0} : 1; {| i0-2>=0} : 2; esac§\
    {|i=0} : 5→case {| i0>=0 && -i0>=0} : 5; esac§\
    case {|} : 1; esac→case {|} : 1; esac§\
    case {|i=0||2<=i<=N} : 1; {| ||i>=9} : 2; {|i>=1|| } : 3; {| || } : 4; esac→\
    case {| i0>=0 && -i0>=0 || i0-2>=0 && N-i0>=0} : 1; {|  || i0-9>=0} : 2; {| i0-1>=0 || } : 3; {| || } : 4; esac§\
    case {|i>=0} : {|N>=i} : -i; esac→case {| i0>=0} : case {| N-i0>=0} : -([i0]); esac; esac§\
    reduce(+,[k],{|1<=k<=i} : A[k])→reduce(+, [i1], {| i1-1>=0 && i0-i1>=0} : A[i1])§\
    reduce(*,[],{|} : 2)→reduce(*, [], {|} : 2)§\
    reduce(and,[k],{|k=N} : 1)→reduce(and, [i1], {| -N+i1>=0 && N-i1>=0} : 1)§\
    reduce(or,[k],{|} : reduce(xor,[l],{|} : [k+l]))→reduce(or, [i1], {|} : reduce(xor, [i2], {|} : [i1+i2]))§\
    reduce(max,[j,k],{|j=k} : reduce(min,[l],{|l<=k} : B[j+l,k]))→\
    reduce(max, [i1,i2], {| i1-i2>=0 && -i1+i2>=0} : reduce(min, [i3], {| i2-i3>=0} : B[i1+i3,i2]))§\
    reduce(+,[k],{|k>=0} : k) - reduce(+,[m],{|m>=0} : m)→(reduce(+, [i1], {| i1>=0} : [i1]) - reduce(+, [i1], {| i1>=0} : [i1]))§\
";
