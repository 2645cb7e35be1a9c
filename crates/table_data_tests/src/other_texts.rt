//! Texts over other domains: a program, its parameters, a text and the answer, found by hand.

/// The domain is that of the program's first variable.
pub(crate) struct Other {
    pub(crate) program: &'static str,
    pub(crate) params: &'static [i128],
    pub(crate) text: &'static [u8],
    pub(crate) answer: &'static str,
}

const LINE: &str = "affine T {N|N>=0} output A {i|0<=i<N}; let A[i] = 0; .";

const TRIANGLE: &str = "affine T {|} output A {i,j|0<=j<=i && i<=1}; let A[i,j] = 0; .";

const POINT: &str = "affine T {|} output A {|}; let A[] = 0; .";

const APART: &str = "affine T {|} output A {i|-2<=i<=-1 || 4<=i<=4}; let A[i] = 0; .";

const WIDE: &str = "affine T {|} output A {i,j|0<=i<=2048 && j=i}; let A[i,j] = 0; .";

pub(crate) const OTHERS: [Other; 14] = [
    Other {
        program: LINE,
        params: &[0],
        text: b"",
        answer: "",
    },
    Other {
        program: LINE,
        params: &[0],
        text: b"0,1\n",
        answer: "1 Outside",
    },
    Other {
        program: LINE,
        params: &[1],
        text: b"0,1\n",
        answer: "0,1 ",
    },
    // The members are listed before any record is read.
    Other {
        program: LINE,
        params: &[1099511627776],
        text: b"x",
        answer: "Coordinate",
    },
    Other {
        program: WIDE,
        params: &[],
        text: b"x",
        answer: "BoxPoints",
    },
    Other {
        program: TRIANGLE,
        params: &[],
        text: b"1,1,5\n0,0,3\n1,0,4\n",
        answer: "0,0,3 1,0,4 1,1,5 ",
    },
    Other {
        program: TRIANGLE,
        params: &[],
        text: b"0,0,3\n0,1,4\n",
        answer: "2 Outside",
    },
    Other {
        program: TRIANGLE,
        params: &[],
        text: b"0,0,3\n1,1,4\n",
        answer: "0 Missing 1,0",
    },
    Other {
        program: TRIANGLE,
        params: &[],
        text: b"0,0\n",
        answer: "1 Fields",
    },
    Other {
        program: POINT,
        params: &[],
        text: b"7\n",
        answer: "7 ",
    },
    Other {
        program: POINT,
        params: &[],
        text: b"7\n8\n",
        answer: "2 Twice",
    },
    Other {
        program: POINT,
        params: &[],
        text: b"",
        answer: "0 Missing",
    },
    Other {
        program: APART,
        params: &[],
        text: b"4,9\n-1,8\n-2,7\n",
        answer: "-2,7 -1,8 4,9 ",
    },
    Other {
        program: APART,
        params: &[],
        text: b"4,9\n-1,8\n0,7\n",
        answer: "3 Outside",
    },
];
