//! Affine forms over the ten columns T and N, the reader's t, i, j and k, and the storing
//! instance's t, i, j and k.

#[derive(Debug, Clone, Copy)]
pub struct Affine {
    pub coefs: [i128; 10],
    pub konst: i128,
}

/// The coordinates t, i, j and k of an instance.
pub type Instance = [Affine; 4];

impl Affine {
    pub const fn number(konst: i128) -> Affine {
        Affine {
            coefs: [0; 10],
            konst,
        }
    }

    pub fn column(column: usize) -> Affine {
        let mut affine = Affine::number(0);
        if column < 10 {
            affine.coefs[column] = 1;
        }
        affine
    }

    /// The form moved by a small number.
    pub fn plus(&self, konst: i128) -> Affine {
        Affine {
            coefs: self.coefs,
            konst: self.konst.wrapping_add(konst),
        }
    }

    pub fn minus(&self, other: &Affine) -> Affine {
        let mut affine = self.plus(other.konst.wrapping_neg());
        for column in 0..10 {
            affine.coefs[column] = affine.coefs[column].wrapping_sub(other.coefs[column]);
        }
        affine
    }
}

pub fn params() -> (Affine, Affine) {
    (Affine::column(0), Affine::column(1))
}

pub fn reader() -> Instance {
    [2, 3, 4, 5].map(Affine::column)
}

pub fn store() -> Instance {
    [6, 7, 8, 9].map(Affine::column)
}
