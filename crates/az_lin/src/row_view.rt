//! The numbers of a row, borrowed: a sum takes its rows from a system and from earlier sums alike.

ghost use Rattle.std.specs.Prelude.{◌≡◌};

use crate::{ExactRow, Row};

/// The coefficients by column, and the constant.
#[derive(Debug, Clone, Copy)]
pub struct RowView<'a> {
    pub coefs: &'a [i128],
    pub konst: i128,
}

impl Row {
    pub fn view(&self) -> RowView<'_>
        ensures coefficients { result.coefs.now ≡ self.now.coefs }
        ensures constant { result.konst ≡ self.now.konst }
    {
        RowView {
            coefs: self.coefs(),
            konst: self.konst(),
        }
    }
}

impl ExactRow {
    pub fn view(&self) -> RowView<'_>
        ensures coefficients { result.coefs.now ≡ self.now.coefs }
        ensures constant { result.konst ≡ self.now.konst }
    {
        RowView {
            coefs: self.coefs(),
            konst: self.konst(),
        }
    }
}
