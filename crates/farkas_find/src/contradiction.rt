//! A row that refutes the system by itself.

ghost use Rattle.std.specs.Prelude.{◌≡◌};
ghost use Rattle.std.specs.List.{position};
ghost use Rattle.farkas_find.specs.Tidying.{is_refuting};

use crate::duplicates::is_refuting;
use crate::numbered::Numbered;

/// The place of the first row that is negative everywhere.
pub(crate) fn contradiction(rows: &[Numbered]) -> Option<usize>
    ensures { result ≡ position is_refuting rows.now }
{
    rows.iter().position(|it| is_refuting(it))
}
