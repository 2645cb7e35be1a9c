//! What the rows of two neighbours in a chain are made of.

ghost use Rattle.std.specs.Prelude.{◌≡◌, ◌∷◌};
ghost use Rattle.std.specs.Option.{option_to_list};
ghost use Rattle.program_names.specs.Sides.{differences};

use program_grammar::{Link, Relation, Term};
use side_rows::Difference;

/// One difference, and a second one where the neighbours are equal.
pub(crate) fn differences<'a>(
    left: &'a [Term],
    link: &'a Link,
) -> (Difference<'a>, Option<Difference<'a>>)
    ensures { result.0 ∷ option_to_list result.1 ≡ differences link.now.relation left.now link.now.side }
{
    let right = link.side.as_slice();
    match link.relation {
        Relation::AtMost => (Difference::new(right, left, false), None),
        Relation::Below => (Difference::new(right, left, true), None),
        Relation::AtLeast => (Difference::new(left, right, false), None),
        Relation::Above => (Difference::new(left, right, true), None),
        Relation::Equal => {
            let back = Difference::new(right, left, false);
            (Difference::new(left, right, false), Some(back))
        }
    }
}
