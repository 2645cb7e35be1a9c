//! The columns of a scope and the constant, as what a term of a side belongs to.

ghost use Rattle.std.specs.Prelude.{◌≡◌};
ghost use Rattle.side_rows.specs.Columns.{column_of};
ghost use Rattle.side_rows.specs.Sides.{is_of};

use az_lin::Name;
use grammar_rules::Term;

/// The column of a name, or the constant.
#[derive(Clone, Copy)]
pub(crate) enum Column<'a> {
    Named(&'a Name),
    Constant,
}

impl Column<'_> {
    pub fn holds(self, term: &Term) -> bool
        ensures { result ≡ is_of (column_of self.entry) term.now }
    {
        match (self, &term.name) {
            (Column::Named(name), Some(other)) => name.as_str() == other.as_str(),
            (Column::Constant, None) => true,
            _ => false,
        }
    }
}
