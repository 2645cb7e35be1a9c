//! A term of an affine side.

use az_lin::Name;

/// A term of an affine side, as `-2*i`, `N` or `5`. A name alone has the factor 1.
#[derive(Drop)]
pub struct Term {
    pub negative: bool,
    pub factor: u128,
    pub name: Option<Name>,
}
