//! A domain and its members at parameters, in order.

use crate::system::Disjuncts;

/// The first columns are the parameters.
pub(crate) struct Case {
    pub(crate) name: &'static str,
    pub(crate) width: usize,
    pub(crate) params: &'static [i128],
    pub(crate) disjuncts: Disjuncts,
    pub(crate) members: &'static [&'static [i128]],
}
