//! What a certificate holds.

use az_lin::{Derivation, List};
use target_map::Which;

/// The derivations of one formula, one for each of its cases in order.
#[derive(Debug, Drop)]
pub struct Proved {
    pub which: Which,
    pub derivations: List<Derivation>,
}

/// The proofs of a mapping's formulas, in order. The version, 1 or 2, says by which rule the steps of
/// the derivations are valid: in version 1 no step rounds.
#[derive(Debug, Drop)]
pub struct Certificate {
    pub version: u32,
    pub proved: List<Proved>,
}
