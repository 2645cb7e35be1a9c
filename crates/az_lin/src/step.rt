//! Derivations and rational points, as certificates and refusals hold them.

use crate::{LinFault, List, TryCopy};
use std::alloc::Global;

/// One step of a derivation, which makes the row `(a * row i + b * row j) / g`. Rows are numbered
/// from 0, the system's first and then the row of each step.
#[derive(Debug, Clone, Copy, PartialEq, Eq)]
pub struct Step {
    pub a: i128,
    pub i: u32,
    pub b: i128,
    pub j: u32,
    pub g: i128,
}

/// The steps that refute a system, in order (see `specs/Derivation.antt`).
#[derive(Debug, Drop)]
pub struct Derivation {
    pub steps: List<Step>,
}

/// The point with coordinate `nums[column] / den` in each column (see `specs/RationalPoint.antt`).
#[derive(Debug, Drop)]
pub struct RatPoint {
    pub nums: List<i128>,
    pub den: i128,
}

impl TryCopy for Step {
    fn copy(&self, alloc: Global) -> Result<Self, LinFault> {
        let _ = alloc;
        Ok(*self)
    }
}

impl TryCopy for Derivation {
    fn copy(&self, alloc: Global) -> Result<Self, LinFault> {
        let steps = self.steps.copy(alloc)?;
        Ok(Derivation { steps })
    }
}

impl TryCopy for RatPoint {
    fn copy(&self, alloc: Global) -> Result<Self, LinFault> {
        let nums = self.nums.copy(alloc)?;
        Ok(RatPoint {
            nums,
            den: self.den,
        })
    }
}
