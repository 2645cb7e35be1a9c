//! What the chains of a text mean at a point: a domain holds it exactly where each two neighbours compare
//! as the sign between them says.
//!
//! `specs/Comparisons.antt` has the law, `specs/Examples.antt` what it says of `0<=i<N`.
#![tactic(auto)]

ghost use Rattle.chain_means.specs.Comparisons.{ChainsHold};
ghost use Rattle.chain_means.specs.Examples.{IntervalHolds};

/// The rows that are read of chains are at least 0 at a point exactly where all comparisons hold there.
pub fn chains_hold()
    ensures { ChainsHold }
{}

/// `0<=i<N` holds from 0 to N - 1.
pub fn interval_holds()
    ensures { IntervalHolds }
{}
