//! What is promised of a plan: the definitions that stand between those who make plans and the laws of carrying
//! them out.
//!
//! `specs/Promise.antt` says when a plan is one of a program with a mapping at parameters and tables, `specs/Places.antt`
//! where an instance stands in it, `specs/Outputs.antt` what its outputs are once it has been carried out.
#![tactic(auto)]
