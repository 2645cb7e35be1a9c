//! The laws.

ghost use Rattle.certified_plans.specs.Examples.{AreWorkedOut};
ghost use Rattle.certified_plans.specs.Laws.{EveryInstanceMeans, PlanIsSound, OutputsAreMeanings, EveryRunKeepsValues};

/// Each output and local has a value at each point of its domain: no point needs itself.
pub fn every_instance_means()
    ensures { EveryInstanceMeans }
{}

/// A plan that is as promised is sound, so the laws of carrying out plans hold for it: whatever
/// happens keeps every value that is still to be loaded.
pub fn plan_is_sound()
    ensures { PlanIsSound }
{}

/// Where a plan has been carried out, the words of the outputs' cells are the outputs' values.
pub fn outputs_are_meanings()
    ensures { OutputsAreMeanings }
{}

/// Of a plan that is as promised, whatever happens and in whatever order: each load finds the value of
/// the very instance that it names, and at the end the outputs have their values.
pub fn every_run_keeps_values()
    ensures { EveryRunKeepsValues }
{}

/// Bodies and cells that were worked out by hand come out as the definitions say.
pub fn examples_are_worked_out()
    ensures { AreWorkedOut }
{}
