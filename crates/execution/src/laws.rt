//! The laws of carrying out a plan. A sound plan's states are good from the start on, whatever
//! happens and in whatever order, so every load finds the value of the instance that it names.

ghost use Rattle.execution.specs.Laws.{StartIsGood, ClaimKeepsGood, LoadKeepsGood, LoadFindsTheMeaning, StoreKeepsGood, NextKeepsGood, EventKeepsGood, EndedHasOutputs, EnabledEventsFall, SomeTurnIsEnabled, EveryRunIsGood};
ghost use Rattle.execution.specs.Examples.{ExampleRuns};

/// Nothing is stored at the start.
pub fn start_is_good()
    ensures { StartIsGood }
{}

/// A worker takes a tile, or finds that there is none.
pub fn claim_keeps_good()
    ensures { ClaimKeepsGood }
{}

/// A worker loads the next word.
pub fn load_keeps_good()
    ensures { LoadKeepsGood }
{}

/// The word that a worker loads is the meaning of the instance that the load names.
pub fn load_finds_the_meaning()
    ensures { LoadFindsTheMeaning }
{}

/// A worker stores its instance's value.
pub fn store_keeps_good()
    ensures { StoreKeepsGood }
{}

/// The next wave begins.
pub fn next_keeps_good()
    ensures { NextKeepsGood }
{}

/// Any event at all.
pub fn event_keeps_good()
    ensures { EventKeepsGood }
{}

/// In an ended state the word of each output instance is its meaning.
pub fn ended_has_outputs()
    ensures { EndedHasOutputs }
{}

/// An enabled event leaves less to do.
pub fn enabled_events_fall()
    ensures { EnabledEventsFall }
{}

/// Until all is done some worker can go on, or the next wave can begin.
pub fn some_turn_is_enabled()
    ensures { SomeTurnIsEnabled }
{}

/// Whatever happens, and in whatever order.
pub fn every_run_is_good()
    ensures { EveryRunIsGood }
{}

/// A run that was carried out by hand comes out as the definitions say.
pub fn example_runs()
    ensures { ExampleRuns }
{}
