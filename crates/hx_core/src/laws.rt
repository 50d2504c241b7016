//! Laws of every list of events. The functions do nothing; what they say stands in their contracts.

ghost use Rattle.hx_core.specs.Runs.{EveryRunKeeps, EveryRunGivesATree, EveryRunGrows, EveryRunGoesOn};

/// In each state that events lead to from the start, the nodes are right, no two are of one position and mover, there
/// are at most as many as there are slots, what each worker has seen is a front of the list, and no more units are
/// granted than there are. Where there is some node, the nodes are a valid tree.
pub fn every_run_keeps()
    ensures kept { EveryRunKeeps }
    ensures tree { EveryRunGivesATree }
{}

/// The list of nodes only grows, at its end, and so does what each worker has seen.
pub fn every_run_grows()
    ensures { EveryRunGrows }
{}

/// Events that lead from one state to a second, and events that lead from there to a third, lead one after the other
/// from the first to the third.
pub fn every_run_goes_on()
    ensures { EveryRunGoesOn }
{}
