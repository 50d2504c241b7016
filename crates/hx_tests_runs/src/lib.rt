//! The workers of a whole run, as its gate sees them, and how losses part them.
//!
//! No clause sees a gate. So it is shown here that as many workers search as were asked for, that each asks for a unit
//! only after a call, which tells its number and that of its turn, that two work at the same time, and that all
//! openings of a survey share one book and one budget. No clause says either when a worker holds a loss word, nor how
//! much harder a move looks for it. Each clause lets a run give up for want of memory; that with ample memory a survey
//! writes its table is shown here too. What the commands answer else is tried on the built program, by the scripts
//! beside `.ci/run`.
#![tactic(auto)]

#[cfg(test)]
mod held_units;
#[cfg(test)]
mod holds;
#[cfg(test)]
mod losses;
#[cfg(test)]
mod meetings;
#[cfg(test)]
mod runs;
#[cfg(test)]
mod seats;
#[cfg(test)]
mod surveys;
#[cfg(test)]
mod turns;
#[cfg(test)]
mod waits;
