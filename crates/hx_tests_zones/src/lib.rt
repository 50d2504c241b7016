//! Zones beside full searches of small boards.
//!
//! No clause says what a zone tells, since no proof rests on one. But a zone that is wrong is a fault: a search that
//! believes it goes the wrong way. So a worker searches a small board, and then each zone that serves some position of
//! that board is held against who wins it by a full search, whose answer is proved.
#![tactic(auto)]

#[cfg(test)]
mod searches;
#[cfg(test)]
mod zones;
