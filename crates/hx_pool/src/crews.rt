//! The workers, each in a thread.
//!
//! All work is one fork and one join. A worker's seats go into its thread and come back with the end of its work, since
//! the book and the counts are closed with all seats. Where no thread can be made the work is done on the caller's
//! thread, one worker after another. The fork and the join take no memory that could be wanting: what a worker gives
//! back lies where its seats lay.
//!
//! One of the workers runs in the caller's thread. That should not be a program's first thread, whose stack the system
//! gives where it is written to: there the system ends the program by a signal once the stacks of the other threads
//! have left no memory.

ghost use Rattle.std.specs.Prelude.{◌≡◌, ◌<◌, length};
ghost use Rattle.std.specs.List.{All};
ghost use Rattle.hx_pool.specs.Seats.{IsBefore, IsAfter};

use crate::benches::Bench;
use crate::errands::Errand;
use crate::seats::Place;
use hx_io::Gate;
use hx_ordering::LOSS_WORDS;
use std::alloc::Global;
use std::sync::Wait;
use std::thread::Threads;
use std::{mem, thread};

/// The errand that all workers run, and what they share.
#[derive(Drop)]
pub(crate) struct Crew<'a, E> {
    pub(crate) errand: &'a E,
    pub(crate) bench: &'a Bench<'a>,
}

impl<E: Errand + Sync> Crew<'_, E> {
    /// The work of all workers, each at its place and one of them in this thread.
    pub(crate) fn work_all<G: Gate + Sync, R: Threads + Wait + Sync>(
        &self,
        rt: &R,
        alloc: Global,
        gate: &G,
        places: &mut [Place<E::Found>],
    )
        requires words { self.now.bench.now.counts.now.limits.words ≡ LOSS_WORDS }
        requires some { 0 < length places.old }
        requires before { All
            (IsBefore self.now.bench.now.shared.now.made self.now.bench.now.counts.now) places.old }
        ensures len { length places.new ≡ length places.old }
        ensures after { All
            (IsAfter (E.proved self.now.errand.now) (E.tried self.now.errand.now)
            self.now.bench.now.shared.now.made self.now.bench.now.counts.now)
            places.new }
    {
        let threads = places.len();
        thread::for_each_mut(
            rt,
            places,
            threads,
            &|_, place: &mut Place<E::Found>|
                requires { (self.now.bench.now.counts.now.limits.words ≡ LOSS_WORDS)
                    × IsBefore self.now.bench.now.shared.now.made self.now.bench.now.counts.now
                    place.old }
            { self.work_in(rt, alloc, gate, place) },
        );
    }

    /// The work of the worker of this place.
    fn work_in<G: Gate, R: Wait>(
        &self,
        rt: &R,
        alloc: Global,
        gate: &G,
        place: &mut Place<E::Found>,
    )
        requires words { self.now.bench.now.counts.now.limits.words ≡ LOSS_WORDS }
        requires before { IsBefore self.now.bench.now.shared.now.made self.now.bench.now.counts.now
            place.old }
        ensures { IsAfter (E.proved self.now.errand.now) (E.tried self.now.errand.now)
            self.now.bench.now.shared.now.made self.now.bench.now.counts.now place.new }
    {
        let Place::Before(seats) = mem::replace(place, Place::Meanwhile) else {
            unreachable!()
        };
        *place = Place::After(self.errand.run(rt, alloc, gate, self.bench, seats));
    }
}
