//! A session as a service over lines, which stops behind the line that asks to quit. It keeps its answerer behind a
//! borrow, so that whoever lent it has its account in the end.

ghost use Rattle.std.specs.Prelude.{◌≡◌};
ghost use Rattle.hx_htp.specs.States.{fresh};

use hx_htp::{Answerer, Session};
use hx_io::{Failed, Sink};
use hx_lines::{Ended, Serves, write_reply};
use std::sync::Wait;
use std::thread::Threads;

/// A session beside its answerer.
pub(crate) struct Talk<'a, A, R> {
    answerer: &'a mut A,
    session: Session,
    rt: &'a R,
}

impl<'a, A, R> Talk<'a, A, R> {
    /// A new session whose questions this one answers.
    pub(crate) fn new(rt: &'a R, answerer: &'a mut A) -> Talk<'a, A, R>
        ensures same { result.answerer.ghost_name ≡ answerer.entry.ghost_name }
        ensures now { result.answerer.now ≡ answerer.old }
        ensures fresh { result.session ≡ fresh }
    {
        Talk {
            answerer,
            session: Session::new(),
            rt,
        }
    }
}

// It says what is left behind the borrow.
impl<'a, A, R> Drop for Talk<'a, A, R> {
    fn drop(self)
        ensures { self.exit.0.now ≡ self.entry.answerer.now }
    {
        let Self {
            answerer: _,
            session: _,
            rt: _,
        } = self;
    }
}

impl<A: Answerer, R: Threads + Wait + Sync> Serves for Talk<'_, A, R> {
    ghost use Rattle.std.specs.Prelude.{[], ◌∷◌};
    ghost use Rattle.std.specs.Thread.{IsSync};
    ghost use Rattle.hx_htp.specs.Sessions.{moment};
    ghost use Rattle.hx_cmd_htp.specs.Serving.{session_service};
    ghost use Rattle.hx_cmd_htp.specs.Standings.{runs_to};

    ghost service = { session_service };

    ghost answers = { λ start now.
        runs_to (moment start.session (A.account start.answerer.now))
        (moment now.session (A.account now.answerer.now)) };

    // The bound `Sync` again: inside a trait's method it is known only where a clause says it.
    ghost is_ready = { λ _. IsSync R.row };

    ghost is_waiting = { λ _. IsSync R.row };

    ghost behind = { λ talk. talk.answerer.ghost_name ∷ [] };

    fn open<K: Sink>(&mut self, _sink: &mut K) -> Result<bool, Failed> {
        Ok(false)
    }

    fn answer<K: Sink>(&mut self, line: &[u8], sink: &mut K) -> Result<bool, Failed> {
        let reply = self.session.line(self.rt, line, self.answerer);
        write_reply(sink, reply.text.bytes(), reply.quit)
    }

    fn last_words(ended: Ended) -> &'static [u8] {
        match ended {
            Ended::ReadFault => b"? read fault\n\n",
            Ended::TooLong => b"? line too long\n\n",
            Ended::Stopped | Ended::Over | Ended::WriteFault => b"",
        }
    }
}
