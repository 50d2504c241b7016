//! A game as a service over the opponent's lines, which stops behind the line that is answered by a chain.

use crate::players::Player;
use crate::replies::{answer_line, open};
use hx_io::{Failed, Sink};
use hx_lines::{Ended, Serves, write_reply};

impl Serves for Player {
    ghost use Rattle.std.specs.Prelude.{[]};
    ghost use Rattle.hx_play.specs.Serving.{IsWaiting, game_answers, game_service};

    ghost service = { game_service };

    ghost answers = { game_answers };

    ghost is_ready = { λ _. Unit {0} };

    ghost is_waiting = { IsWaiting };

    ghost behind = { λ _. [] };

    fn open<K: Sink>(&mut self, sink: &mut K) -> Result<bool, Failed> {
        let opening = open(self);
        write_reply(sink, opening.text.bytes(), opening.ended)
    }

    fn answer<K: Sink>(&mut self, line: &[u8], sink: &mut K) -> Result<bool, Failed> {
        let reply = answer_line(self, line);
        write_reply(sink, reply.text.bytes(), reply.ended)
    }

    fn last_words(ended: Ended) -> &'static [u8] {
        match ended {
            Ended::Over => b"unfinished\n",
            Ended::ReadFault => b"read fault\n",
            Ended::TooLong => b"too long\n",
            Ended::Stopped | Ended::WriteFault => b"",
        }
    }
}
