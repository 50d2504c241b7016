//! A session: its board and moves, and the requests that change them. The position stands beside the moves, so that no
//! move is made again: `undo` lifts the last stone.

ghost use Rattle.std.specs.Prelude.{◌≡◌, ◌≤◌, ◌↔◌, IsTrue, MatchOption, Ok, [], length};
ghost use Rattle.hx_board.specs.Positions.{IsEmpty, IsFull};
ghost use Rattle.hx_htp.specs.declared.requests.Request.TheVariants as request;
ghost use Rattle.hx_htp.specs.Words.{words_of};
ghost use Rattle.hx_htp.specs.States.{fresh, no_moves, with_move, board_of, mover_of};
ghost use Rattle.hx_htp.specs.Accounts.{Account};
ghost use Rattle.hx_htp.specs.Sessions.{moment};
ghost use Rattle.hx_htp.specs.Answers.{Does, IsFirstEmpty};
ghost use Rattle.hx_htp.specs.Replies.{IsRefused};
ghost use Rattle.hx_htp.specs.Runs.{AnswersAsked, AnswersLine, asks_quit, NeedsNobody, AsksNobody};

use crate::answerers::{Answerer, Told};
use crate::answers::{Answer, Refusal};
use crate::arguments::widest;
use crate::generating::generate;
use crate::lines::{is_quit, read};
use crate::moves::Move;
use crate::requests::Request;
use crate::texts::spelled;
use crate::words::shown;
use arrayvec::ArrayVec;
use hx_board::{CELLS, Cell, Colour, Memory, Position, Size};
use hx_lex::{Text, size_of};
use std::marker::Model;
use std::sync::Wait;
use std::thread::Threads;

/// A board and the moves that were made on it, seen as the board's size and the moves from the first to the last. Each
/// move fills a cell.
#[derive(Drop)]
pub struct Session {
    position: Position,
    moves: ArrayVec<Move, CELLS>,
}

impl Model for Session {
    ghost use Rattle.hx_htp.specs.States.{State, IsPlayed};

    ghost Value = { State };

    ghost view = { λ s. record { size = s.position.size; moves = s.moves.items } };

    ghost invariant = { λ s. IsPlayed s.position s.moves.items };
}

/// What is answered to a line: the bytes of the reply, none where the line has no words, and whether the session ends.
#[derive(Drop)]
pub struct Reply {
    pub text: Text,
    pub quit: bool,
}

impl Session {
    /// A session on an empty board of eleven rows and columns.
    pub fn new() -> Session
        ensures { result ≡ fresh }
    {
        Session::on(widest())
    }

    /// A session without moves on a board of this size.
    fn on(size: Size) -> Session
        ensures { result ≡ no_moves size }
    {
        Session {
            position: Position::empty(size),
            moves: ArrayVec::new(),
        }
    }

    /// Answers a line, which is without its LF, and does what it asks for. It may wait, as the answerer may.
    pub fn line<R: Threads + Wait + Sync, A: Answerer>(
        &mut self,
        rt: &R,
        line: &[u8],
        answerer: &mut A,
    ) -> Reply
        requires { length line.now ≤ 4096 }
        // One step of a run: from the moment before to the moment after, with exactly these bytes.
        ensures step { AnswersLine (moment self.old (A.account answerer.old)) line.now
            result.text (moment self.new (A.account answerer.new)) }
        ensures quit { result.quit ≡ asks_quit line.now }
        // A line without words has no reply, and no other.
        ensures silent { (result.text ≡ []) ↔ (words_of line.now ≡ []) }
        // After a refusal the session is as before.
        ensures refused { IsRefused result.text → self.new ≡ self.old }
        // Only `genmove` and `solve` ask the answerer.
        ensures nobody { AsksNobody line.now → answerer.new ≡ answerer.old }
    {
        let kept = shown(line);
        match read(kept.as_slice()) {
            None => Reply {
                text: Text::new(),
                quit: false,
            },
            Some(command) => {
                let given = self.given(rt, command.asked, answerer);
                Reply {
                    text: spelled(command.number, &given),
                    quit: is_quit(command.asked),
                }
            }
        }
    }

    /// Answers what a line asks for, or says why it asks for nothing.
    fn given<R: Threads + Wait + Sync, A: Answerer>(
        &mut self,
        rt: &R,
        asked: Result<Request, Refusal>,
        answerer: &mut A,
    ) -> Result<Answer, Refusal>
        ensures answers { AnswersAsked (moment self.old (A.account answerer.old)) asked
            result (moment self.new (A.account answerer.new)) }
        ensures nobody { NeedsNobody asked → answerer.new ≡ answerer.old }
    {
        match asked {
            Ok(request) => self.answer(rt, request, answerer),
            Err(refusal) => Err(refusal),
        }
    }

    /// Answers a request, and does what it asks for.
    fn answer<R: Threads + Wait + Sync, A: Answerer>(
        &mut self,
        rt: &R,
        request: Request,
        answerer: &mut A,
    ) -> Result<Answer, Refusal>
        ensures does { Does (moment self.old (A.account answerer.old)) request
            result (moment self.new (A.account answerer.new)) }
        ensures nobody { NeedsNobody (Ok request) → answerer.new ≡ answerer.old }
    {
        match request {
            Request::ProtocolVersion => Ok(Answer::Protocol),
            Request::Name => Ok(Answer::Program),
            Request::Version => Ok(Answer::Release),
            Request::KnownCommand { known } => Ok(Answer::Known(known)),
            Request::ListCommands => Ok(Answer::Names),
            Request::Quit => Ok(Answer::Empty),
            Request::BoardSize { cols, rows } => self.resize(cols, rows),
            Request::ClearBoard => Ok(self.clear()),
            Request::Play { colour, cell } => self.play(colour, cell),
            Request::Undo => self.undo(),
            Request::GenMove { colour } => self.generate(rt, colour, answerer),
            Request::ShowBoard => Ok(self.shown()),
            Request::Solve { mover } => self.solve(rt, mover, answerer),
        }
    }

    /// Takes another size, without moves.
    fn resize(&mut self, cols: u32, rows: u32) -> Result<Answer, Refusal>
        ensures { (account : Account) → Does (moment self.old account) (request.BoardSize cols rows)
            result (moment self.new account) }
    {
        match size_of(rows, cols) {
            Some(size) => {
                *self = Session::on(size);
                Ok(Answer::Empty)
            }
            None => Err(Refusal::UnacceptableSize),
        }
    }

    /// Takes all moves away.
    fn clear(&mut self) -> Answer
        ensures { (account : Account) → Does (moment self.old account) request.ClearBoard
            (Ok result) (moment self.new account) }
    {
        *self = Session::on(self.position.size());
        Answer::Empty
    }

    /// Makes a move of either player.
    fn play(&mut self, colour: Colour, cell: Cell) -> Result<Answer, Refusal>
        ensures { (account : Account) → Does (moment self.old account) (request.Play colour cell)
            result (moment self.new account) }
    {
        if self.is_empty(cell) {
            self.add(colour, cell);
            Ok(Answer::Empty)
        } else {
            Err(Refusal::IllegalMove)
        }
    }

    /// Whether a cell is on the board and has no stone.
    fn is_empty(&self, cell: Cell) -> bool
        ensures { IsTrue result ↔ IsEmpty (board_of self.now) cell }
    {
        self.position.empties().has(cell)
    }

    /// Adds a move to an empty cell.
    fn add(&mut self, colour: Colour, cell: Cell)
        requires { IsEmpty (board_of self.old) cell }
        ensures { self.new ≡ with_move self.old (record { colour = colour; cell = cell }) }
    {
        // The proof takes from here that the position's board is one.
        let _size = self.position.size();
        self.position.play(colour, cell);
        self.moves.push(Move { colour, cell });
    }

    /// Takes the last move away.
    fn undo(&mut self) -> Result<Answer, Refusal>
        ensures { (account : Account) → Does (moment self.old account) request.Undo
            result (moment self.new account) }
    {
        match self.moves.pop() {
            Some(last) => {
                self.position.lift(last.cell);
                Ok(Answer::Empty)
            }
            None => Err(Refusal::CannotUndo),
        }
    }

    /// Plays a move for a player.
    fn generate<R: Threads + Wait + Sync, A: Answerer>(
        &mut self,
        rt: &R,
        player: Colour,
        answerer: &mut A,
    ) -> Result<Answer, Refusal>
        ensures { Does (moment self.old (A.account answerer.old)) (request.GenMove player)
            result (moment self.new (A.account answerer.new)) }
    {
        match self.first_empty() {
            None => Err(Refusal::NoEmptyCell),
            Some(first) => match generate(rt, &self.position, player, first, answerer) {
                Ok(cell) => {
                    self.add(player, cell);
                    Ok(Answer::Cell(cell))
                }
                Err(Memory) => Err(Refusal::OutOfMemory),
            },
        }
    }

    /// The first empty cell, in cell order.
    fn first_empty(&self) -> Option<Cell>
        ensures { MatchOption result
            (IsFull (board_of self.now)) (IsFirstEmpty (board_of self.now)) }
    {
        self.position.empties().least(self.position.size())
    }

    /// The board as it stands.
    fn shown(&self) -> Answer
        ensures { result ≡ Answer.Shown (board_of self.now) }
    {
        Answer::Shown(self.position)
    }

    /// Who wins, with this player to move or the mover.
    fn solve<R: Threads + Wait + Sync, A: Answerer>(
        &self,
        rt: &R,
        mover: Option<Colour>,
        answerer: &mut A,
    ) -> Result<Answer, Refusal>
        ensures { Does (moment self.now (A.account answerer.old)) (request.Solve mover)
            result (moment self.now (A.account answerer.new)) }
    {
        let to_move = match mover {
            Some(player) => player,
            None => self.mover(),
        };
        match answerer.solve(rt, &self.position, to_move) {
            Ok(Told::Winner(winner)) => Ok(Answer::Winner(winner)),
            Ok(Told::Budget(n)) => Ok(Answer::UnknownBudget(n)),
            Ok(Told::Slots(n)) => Ok(Answer::UnknownProofs(n)),
            Err(Memory) => Err(Refusal::OutOfMemory),
        }
    }

    /// The colour that did not make the last move, and Black where there is none.
    fn mover(&self) -> Colour
        ensures { result ≡ mover_of self.now }
    {
        match self.moves.last() {
            Some(last) => last.colour.other(),
            None => Colour::Black,
        }
    }
}
