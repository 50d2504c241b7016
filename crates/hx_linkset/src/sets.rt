//! The set of links, and what is kept so that each call looks at few of them.
//!
//! Links and steps stand in the order in which they came, and none is taken away before the play that it came after is
//! taken back. The live ones of each kind and pair of ends are chained, so `add` looks for a cover in one chain alone.
//! A play, of one stone or of several, is one pass over the live links that it touches: it takes those that are live no
//! more out of their chains and writes them on a log. `undo` cuts off what came since, and puts the logged ones back in
//! opposite order, which makes the chains what they were. The stones of a turn, its own and those of fill-in, are one
//! play, so that they cost one pass and one making of the groups. The Full links stand once more in a list for each of
//! their ends.
//!
//! Of the calls that change the set `add` alone takes memory, and `new` takes all that `play` and `undo`
//! need; `derivation` takes the memory of what it answers. A board has at most `CELLS` empty cells and
//! each play fills one or more, so no more plays stand at once; and the log names each link once at most,
//! since only a live link is dropped, so it needs no more room than there are links.

ghost use Rattle.std.specs.Prelude.{◌≡◌, ◌≢◌, ℕ, ◌+◌, ◌<◌, ◌≤◌, [], ◌∷◌, length, slice_get, ◌↔◌, IsTrue, IfOk, OnErr, MatchOption};
ghost use Rattle.hx_board.specs.declared.vertices.Vertex.{Vertex};
ghost use Rattle.hx_board.specs.Finds.{Finds};
ghost use Rattle.hx_board.specs.Lists.{StandsIn};
ghost use Rattle.hx_board.specs.Positions.{IsEmpty};
ghost use Rattle.hx_link.specs.declared.links.Kind.{Kind};
ghost use Rattle.hx_link.specs.declared.links.Link.{Link};
ghost use Rattle.hx_linkset.specs.States.{IsLive, IsLiveAt, IsRight, IsUntouched, added, played, CanPut, played_all, LeaveAlone};
ghost use Rattle.hx_linkset.specs.Answers.{Gives, Covers, IsAdded, IsPut};
ghost use Rattle.hx_linkset.specs.Held.{IsHeadBetween};
ghost use Rattle.hx_linkset.specs.LiveOf.{IsLiveOf, IsFirstFrom};
ghost use Rattle.hx_linkset.specs.LivePairs.{AreLivePairs};
ghost use Rattle.hx_linkset.specs.LastStones.{board_before, AreDropped};
ghost use Rattle.hx_linkset.specs.Fulls.{AreFullAt, AreFullWithin};
ghost use Rattle.hx_linkset.specs.Plays.{HasMore};
ghost use Rattle.hx_linkset.specs.Derivations.{IsDerived};

use crate::chains::{Chains, FIRST_NODE, head_for};
use crate::derivations::{Derived, derivation_of};
use crate::fulls::{FullIter, FullLists};
use crate::limits::MOST_LINKS;
use crate::liveness::is_live;
use crate::log::Log;
use crate::pairs::{PairIter, in_order};
use crate::passes::{cut_down, cut_fulls, drop_dead, put_back};
use crate::plays::{Stage, before_last, can_put, key_of, logged_from, stage_of, with_all};
use crate::touches::HeldLinks;
use hx_board::{CELLS, Cell, Colour, Groups, Mask, Memory, Position, Vertex, VertexSet};
use hx_link::{Allowed, Kind, Link, Step, allowed_on, result_among};
use std::alloc::Global;
use std::marker::Model;

/// What became of a step.
#[derive(Clone, Copy, PartialEq, Eq, Debug)]
pub enum Added {
    /// Its link is live at this index.
    New(u32),

    /// The live link at this index has the same kind and ends, and its carrier is inside that of the step's link.
    Covered(u32),

    /// It gives no link from live links.
    Refused,

    /// The set holds as many links as it can.
    Limit,
}

/// The links of one player on a position, each with the step that gives it. A link keeps its index for as long as it is
/// held.
#[derive(Drop)]
pub struct LinkSet {
    position: Position,
    colour: Colour,

    /// The groups of the player, and what is allowed, by which a link is live or not. Each play makes both anew. The
    /// groups are a large table, and stand behind a pointer, so that to move a set takes little.
    groups: Box<Groups>,
    allowed: Allowed,
    links: HeldLinks,
    pub(crate) steps: Vec<Step>,

    /// The live links of each kind and pair of ends, in rising order.
    chains: Chains,

    /// The Full links at each vertex, live or not.
    fulls: FullLists,

    /// The links that the plays dropped, in the order in which they were dropped: those that are not live.
    log: Log,

    /// How the set stood before each play that stands.
    plays: Vec<Stage>,
}

impl Model for LinkSet {
    ghost use Rattle.std.specs.Prelude.{vec_capacity};
    ghost use Rattle.hx_linkset.specs.States.{Standing};

    ghost Value = { Standing };

    ghost use Rattle.hx_linkset.specs.Plays.{standing};
    ghost use Rattle.hx_linkset.specs.History.{FieldsKeep};

    ghost view = { λ s. standing s.colour
        record { board = s.position; links = s.links; steps = s.steps.items } s.plays.items };

    ghost invariant = { λ s. FieldsKeep s.colour
        record { board = s.position; links = s.links; steps = s.steps.items } s.plays.items
        s.groups.value s.allowed s.chains s.fulls s.log (vec_capacity s.plays) };
}

impl LinkSet {
    /// No link yet. All that `play` and `undo` will need is taken here.
    pub fn new(alloc: Global, position: &Position, colour: Colour) -> Result<LinkSet, Memory>
        ensures { IfOk result (λ set. set ≡ record {
          player = colour;
          present = record { board = position.now; links = []; steps = [] };
          past = [];
        }) }
    {
        let Ok(plays) = Vec::with_capacity(alloc, CELLS) else {
            return Err(Memory);
        };
        let Ok(log) = Log::new(alloc) else {
            return Err(Memory);
        };
        let Ok(chains) = Chains::new(alloc) else {
            return Err(Memory);
        };
        let Ok(fulls) = FullLists::new(alloc) else {
            return Err(Memory);
        };
        let Ok(groups) = Box::new(alloc, Groups::of(position, colour)) else {
            return Err(Memory);
        };
        // The proof takes from here that the position's board is one.
        let _size = position.size();
        Ok(LinkSet {
            position: *position,
            colour,
            groups,
            allowed: allowed_on(position, colour),
            links: HeldLinks::new(alloc),
            steps: Vec::new(alloc),
            chains,
            fulls,
            log,
            plays,
        })
    }

    /// The position, with the stones that were put on it.
    pub fn position(&self) -> &Position
        ensures { result.now ≡ self.now.present.board }
    {
        &self.position
    }

    /// The player whose links they are.
    pub fn colour(&self) -> Colour
        ensures { result ≡ self.now.player }
    {
        self.colour
    }

    /// The groups of the player on the position.
    pub fn groups(&self) -> &Groups
        ensures { result.now ≡ record { board = self.now.present.board; player = self.now.player } }
    {
        &self.groups
    }

    /// How many plays stand. Stones that were put together are one play.
    pub fn plays(&self) -> u32
        ensures { result ≡ length self.now.past }
    {
        self.plays.len() as u32
    }

    /// How many links are held, live or not.
    pub fn count(&self) -> u32
        ensures { result ≡ length self.now.present.links }
    {
        self.links.len() as u32
    }

    /// The law that every set keeps: the board is that of a position, each live link is given by its step from live
    /// links before it, and no more links are held than `MOST_LINKS`. The call does nothing.
    pub fn keeps(&self)
        ensures right { IsRight self.now.player self.now.present }
        ensures few { length self.now.present.links ≤ MOST_LINKS }
    {
        // To read a field brings the type's invariant to the proof.
        let _colour = self.colour;
    }

    /// The live link at an index. None exactly where there is none.
    pub fn link(&self, index: u32) -> Option<Link>
        ensures { Finds result (λ link. (slice_get self.now.present.links index ≡ Some link)
            × IsLive self.now.present.board self.now.player link) }
    {
        let Some(link) = self.held(index) else {
            return None;
        };
        let live = is_live(&self.allowed, &link);
        if live { Some(link) } else { None }
    }

    /// The link at an index, live or not. None exactly where no link is held there.
    #[inline(always)]
    pub fn held(&self, index: u32) -> Option<Link>
        ensures { result ≡ slice_get self.now.present.links index }
    {
        self.links.as_slice().get(index as usize).copied()
    }

    /// The carrier of the link at an index, live or not. No cell where no link is held there.
    pub fn carrier(&self, index: u32) -> Mask
        ensures held { (link : Link) → slice_get self.now.present.links index ≡ Some link
            → result ≡ link.carrier }
        ensures none { slice_get self.now.present.links index ≡ None → result ≡ 0 }
    {
        // A `requires` would have each caller prove what it has read a line before.
        match self.held(index) {
            None => Mask::empty(),
            Some(link) => link.carrier,
        }
    }

    /// The step of each link, live or not, at the link's index.
    pub fn steps(&self) -> &[Step]
        ensures { result.now ≡ self.now.present.steps }
    {
        self.steps.as_slice()
    }

    /// A key of how the set came to be: of its player, of its position and how many links it holds, and of the same
    /// before each play that stands. Sets that came about otherwise hardly ever share it. It is the key of a hint, so
    /// no clause says which key it is, and no proof rests on it.
    pub fn key(&self) -> u64 {
        let now = stage_of(&self.position, self.links.as_slice(), self.log.as_slice());
        key_of(self.colour, &now, self.plays.as_slice())
    }

    /// The position before the stones that were put since the last link came, or since the set was made. Where the last
    /// link came after the last stone it is the position as it stands.
    pub fn before_last_stones(&self) -> Position
        ensures { result
            ≡ board_before (length self.now.present.links) self.now.present.board self.now.past }
    {
        let now = stage_of(&self.position, self.links.as_slice(), self.log.as_slice());
        before_last(&now, self.plays.as_slice()).position
    }

    /// The indices of the links that these stones dropped: those that were live on that position and
    /// are not live now, each once.
    pub fn dropped(&self) -> &[u16]
        ensures { AreDropped self.now result.now }
    {
        let now = stage_of(&self.position, self.links.as_slice(), self.log.as_slice());
        let first = before_last(&now, self.plays.as_slice());
        logged_from(self.log.as_slice(), first.logged)
    }

    /// The live Full links that end at a vertex, each once and in rising order of their indices.
    #[inline(always)]
    pub fn full_at(&self, vertex: Vertex) -> FullIter<'_>
        ensures { AreFullAt self.now vertex result }
    {
        let list = self.fulls.at(&vertex);
        FullIter::new(list, &vertex, self.allowed.empties, self.allowed.ends)
    }

    /// Those of the live Full links that end at a vertex whose carriers are inside `cells` and whose other ends are in
    /// `to`, each once and in rising order of their indices.
    #[inline(always)]
    pub fn full_at_within(&self, vertex: Vertex, cells: Mask, to: VertexSet) -> FullIter<'_>
        ensures { AreFullWithin self.now vertex cells to result }
    {
        self.full_at(vertex).within(cells, to)
    }

    /// The indices of the live links of these ends, in either order, each once and in rising order.
    pub fn live(&self, a: Vertex, b: Vertex) -> PairIter<'_>
        ensures { AreLivePairs self.now a b result }
    {
        let (low, high) = in_order(&a, &b);
        let most = self.links.len();
        PairIter::new(&self.chains, &low, &high, most)
    }

    /// The steps that the live links at these indices need, as one list of their own. Of one link alone the last step
    /// gives it.
    pub fn derivation(&self, links: &[u32]) -> Result<Derived, Memory>
        requires { (index : ℕ) → StandsIn links.now index
            → IsLiveAt self.now.present.board self.now.player self.now.present.links index }
        ensures { IfOk result (λ derived.
            IsDerived self.now.present.board self.now.player self.now.present.links links.now
            derived.steps derived.places.items) }
    {
        derivation_of(
            self.links.allocator(),
            &self.position,
            self.colour,
            self.links.as_slice(),
            self.steps.as_slice(),
            links,
        )
    }

    /// The least index of a live link of this kind and these ends, in either order. None exactly where there is none.
    pub fn first_of(&self, kind: Kind, a: Vertex, b: Vertex) -> Option<u32>
        ensures { MatchOption result
            ((place : ℕ) → IsLiveOf self.now kind a b place → ⊥)
            (IsFirstFrom self.now kind a b 0) }
    {
        let head = head_between(kind, &a, &b);
        let node = self.chains.after(head);
        if node < FIRST_NODE {
            return None;
        }
        Some((node - FIRST_NODE) as u32)
    }

    /// Where a live link has this index: the least larger index of a live link of the same kind and ends. None exactly
    /// where there is none.
    pub fn next_of(&self, index: u32) -> Option<u32>
        ensures { (kind : Kind) (a b : Vertex) → IsLiveOf self.now kind a b index
            → MatchOption result
            ((place : ℕ) → index < place → IsLiveOf self.now kind a b place → ⊥)
            (IsFirstFrom self.now kind a b (index + 1)) }
    {
        if self.links.len() <= index as usize {
            return None;
        }
        let node = self.chains.after(FIRST_NODE + index as u16);
        if node < FIRST_NODE {
            return None;
        }
        Some((node - FIRST_NODE) as u32)
    }

    /// What gives the set its memory.
    pub fn allocator(&self) -> Global {
        self.links.allocator()
    }

    /// Adds the link that a step gives from live links, where no live link covers it and there is room. After any other
    /// answer, want of memory included, the set is as before, and the step is dropped.
    pub fn add(&mut self, step: Step) -> Result<Added, Memory>
        ensures added { IfOk result (IsAdded self.old self.new step) }
        ensures memory { OnErr result (self.new ≡ self.old) }
    {
        let Some(link) = self.given(&step) else {
            return Ok(Added::Refused);
        };
        if let Some(place) = self.covering(&link) {
            return Ok(Added::Covered(place));
        }
        self.put(&link, step)
    }

    /// Adds the link that a step gives from live links, where there is room, and looks for no cover: that is for
    /// callers who did. It never answers Covered. After any other answer than New, want of memory included, the set is
    /// as before, and the step is dropped.
    pub fn add_unlooked(&mut self, step: Step) -> Result<Added, Memory>
        ensures added { IfOk result (IsPut self.old self.new step) }
        ensures memory { OnErr result (self.new ≡ self.old) }
    {
        let Some(link) = self.given(&step) else {
            return Ok(Added::Refused);
        };
        self.put(&link, step)
    }

    /// Puts a link that a step gives from live links after the others, where there is room. After any other answer than
    /// New, want of memory included, the set is as before, and the step is dropped.
    fn put(&mut self, link: &Link, step: Step) -> Result<Added, Memory>
        requires { Gives self.old step link.now }
        ensures put { IfOk result (IsPut self.old self.new step) }
        ensures memory { OnErr result (self.new ≡ self.old) }
    {
        // The proof takes from here that no more are held.
        self.keeps();
        let count = self.count() as usize;
        if count == MOST_LINKS {
            return Ok(Added::Limit);
        }
        match self.append(link, step) {
            Ok(index) => Ok(Added::New(index)),
            Err(Memory) => Err(Memory),
        }
    }

    /// Puts a link that a step gives from live links after the others, and answers its index. Where memory is wanting
    /// the set is as before, and the step is dropped.
    fn append(&mut self, link: &Link, step: Step) -> Result<u32, Memory>
        requires gives { Gives self.old step link.now }
        requires room { length self.old.present.links < MOST_LINKS }
        ensures appended { IfOk result (λ index. (index ≡ length self.old.present.links)
            × (self.new ≡ record self.old { present = added self.old.present link.now step })) }
        ensures memory { OnErr result (self.new ≡ self.old) }
    {
        let count = self.links.len();
        if self.steps.reserve(1).is_err() {
            return Err(Memory);
        }
        if self.links.push(*link).is_err() {
            return Err(Memory);
        }
        let head = head_for(link.kind, &link.a, &link.b);
        if self.fulls.add(count as u32, link).is_err() {
            self.links.truncate(count);
            return Err(Memory);
        }
        if self.chains.grow(head).is_err() {
            self.fulls.cut(link);
            self.links.truncate(count);
            return Err(Memory);
        }
        self.steps.push_reserved(step);
        Ok(count as u32)
    }

    /// Puts a stone of either colour on an empty cell. Of the live links those stay live that it leaves alone, and no
    /// others.
    pub fn play(&mut self, colour: Colour, cell: Cell)
        requires { IsEmpty self.old.present.board cell }
        ensures set { self.new ≡ record {
          player = self.old.player;
          present = played self.old.present colour cell;
          past = self.old.present ∷ self.old.past;
        } }
        ensures live { (link : Link) → IsLive self.new.present.board self.new.player link
            ↔ (IsLive self.old.present.board self.old.player link
            × IsUntouched self.old.player colour cell link) }
    {
        let after = self.position.with(colour, cell);
        self.play_to(&after);
    }

    /// Puts stones of either colour on empty cells, as one play: `undo` takes them back together. Of the
    /// live links those stay live that each of them leaves alone, and no others. `can_play` tells
    /// whether it may be called.
    pub fn play_all(&mut self, stones: &[(Colour, Cell)])
        requires some { stones.now ≢ [] }
        requires can { CanPut self.old.present.board stones.now }
        ensures set { self.new ≡ record {
          player = self.old.player;
          present = played_all self.old.present stones.now;
          past = self.old.present ∷ self.old.past;
        } }
        ensures live { (link : Link) → IsLive self.new.present.board self.new.player link
            ↔ (IsLive self.old.present.board self.old.player link
            × LeaveAlone self.old.player stones.now link) }
    {
        let after = with_all(&self.position, stones);
        self.play_to(&after);
    }

    /// Whether these stones can be put as one play: there is one at least, and each comes to an empty
    /// cell, when they are put one after the other.
    pub fn can_play(&self, stones: &[(Colour, Cell)]) -> bool
        ensures { IsTrue result
            ↔ ((stones.now ≢ []) × CanPut self.now.present.board stones.now) }
    {
        !stones.is_empty() && can_put(&self.position, stones)
    }

    /// Takes back the last play that stands: the set is as it was before that play.
    pub fn undo(&mut self)
        requires { self.old.past ≢ [] }
        ensures player { self.new.player ≡ self.old.player }
        ensures back { self.old.past ≡ self.new.present ∷ self.new.past }
    {
        if let Some(play) = self.plays.pop() {
            let held = self.links.len();
            cut_down(&mut self.chains, held as u16, play.count as u16);
            put_back(&mut self.chains, &mut self.log, play.logged);
            cut_fulls(&mut self.fulls, self.links.as_slice(), play.count);
            self.links.truncate(play.count);
            self.steps.truncate(play.count);
            self.position = play.position;
            *self.groups = Groups::of(&self.position, self.colour);
            self.allowed = allowed_on(&self.position, self.colour);
        }
    }

    /// Goes on to a position with some stones more, as one play.
    fn play_to(&mut self, after: &Position)
        requires { HasMore self.old.present.board after.now }
        ensures { self.new ≡ record {
          player = self.old.player;
          present = record self.old.present { board = after.now };
          past = self.old.present ∷ self.old.past;
        } }
    {
        let now = stage_of(&self.position, self.links.as_slice(), self.log.as_slice());
        drop_dead(
            &mut self.chains,
            &mut self.log,
            &self.links,
            &self.position,
            after,
            self.colour,
        );
        self.plays.push_reserved(now);
        self.position = *after;
        *self.groups = Groups::of(after, self.colour);
        self.allowed = allowed_on(after, self.colour);
    }

    /// The link that a step gives from live links. It is live.
    fn given(&self, step: &Step) -> Option<Link>
        ensures { Finds result (Gives self.now step.now) }
    {
        // The proof takes from here that the position's board is one.
        let _size = self.position.size();
        let Some(link) = result_among(
            &self.position,
            self.colour,
            &self.groups,
            &self.allowed,
            self.links.as_slice(),
            step,
        ) else {
            return None;
        };
        // Its ends were asked for.
        let live = link.carrier.inside(self.allowed.empties);
        if live { Some(link) } else { None }
    }

    /// The first live link that covers a live one. Only those of its kind and ends are looked at.
    fn covering(&self, link: &Link) -> Option<u32>
        requires { IsLive self.now.present.board self.now.player link.now }
        ensures { Finds result (λ place. Covers self.now place link.now) }
    {
        let head = head_for(link.kind, &link.a, &link.b);
        let mut node = self.chains.after(head);
        while node >= FIRST_NODE {
            let place = node - FIRST_NODE;
            let covers = self.links.as_slice()[place as usize]
                .carrier
                .inside(link.carrier);
            if covers {
                return Some(place as u32);
            }
            node = self.chains.after(node);
        }
        None
    }
}

/// The head of the links of one kind and these ends, in either order. Of the two heads that is the lower one, since the
/// lower end counts for more.
fn head_between(kind: Kind, a: &Vertex, b: &Vertex) -> u16
    ensures between { IsHeadBetween kind a.now b.now result }
    ensures small { result < FIRST_NODE }
{
    let one = head_for(kind, a, b);
    let other = head_for(kind, b, a);
    if one < other { one } else { other }
}
