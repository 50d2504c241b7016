//! The reader of a tree's text, which is fed line by line and hands out each node with its last line. It counts the
//! lines and keeps its first fault, and leaves to the places what a line may be.

ghost use Rattle.std.specs.Prelude.{◌≡◌, ◌∷◌, ◌++◌, [], ℕ, List, IfErr, true};
ghost use Rattle.hx_tree.specs.declared.nodes.Node.{Node as TreeNode};
ghost use Rattle.hx_parse.specs.declared.places.TreeFault.{TreeFault as Fault};
ghost use Rattle.hx_parse.specs.Places.{Stands, Told, IsFailed, fault_of_stop, version_at};
ghost use Rattle.hx_io.specs.Causes.{next_count};
ghost use Rattle.hx_parse.specs.Reader.{HasRead, HasFailed, Says, IsVersionIn, version_read, lines_fed};

use crate::advances::{advance, take_in_place};
use crate::places::{Fed, Next, Place, Stop, TreeFault};
use hx_text::Version;
use hx_tree::MOST_NODES;
use std::alloc::Global;
use std::mem;

/// Reads the text of a tree line by line.
#[derive(Debug, Drop)]
pub struct TreeReader {
    alloc: Global,
    fed: u64,
    place: Place,
}

/// What the reader says of a line, and the place after it.
#[derive(Drop)]
struct Taken {
    told: Result<Fed, TreeFault>,
    place: Place,
}

impl TreeReader {
    /// A reader at the beginning of a text. It takes memory for the lists of nodes alone.
    pub fn new(alloc: Global) -> TreeReader
        ensures nothing { HasRead result [] [] }
        ensures none { lines_fed result ≡ 0 }
    {
        TreeReader {
            alloc,
            fed: 0,
            place: Place::Title,
        }
    }

    /// How many lines were fed.
    pub fn lines(&self) -> u64
        ensures { result ≡ lines_fed self.now }
    {
        self.fed
    }

    /// The version of the text, which its first line tells. None exactly until that line was read without a fault.
    pub fn version(&self) -> Option<Version>
        ensures same { result ≡ version_read self.now }
        ensures read { (nodes : List TreeNode) (lines : List (List ℕ))
            → HasRead self.now nodes lines → IsVersionIn result lines }
    {
        self.place.version()
    }

    /// Takes one more line, without its LF, and whether an LF followed. Memory is wanting only at a line that takes it:
    /// a right first line of a node that tells of entries, or a line of a step that begins as that of an Or with more
    /// than eight parts.
    pub fn feed(&mut self, line: &[u8], ended: bool) -> Result<Fed, TreeFault>
        ensures count { lines_fed self.new ≡ next_count (lines_fed self.old) }
        ensures says { (nodes : List TreeNode) (lines : List (List ℕ))
            → HasRead self.old nodes lines
            → Says self.old self.new nodes lines line.now ended result }
        ensures failed { IfErr result (λ fault. HasFailed self.new fault) }
        // At a fault the version stays what it was.
        ensures version { IfErr result (λ _. version_read self.new ≡ version_read self.old) }
        // A fault is answered for ever after.
        ensures again { (fault : Fault) → HasFailed self.old fault → result ≡ Err fault }
    {
        self.fed = self.fed.saturating_add(1);
        if !ended {
            return self.step_on(line, ended);
        }
        // Most lines are entries that more entries follow, or nodes of one line.
        match take_in_place(self.alloc, &mut self.place, line) {
            Some(fed) => Ok(fed),
            None => self.step_on(line, ended),
        }
    }

    /// Takes the line that was counted last, at which the place may change.
    // Put in place in `feed`, its room on the stack would be cleared for each line inside a node too.
    #[inline(never)]
    fn step_on(&mut self, line: &[u8], ended: bool) -> Result<Fed, TreeFault>
        ensures count { lines_fed self.new ≡ lines_fed self.old }
        ensures says { (nodes : List TreeNode) (lines : List (List ℕ))
            → HasRead self.old nodes lines
            → Says self.old self.new nodes lines line.now ended result }
        ensures failed { IfErr result (λ fault. HasFailed self.new fault) }
        ensures version { IfErr result (λ _. version_read self.new ≡ version_read self.old) }
        ensures again { (fault : Fault) → HasFailed self.old fault → result ≡ Err fault }
    {
        let place = mem::replace(&mut self.place, Place::Title);
        let Taken { told, place } = take_line(self.alloc, place, line, ended, self.fed);
        self.place = place;
        told
    }
}

/// What the reader says, and its next place.
fn take_line(alloc: Global, place: Place, line: &[u8], ended: bool, number: u64) -> Taken
    ensures says { (nodes : List TreeNode) (lines : List (List ℕ)) → Stands place nodes lines
        → Told place line.now ended number nodes (lines ++ line.now ∷ []) result.place result.told }
    ensures failed { IfErr result.told (λ fault.
        result.place ≡ Place.Failed fault (version_at place)) }
    ensures again { (fault : Fault) → IsFailed place fault → result.told ≡ Err fault }
{
    if let Place::Failed { fault, .. } = place {
        return Taken {
            told: Err(fault),
            place,
        };
    }
    if !ended {
        return failed(TreeFault::Text { line: number }, place.version());
    }
    stepped(alloc, place, line, number)
}

/// A fault, which is kept, in a text of this version.
fn failed(fault: TreeFault, version: Option<Version>) -> Taken
    ensures { result ≡ record { told = Err fault; place = Place.Failed fault version } }
{
    Taken {
        told: Err(fault),
        place: Place::Failed { fault, version },
    }
}

/// What the reader says, and its next place, where it has found no fault before.
fn stepped(alloc: Global, place: Place, line: &[u8], number: u64) -> Taken
    ensures says { (nodes : List TreeNode) (lines : List (List ℕ)) → Stands place nodes lines
        → Told place line.now true number nodes (lines ++ line.now ∷ []) result.place result.told }
    ensures failed { IfErr result.told (λ fault.
        result.place ≡ Place.Failed fault (version_at place)) }
{
    let version = place.version();
    match advance(alloc, place, line) {
        Ok(Next { fed, place }) => Taken {
            told: Ok(fed),
            place,
        },
        Err(stop) => failed(fault_of(stop, number), version),
    }
}

/// The fault of a line with this number that was not taken.
fn fault_of(stop: Stop, number: u64) -> TreeFault
    ensures { result ≡ fault_of_stop stop number }
{
    match stop {
        Stop::Wrong => TreeFault::Text { line: number },
        Stop::TooMany => TreeFault::TooMany { nodes: MOST_NODES },
        Stop::Memory => TreeFault::Memory,
    }
}
