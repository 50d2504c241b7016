//! What one more line does at each place in the text of a tree.

ghost use Rattle.std.specs.Prelude.{◌≡◌, ◌↔◌, IsTrue, IfSome, IfNone, false};
ghost use Rattle.hx_parse.specs.declared.places.TreeFault.{TreeFault as Fault};
ghost use Rattle.hx_parse.specs.Places.{Goes, IsFailed, IsNoHead};

use crate::head_lines::read_head;
use crate::places::{Fed, Next, Place, Stop};
use crate::so_far::SoFar;
use crate::whole_nodes::take_node;
use crate::{lines, node_steps};
use hx_board::Colour;
use hx_text::{Preamble, Version};
use hx_tree::MOST_NODES;
use std::alloc::Global;

/// Takes one more line, without its LF.
pub(crate) fn advance(alloc: Global, place: Place, line: &[u8]) -> Result<Next, Stop>
    ensures { Goes place line.now result }
{
    match place {
        Place::Title => at_title(line),
        Place::Size(version) => at_size(version, line),
        Place::Between(so_far) => between(alloc, so_far, line),
        Place::Inside(begun) => node_steps::inside(alloc, begun, line),
        // No line follows the last; and after a fault the reader comes here no more.
        Place::After(_) | Place::Failed { .. } => Err(Stop::Wrong),
    }
}

/// Takes a line that changes little, so that the place can stay where it is: one of a node that more lines of it
/// follow, or a node of one line. What it brought. None where it is another line; then the place is as it was.
pub(crate) fn take_in_place(alloc: Global, place: &mut Place, line: &[u8]) -> Option<Fed>
    ensures yes { IfSome result (λ fed.
        Goes place.old line.now (Ok (record { fed = fed; place = place.new }))) }
    ensures no { IfNone result (place.new ≡ place.old) }
    ensures failed { (fault : Fault) → IsFailed place.old fault → result ≡ None }
{
    match place {
        Place::Inside(begun) => {
            if node_steps::goes_on(alloc, begun, line) {
                Some(Fed::More)
            } else {
                None
            }
        }
        Place::Between(so_far) => match take_node(so_far, line) {
            Some(node) => Some(Fed::Node(node)),
            None => None,
        },
        _ => None,
    }
}

/// Takes the title.
fn at_title(line: &[u8]) -> Result<Next, Stop>
    ensures { Goes Place.Title line.now result }
{
    match lines::read_title(line) {
        Some(version) => Ok(Next {
            fed: Fed::More,
            place: Place::Size(version),
        }),
        None => Err(Stop::Wrong),
    }
}

/// Takes the line of the size.
fn at_size(version: Version, line: &[u8]) -> Result<Next, Stop>
    ensures { Goes (Place.Size version) line.now result }
{
    match lines::read_size(line) {
        Some(size) => {
            let so_far = SoFar {
                preamble: Preamble { version, size },
                count: 0,
                winner: None,
            };
            Ok(Next {
                fed: Fed::More,
                place: Place::Between(so_far),
            })
        }
        None => Err(Stop::Wrong),
    }
}

/// Takes the first line of a node, or the last line.
fn between(alloc: Global, so_far: SoFar, line: &[u8]) -> Result<Next, Stop>
    ensures { Goes (Place.Between so_far) line.now result }
{
    match read_head(&so_far.preamble, line) {
        Some(head) => {
            if so_far.count < MOST_NODES {
                node_steps::begin(alloc, so_far, head)
            } else {
                Err(Stop::TooMany)
            }
        }
        None => at_end(so_far, line),
    }
}

/// Takes a line that is no first line of a node.
fn at_end(so_far: SoFar, line: &[u8]) -> Result<Next, Stop>
    requires { IsNoHead so_far.preamble line.now }
    ensures { Goes (Place.Between so_far) line.now result }
{
    let SoFar {
        preamble,
        count,
        winner,
    } = so_far;
    match lines::read_end(line) {
        Some(end) => {
            if is_end(count, winner, end) {
                Ok(Next {
                    fed: Fed::End(end.winner),
                    place: Place::After(preamble),
                })
            } else {
                Err(Stop::Wrong)
            }
        }
        None => Err(Stop::Wrong),
    }
}

/// Whether these are the number of nodes and the winner of the last.
fn is_end(count: u32, winner: Option<Colour>, end: lines::End) -> bool
    ensures { IsTrue result ↔ ((end.count ≡ count) × (winner ≡ Some end.winner)) }
{
    match winner {
        Some(last) => end.count == count && last == end.winner,
        None => false,
    }
}
