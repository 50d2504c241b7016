//! What a search comes to: the tree of the entry that a worker proved, or what was wanting.

ghost use Rattle.std.specs.Prelude.{◌≡◌, ◌<◌, ◌≤◌, length, slice_get, IfOk, IfErr};
ghost use Rattle.hx_book.specs.declared.books.TheConstants.{MOST_SLOTS};
ghost use Rattle.hx_tree.specs.Plain.{ArePlain};
ghost use Rattle.hx_tree.specs.Trees.{AreRight, headings_of};
ghost use Rattle.hx_limits.specs.Causes.{LacksMemory};
ghost use Rattle.hx_solve.specs.Searches.{HasEntryFor, IsTreeFor, IsTreeFrom, SaysWhy};

use hx_book::{Book, tree_of};
use hx_limits::RanOut;
use hx_naming::name_move;
use hx_packed::Entry;
use hx_pool::Searched;
use hx_tree::{Found, Node};
use std::alloc::Global;

/// The tree that the book has, where the end is a proof, and else what was wanting. Where a move is to be named, the
/// root names one if one is found.
pub(crate) fn conclude(
    alloc: Global,
    searched: Searched<Book, Found>,
    names_move: bool,
) -> Result<Vec<Node>, RanOut>
    requires { HasEntryFor searched.book.nodes searched.end }
    ensures tree { IfOk result (λ tree. IsTreeFrom searched.book.nodes searched.end tree.items) }
    ensures cause { IfErr result (SaysWhy searched.end) }
{
    let Searched {
        book,
        totals: _,
        end,
    } = searched;
    let found = end?;
    book.keeps();
    tree_at(alloc, book.into_entries(), found.index, names_move)
}

/// The tree of the entry at a place. Where a move is to be named, further nodes may be added for it first.
pub(crate) fn tree_at(
    alloc: Global,
    nodes: Vec<Entry>,
    place: u32,
    names_move: bool,
) -> Result<Vec<Node>, RanOut>
    requires right { AreRight nodes.items }
    requires few { length nodes.items ≤ MOST_SLOTS }
    requires inside { place < length nodes.items }
    ensures tree { IfOk result (λ tree. IsTreeFor nodes.items place tree.items) }
    ensures plain { ArePlain nodes.items → IfOk result (λ tree. ArePlain tree.items) }
    ensures memory { IfErr result LacksMemory }
{
    let mut nodes = nodes;
    let root = root_for(alloc, &mut nodes, place, names_move);
    Ok(tree_of(alloc, nodes, root)?)
}

/// The place of the tree's root: of the entry itself, or where a move is to be named and one is found of a node that is
/// added for it.
fn root_for(alloc: Global, nodes: &mut Vec<Entry>, place: u32, names_move: bool) -> u32
    requires right { AreRight nodes.old.items }
    requires few { length nodes.old.items ≤ MOST_SLOTS }
    requires inside { place < length nodes.old.items }
    ensures right { AreRight nodes.new.items }
    ensures few { length nodes.new.items ≤ MOST_SLOTS }
    ensures inside { result < length nodes.new.items }
    ensures same_heading { slice_get (headings_of nodes.new.items) result
        ≡ slice_get (headings_of nodes.old.items) place }
    ensures plain { ArePlain nodes.old.items → ArePlain nodes.new.items }
{
    if names_move {
        name_move(alloc, nodes, place)
    } else {
        place
    }
}
