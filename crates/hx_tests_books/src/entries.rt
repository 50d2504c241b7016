//! An entry of a node by each rule: it tells what the node says, and gives the node back. So does what a book is
//! offered.

use hx_board::Colour::{Black, White};
use hx_board::{Cell, Position, Size, Vertex};
use hx_inferior::{FillStep, Kill};
use hx_link::{Parts, Step, Steps};
use hx_packed::{Entry, Offer};
use hx_tree::{FillSteps, Heading, Line, Lines, Node, Rule, Threats};
use smallvec::SmallVec;
use std::alloc::Global;
use std::process::Abort;
use std::test::Fail;

/// The child of each rule that leads to one.
const CHILD: u32 = 7;

/// A place that steps in little room can name.
const NEAR: u32 = 1;

/// A place that is too far on for them, so that the rule is kept as it is.
const FAR: u32 = 70_000;

/// What a rule is made of, to make it more than once. The number of Links and of All is a place that their steps name.
#[derive(Clone, Copy)]
enum Plan {
    Chain,
    Links(u32),
    Move,
    All(u32),
    Fill,
    Turned,
}

/// A step of each kind.
fn steps_of(rt: &impl Abort, alloc: Global, cell: Cell, place: u32) -> Steps {
    let places = SmallVec::from_slice(alloc, &[place, 2]).expect(rt, "memory");
    let parts = Parts::new(places);
    let a = Vertex::Of(cell);
    let b = Vertex::First;
    let (left, right) = (place, 0);
    let mut steps = Vec::new(alloc);
    steps.push(Step::Base { a, b }).expect(rt, "memory");
    steps
        .push(Step::AndStone { left, right })
        .expect(rt, "memory");
    steps
        .push(Step::AndCell { left, right })
        .expect(rt, "memory");
    steps.push(Step::Or { parts }).expect(rt, "memory");
    Steps::new(steps)
}

/// A fill step of each kind.
fn fill_steps_of(rt: &impl Abort, alloc: Global, [a, b]: [Cell; 2]) -> FillSteps {
    let steps = [FillStep::Other(a), FillStep::Dead(b), FillStep::Pair(a, b)];
    FillSteps::new(Vec::from_slice(alloc, &steps).expect(rt, "memory"))
}

/// A line of each kind, and with each kind of kill.
fn lines_of([a, b]: [Cell; 2]) -> [Line; 3] {
    [
        Line::Child { cell: a, child: 5 },
        Line::Under {
            cell: b,
            better: a,
            kill: Kill::ByDead,
        },
        Line::Under {
            cell: b,
            better: a,
            kill: Kill::ByPair(a),
        },
    ]
}

/// The rule by answers.
fn answers_of(rt: &impl Abort, alloc: Global, cells: [Cell; 2], place: u32) -> Rule {
    Rule::All {
        steps: steps_of(rt, alloc, cells[0], place),
        threats: Threats::new(Vec::from_slice(alloc, &[3]).expect(rt, "memory")),
        lines: Lines::new(Vec::from_slice(alloc, &lines_of(cells)).expect(rt, "memory")),
    }
}

fn rule_of(rt: &impl Abort, alloc: Global, cells: [Cell; 2], plan: Plan) -> Rule {
    let cell = cells[0];
    let child = CHILD;
    match plan {
        Plan::Chain => Rule::Chain,
        Plan::Links(place) => Rule::Links {
            steps: steps_of(rt, alloc, cell, place),
        },
        Plan::Move => Rule::Move { cell, child },
        Plan::All(place) => answers_of(rt, alloc, cells, place),
        Plan::Fill => Rule::Fill {
            steps: fill_steps_of(rt, alloc, cells),
            child,
        },
        Plan::Turned => Rule::Turned { child },
    }
}

/// The entry of a node tells this child and these lines, and what the same node says; and gives it back.
fn compare(rt: &impl Abort, entry: Entry, node: &Node, child: Option<u32>, lines: &[Line]) {
    assert_eq!(rt; *entry.heading(), node.heading);
    assert_eq!(rt; entry.child(), child);
    assert_eq!(rt; entry.lines(), lines);
    let back = entry.into_node().expect(rt, "memory");
    assert_eq!(rt; back, *node);
}

#[test]
fn a_node_by_each_rule_comes_back(rt: HostRuntime) -> Result<(), Fail> {
    let size = Size::new(2, 2).ok_or("size")?;
    let cells = [size.cell(0, 0).ok_or("a1")?, size.cell(0, 1).ok_or("b1")?];
    let lines = lines_of(cells);
    let heading = Heading {
        position: Position::empty(size),
        to_move: White,
        winner: Black,
    };
    for (plan, child, lines) in [
        (Plan::Chain, None, &lines[..0]),
        (Plan::Links(NEAR), None, &lines[..0]),
        (Plan::Links(FAR), None, &lines[..0]),
        (Plan::Move, Some(CHILD), &lines[..0]),
        (Plan::All(NEAR), None, &lines[..]),
        (Plan::All(FAR), None, &lines[..]),
        (Plan::Fill, Some(CHILD), &lines[..0]),
        (Plan::Turned, Some(CHILD), &lines[..0]),
    ] {
        let rule = rule_of(&rt, rt.alloc(), cells, plan);
        let offer = Offer::of(Node { heading, rule }).expect(&rt, "memory");
        let rule = rule_of(&rt, rt.alloc(), cells, plan);
        let node = Node { heading, rule };
        assert_eq!(rt; *offer.heading(), heading);
        compare(&rt, offer.into_entry(), &node, child, lines);
        let rule = rule_of(&rt, rt.alloc(), cells, plan);
        let offer = Offer::of(Node { heading, rule }).expect(&rt, "memory");
        assert_eq!(rt; offer.into_node(), node);
    }
    Ok(())
}
