//! What is offered to a book: an entry, and the steps of its node as they were, so that a refusal gives the node back
//! without memory.

ghost use Rattle.std.specs.Prelude.{◌≡◌, IfOk, IsOk, None};
ghost use Rattle.hx_tree.specs.declared.nodes.Rule.TheVariants.{Links, All};
ghost use Rattle.hx_packed.specs.Children.{HasNoLinks};
ghost use Rattle.hx_packed.specs.KeptRules.{rule_of, kept_steps};

use crate::entries::Entry;
use crate::rules::{KeptAnswers, KeptRule};
use crate::steps::KeptSteps;
use hx_board::Memory;
use hx_tree::{FillSteps, Heading, Lines, Node, Rule, Steps, Threats};
use std::alloc::Global;
use std::marker::Model;

/// A node that is offered to a book: its entry, and what gives the node back.
#[derive(Debug, Drop)]
pub struct Offer {
    heading: Heading,
    rule: KeptRule,

    /// The steps that the rule keeps in little room, as they were.
    steps: Option<Steps>,
}

impl Model for Offer {
    ghost use Rattle.std.specs.Prelude.{◌≡◌};
    ghost use Rattle.hx_tree.specs.declared.nodes.Node.{Node};

    ghost Value = { Node };

    ghost use Rattle.hx_packed.specs.KeptRules.{rule_of, kept_steps};

    ghost view = { λ o. record { heading = o.heading; rule = rule_of o.rule } };

    ghost invariant = { λ o. o.steps ≡ kept_steps o.rule };
}

impl Offer {
    /// The offer of a node. It takes no memory for a node that has no links.
    pub fn of(node: Node) -> Result<Offer, Memory>
        ensures node { IfOk result (λ offer. offer ≡ node) }
        ensures memory { HasNoLinks node.rule → IsOk result }
    {
        let Node { heading, rule } = node;
        match rule {
            Rule::Chain => Ok(as_kept(heading, KeptRule::Chain)),
            Rule::Links { steps } => by_links(heading, steps),
            Rule::Move { cell, child } => Ok(as_kept(heading, KeptRule::Move { cell, child })),
            Rule::All {
                steps,
                threats,
                lines,
            } => by_answers(heading, steps, threats, lines),
            Rule::Fill { steps, child } => {
                let steps = fitted(steps);
                Ok(as_kept(heading, KeptRule::Fill { child, steps }))
            }
            Rule::Turned { child } => Ok(as_kept(heading, KeptRule::Turned { child })),
        }
    }

    /// What the node says.
    pub fn heading(&self) -> &Heading
        ensures { result.now ≡ self.now.heading }
    {
        &self.heading
    }

    /// The entry. The steps beside it are dropped.
    pub fn into_entry(self) -> Entry
        ensures { result ≡ self }
    {
        Entry::by_rule(self.heading, self.rule)
    }

    /// The node. It takes no memory.
    pub fn into_node(self) -> Node
        ensures { result ≡ self }
    {
        let Offer {
            heading,
            rule,
            steps,
        } = self;
        let rule = rule.with_steps(steps);
        Node { heading, rule }
    }
}

/// The offer of a node whose rule keeps no steps in little room.
fn as_kept(heading: Heading, rule: KeptRule) -> Offer
    requires { kept_steps rule ≡ None }
    ensures { result ≡ record { heading = heading; rule = rule_of rule } }
{
    let steps = None;
    Offer {
        heading,
        rule,
        steps,
    }
}

/// The offer of a node by these links.
fn by_links(heading: Heading, steps: Steps) -> Result<Offer, Memory>
    ensures { IfOk result (λ offer. offer ≡ record { heading = heading; rule = Links steps }) }
{
    let items = steps.into_inner();
    let alloc = *items.allocator();
    let kept = KeptSteps::of(alloc, items.as_slice());
    let steps = Steps::new(items);
    let Some(kept) = kept else {
        return whole(alloc, heading, Rule::Links { steps });
    };
    let Ok(kept) = Box::new(alloc, kept) else {
        return Err(Memory);
    };
    Ok(Offer {
        heading,
        rule: KeptRule::Links { steps: kept },
        steps: Some(steps),
    })
}

/// The offer of a node by these answers.
fn by_answers(
    heading: Heading,
    steps: Steps,
    threats: Threats,
    lines: Lines,
) -> Result<Offer, Memory>
    ensures { IfOk result (λ offer. offer
        ≡ record { heading = heading; rule = All steps threats lines }) }
{
    let items = steps.into_inner();
    let alloc = *items.allocator();
    let kept = KeptSteps::of(alloc, items.as_slice());
    let steps = Steps::new(items);
    let Some(kept) = kept else {
        let rule = Rule::All {
            steps,
            threats,
            lines,
        };
        return whole(alloc, heading, rule);
    };
    let answers = KeptAnswers {
        steps: kept,
        threats,
        lines,
    };
    let Ok(answers) = Box::new(alloc, answers) else {
        return Err(Memory);
    };
    Ok(Offer {
        heading,
        rule: KeptRule::All { answers },
        steps: Some(steps),
    })
}

/// The offer of a node whose rule is kept as it is.
fn whole(alloc: Global, heading: Heading, rule: Rule) -> Result<Offer, Memory>
    ensures { IfOk result (λ offer. offer ≡ record { heading = heading; rule = rule }) }
{
    match Box::new(alloc, rule) {
        Ok(rule) => Ok(as_kept(heading, KeptRule::Whole { rule })),
        Err(_) => Err(Memory),
    }
}

/// The same fill steps, in no more room than they need.
fn fitted(steps: FillSteps) -> FillSteps
    ensures { result ≡ steps }
{
    let mut items = steps.into_inner();
    items.shrink_to_fit();
    FillSteps::new(items)
}
