//! The rule of a node in little room.

ghost use Rattle.std.specs.Prelude.{◌≡◌, IfOk};
ghost use Rattle.hx_tree.specs.declared.nodes.Rule.TheVariants.{All};
ghost use Rattle.hx_packed.specs.Children.{child_of, lines_of};
ghost use Rattle.hx_packed.specs.KeptRules.{rule_of, kept_steps};

use crate::copies::{copied_fills, copied_lines, copied_rule, copied_threats};
use crate::steps::KeptSteps;
use hx_board::{Cell, Memory};
use hx_tree::{FillSteps, Line, Lines, Rule, Steps, Threats};
use std::alloc::Global;

/// The steps, threats and lines of a node by answers.
#[derive(Debug, Drop)]
pub(crate) struct KeptAnswers {
    pub(crate) steps: KeptSteps,
    pub(crate) threats: Threats,
    pub(crate) lines: Lines,
}

impl KeptAnswers {
    /// The rule by these answers, while they stay.
    fn to_rule(&self, alloc: Global) -> Result<Rule, Memory>
        ensures { IfOk result (λ rule. rule ≡ All self.now.steps self.now.threats self.now.lines) }
    {
        let steps = self.steps.steps()?;
        let threats = copied_threats(alloc, &self.threats)?;
        let lines = copied_lines(alloc, &self.lines)?;
        Ok(Rule::All {
            steps,
            threats,
            lines,
        })
    }

    /// The rule by these answers, with these steps in place of those in little room.
    fn with_steps(self, steps: Steps) -> Rule
        requires { steps ≡ self.steps }
        ensures { result ≡ All self.steps self.threats self.lines }
    {
        let KeptAnswers {
            steps: _,
            threats,
            lines,
        } = self;
        Rule::All {
            steps,
            threats,
            lines,
        }
    }
}

/// A rule in little room. Steps stand behind a pointer, since most rules have none.
#[derive(Debug, Drop)]
pub(crate) enum KeptRule {
    Chain,
    Move { cell: Cell, child: u32 },
    Turned { child: u32 },
    Fill { child: u32, steps: FillSteps },
    Links { steps: Box<KeptSteps> },
    All { answers: Box<KeptAnswers> },

    /// A rule as it was, where a place of its steps is too far on, or memory was wanting.
    Whole { rule: Box<Rule> },
}

impl KeptRule {
    /// The rule as it was. Its steps are made anew where it keeps them in little room.
    pub(crate) fn into_rule(self) -> Result<Rule, Memory>
        ensures { IfOk result (λ rule. rule ≡ rule_of self) }
    {
        let steps = self.steps()?;
        Ok(self.with_steps(steps))
    }

    /// The steps that the rule keeps in little room.
    fn steps(&self) -> Result<Option<Steps>, Memory>
        ensures { IfOk result (λ steps. steps ≡ kept_steps self.now) }
    {
        match self {
            KeptRule::Links { steps } => Ok(Some(steps.steps()?)),
            KeptRule::All { answers } => Ok(Some(answers.steps.steps()?)),
            KeptRule::Chain
            | KeptRule::Move { .. }
            | KeptRule::Turned { .. }
            | KeptRule::Fill { .. }
            | KeptRule::Whole { .. } => Ok(None),
        }
    }

    /// The rule as it was, with these steps in place of those that it keeps in little room. It takes no memory.
    pub(crate) fn with_steps(self, steps: Option<Steps>) -> Rule
        requires { steps ≡ kept_steps self }
        ensures { result ≡ rule_of self }
    {
        match self {
            KeptRule::Chain => Rule::Chain,
            KeptRule::Move { cell, child } => Rule::Move { cell, child },
            KeptRule::Turned { child } => Rule::Turned { child },
            KeptRule::Fill { steps, child } => Rule::Fill { steps, child },
            KeptRule::Links { .. } => match steps {
                Some(steps) => Rule::Links { steps },
                None => unreachable!(),
            },
            KeptRule::All { answers } => match steps {
                Some(steps) => Box::into_inner(answers).with_steps(steps),
                None => unreachable!(),
            },
            KeptRule::Whole { rule } => Box::into_inner(rule),
        }
    }

    /// The rule as it was, while this one stays.
    pub(crate) fn to_rule(&self, alloc: Global) -> Result<Rule, Memory>
        ensures { IfOk result (λ rule. rule ≡ rule_of self.now) }
    {
        match self {
            KeptRule::Chain => Ok(Rule::Chain),
            KeptRule::Move { cell, child } => Ok(Rule::Move {
                cell: *cell,
                child: *child,
            }),
            KeptRule::Turned { child } => Ok(Rule::Turned { child: *child }),
            KeptRule::Fill { child, steps } => {
                let steps = copied_fills(alloc, steps)?;
                Ok(Rule::Fill {
                    steps,
                    child: *child,
                })
            }
            KeptRule::Links { steps } => {
                let steps = steps.steps()?;
                Ok(Rule::Links { steps })
            }
            KeptRule::All { answers } => answers.to_rule(alloc),
            KeptRule::Whole { rule } => copied_rule(alloc, rule),
        }
    }

    /// The one child that the rule leads to. None where it leads to none, or answers moves.
    pub(crate) fn child(&self) -> Option<u32>
        ensures { result ≡ child_of (rule_of self.now) }
    {
        match self {
            KeptRule::Move { child, .. }
            | KeptRule::Turned { child }
            | KeptRule::Fill { child, .. } => Some(*child),
            KeptRule::Whole { rule } => child_of(rule),
            KeptRule::Chain | KeptRule::Links { .. } | KeptRule::All { .. } => None,
        }
    }

    /// The lines of a rule that answers moves. None of another rule.
    pub(crate) fn lines(&self) -> &[Line]
        ensures { result.now ≡ lines_of (rule_of self.now) }
    {
        match self {
            KeptRule::All { answers } => answers.lines.items(),
            KeptRule::Whole { rule } => lines_of(rule),
            KeptRule::Chain
            | KeptRule::Move { .. }
            | KeptRule::Turned { .. }
            | KeptRule::Fill { .. }
            | KeptRule::Links { .. } => &[],
        }
    }
}

/// The one child that a whole rule leads to.
fn child_of(rule: &Rule) -> Option<u32>
    ensures { result ≡ child_of rule.now }
{
    match rule {
        Rule::Move { child, .. } | Rule::Turned { child } | Rule::Fill { child, .. } => {
            Some(*child)
        }
        Rule::Chain | Rule::Links { .. } | Rule::All { .. } => None,
    }
}

/// The lines of a whole rule.
fn lines_of(rule: &Rule) -> &[Line]
    ensures { result.now ≡ lines_of rule.now }
{
    match rule {
        Rule::All { lines, .. } => lines.items(),
        Rule::Chain
        | Rule::Links { .. }
        | Rule::Move { .. }
        | Rule::Fill { .. }
        | Rule::Turned { .. } => &[],
    }
}
