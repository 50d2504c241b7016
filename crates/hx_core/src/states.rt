//! The state of the machine.

ghost use Rattle.std.specs.Prelude.{◌≡◌, ◌<◌, ◌≤◌, ◌^◌, IfOk, false, replicate};
ghost use Rattle.hx_tree.specs.declared.checkers.TheConstants.{MOST_NODES};
ghost use Rattle.hx_count.specs.Machine.{account};
ghost use Rattle.hx_core.specs.Machine.{machine_start};

use crate::accounts::Account;
use hx_board::Memory;
use hx_tree::Node;
use std::alloc::Global;
use std::marker::Model;

/// What workers share: the list of nodes and how many of them each worker has seen, and the budget and each worker's
/// account. All memory is taken at the start.
#[derive(Drop)]
pub struct State {
    pub(crate) slots: u32,
    pub(crate) nodes: Vec<Node>,

    /// For each worker, how many nodes at the front of the list it has seen.
    pub(crate) seen: Vec<u32>,
    pub(crate) budget: u64,
    pub(crate) accounts: Vec<Account>,
}

impl Model for State {
    ghost use Rattle.std.specs.Prelude.{vec_capacity};
    ghost use Rattle.hx_core.specs.Machine.{MachineState};

    ghost Value = { MachineState };

    ghost use Rattle.hx_core.specs.Fields.{machine, FieldsKeep};

    ghost view = { λ s. machine s.slots s.nodes.items s.seen.items s.budget s.accounts.items };

    ghost invariant = { λ s. FieldsKeep
        (machine s.slots s.nodes.items s.seen.items s.budget s.accounts.items)
        (vec_capacity s.nodes) };
}

impl State {
    /// The start: no node, no unit granted, nothing held. There may be so many workers, nodes, units and loss words.
    pub fn start(
        alloc: Global,
        workers: u32,
        slots: u32,
        budget: u64,
        words: u32,
    ) -> Result<State, Memory>
        requires some_worker { 0 < workers }
        requires few_workers { workers ≤ 64 }
        requires few_slots { slots ≤ MOST_NODES }
        requires small_budget { budget ≤ 2 ^ 40 }
        requires some_word { 0 < words }
        requires few_words { words ≤ 65536 }
        ensures { IfOk result (λ s. s ≡ machine_start workers slots budget words) }
    {
        let Ok(nodes) = Vec::with_capacity(alloc, slots as usize) else {
            return Err(Memory);
        };
        let Ok(seen) = vec![in alloc; 0u32; workers as usize] else {
            return Err(Memory);
        };
        let accounts = start_accounts(alloc, workers, words)?;
        Ok(State {
            slots,
            nodes,
            seen,
            budget,
            accounts,
        })
    }
}

/// The accounts of so many workers at the start.
fn start_accounts(alloc: Global, workers: u32, words: u32) -> Result<Vec<Account>, Memory>
    ensures { IfOk result (λ a. a.items ≡ replicate workers (account 0 false (replicate words 0))) }
{
    let mut accounts = Vec::new(alloc);
    for _ in 0..workers {
        let account = Account::start(alloc, words)?;
        if accounts.push(account).is_err() {
            return Err(Memory);
        }
    }
    Ok(accounts)
}
