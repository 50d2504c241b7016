//! What workers do with the counts: spend units, and hold, release and look at loss words.

ghost use Rattle.std.specs.Prelude.{◌≡◌, ◌≤◌, ◌^◌, sum_by, slice_index};
ghost use Rattle.hx_count.specs.Machine.{Account as Holding, losses_at};
ghost use Rattle.hx_core.specs.declared.events.Event.TheVariants.{Spend, Hold, Release};
ghost use Rattle.hx_core.specs.Machine.{CanHappen, MachineStep};

use crate::accounts::Account;
use crate::events::Reply;
use crate::states::State;

impl State {
    /// A worker asks for a unit, which it gets while one is left.
    pub(crate) fn spend(&mut self, worker: u32) -> Reply
        requires { CanHappen self.old (Spend worker) }
        ensures { MachineStep self.old (Spend worker) result self.new }
    {
        let granted = granted_to_all(self.accounts.as_slice());
        if granted < self.budget {
            self.accounts[worker as usize].grant();
            return Reply::Granted;
        }
        self.accounts[worker as usize].refuse();
        Reply::Spent(self.budget)
    }

    /// A worker holds a word once more.
    pub(crate) fn hold(&mut self, worker: u32, word: u32) -> Reply
        requires { CanHappen self.old (Hold worker word) }
        ensures { MachineStep self.old (Hold worker word) result self.new }
    {
        self.accounts[worker as usize].hold(word);
        Reply::Held
    }

    /// A worker holds a word once less.
    pub(crate) fn release(&mut self, worker: u32, word: u32) -> Reply
        requires { CanHappen self.old (Release worker word) }
        ensures { MachineStep self.old (Release worker word) result self.new }
    {
        self.accounts[worker as usize].release(word);
        Reply::Released
    }

    /// How often all workers together hold a word.
    pub(crate) fn losses(&self, word: u32) -> u64
        ensures { result ≡ losses_at self.now.counts word }
    {
        held_by_all(self.accounts.as_slice(), word)
    }
}

/// The units that are granted to all.
fn granted_to_all(accounts: &[Account]) -> u64
    requires { sum_by (λ (a : Holding). a.granted) accounts.now ≤ 2 ^ 40 }
    ensures { result ≡ sum_by (λ (a : Holding). a.granted) accounts.now }
{
    let mut granted = 0;
    for account in accounts {
        granted += account.granted();
    }
    granted
}

/// How often a word is held, over all accounts.
fn held_by_all(accounts: &[Account], word: u32) -> u64
    requires { sum_by (λ (a : Holding). slice_index a.held word) accounts.now ≤ 2 ^ 40 }
    ensures { result ≡ sum_by (λ (a : Holding). slice_index a.held word) accounts.now }
{
    let mut held = 0;
    for account in accounts {
        held += u64::from(account.times(word));
    }
    held
}
