ghost use Rattle.std.specs.Prelude.{◌≡◌, ◌≢◌, [], true};
ghost use Rattle.plasma_tx.specs.Chain.{with_log};
ghost use Rattle.plasma_tx.specs.Shown.{tests_by, rules_of};
ghost use Rattle.plasma_tx.specs.Money.{balance_of};
ghost use Rattle.plasma_tx.specs.Table.{answer_to, log_after, IsLegal};
ghost use Rattle.root_contract.specs.Judging.{Takes, may_want};

use super::stop::{Stop, answer_of};
use bond_ledger::Ledger;
use exit_game::Game;
use plasma_base::Hash32;
use plasma_tx::{Answer, RootCall, RootLog};
use std::alloc::Global;
use std::marker::Model;

/// The root contract. Contracts see it as the chain that its log shows.
#[derive(Drop)]
pub struct Contract {
    pub(crate) log: RootLog,
    pub(crate) game: Game,
    pub(crate) ledger: Ledger,
    pub(crate) alloc: Global,
}

impl Model for Contract {
    ghost use Rattle.plasma_tx.specs.Chain.{Chain};

    ghost Value = { Chain };

    ghost use Rattle.root_contract.specs.Agreement.{IsContract};

    ghost view = { λ a. a.log };

    ghost invariant = { IsContract };
}

impl Contract {
    /// A contract without calls, whose chain has this tag, this operator and at most so many blocks. It
    /// takes no memory.
    pub fn make(alloc: Global, tag: [u8; 32], operator: u64, most_blocks: u64) -> Contract
        ensures { result ≡ record { tag = tag; operator = operator; most_blocks = most_blocks; log = [] } }
    {
        Contract {
            log: RootLog::make(alloc, tag, operator, most_blocks),
            game: Game::new(alloc),
            ledger: Ledger::new(alloc),
            alloc,
        }
    }

    /// The accepted calls, and what the contract was made with. Each was accepted after those before
    /// it, so the laws of the rules on such logs hold of it.
    pub fn log(&self) -> &RootLog
        ensures chain { result.now ≡ self.now }
        ensures legal { IsLegal (rules_of self.now) self.now.log }
    {
        &self.log
    }

    /// The account's balance; 0 for an account that no call has named.
    pub fn balance(&self, account: u64) -> u64
        ensures { result ≡ balance_of self.now.log account }
    {
        self.ledger.balance(account)
    }

    /// Answers a call, whose openings are read under the digest. A refusal names the first cause that
    /// holds, and neither it nor `NoMemory` changes anything; an accepted call is appended to the log.
    pub fn call<H: Hash32>(&mut self, h: &H, call: &RootCall) -> Answer
        ensures answer { result ≢ Answer.NoMemory
            → result ≡ answer_to (tests_by (H.digest_of h.now)) (rules_of self.old) self.old.log call.now }
        ensures log { result ≢ Answer.NoMemory → self.new
            ≡ with_log self.old (log_after (tests_by (H.digest_of h.now)) (rules_of self.old) self.old.log call.now) }
        ensures no_memory { result ≡ Answer.NoMemory → self.new ≡ self.old }

        // Memory runs out only of a call that may show an opening, or that is accepted: no other refusal
        // hides behind it.
        ensures memory { result ≡ Answer.NoMemory
            → may_want (tests_by (H.digest_of h.now)) self.old call.now ≡ true }
    {
        answer_of(self.take(h, call))
    }

    /// Judges a call, and carries it out where it is accepted.
    fn take<H: Hash32>(&mut self, h: &H, call: &RootCall) -> Result<Answer, Stop>
        ensures { Takes (tests_by (H.digest_of h.now)) self.old self.new call.now result }
    {
        match call {
            RootCall::Fund { account, amount } => self.fund(*account, *amount),
            RootCall::Tick { now } => self.tick(*now),
            RootCall::Deposit {
                account,
                amount,
                key,
            } => self.deposit(*account, *amount, *key),
            RootCall::Commit { account, root } => self.commit(*account, *root),
            RootCall::StartDeposit {
                account,
                coin,
                block,
            } => self.start_deposit(*account, *coin, *block),
            RootCall::StartSpend {
                account,
                coin,
                parent,
                exit,
            } => self.start_spend(h, *account, *coin, parent, exit),
            RootCall::After {
                account,
                coin,
                exit,
                spend,
            } => self.after(h, *account, *coin, *exit, spend),
            RootCall::Between {
                account,
                coin,
                exit,
                spend,
            } => self.between(h, *account, *coin, *exit, spend),
            RootCall::Before {
                account,
                coin,
                exit,
                shown,
            } => self.before(h, *account, *coin, *exit, shown),
            RootCall::Respond {
                account,
                coin,
                exit,
                challenged,
                spend,
            } => self.respond(h, *account, *coin, *exit, *challenged, spend),
            RootCall::Finish {
                account,
                coin,
                exit,
            } => self.finish(*account, *coin, *exit),
        }
    }
}
