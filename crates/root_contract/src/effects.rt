ghost use Rattle.std.specs.Prelude.{◌≡◌, ◌+◌, ◌-◌, ◌≤◌, ◌∷◌, ◌++◌, [], None, IsSome, IsTrue, IfSome, OnOk, OnErr};
ghost use Rattle.bond_ledger.specs.Ledger.{balance_in, held_in, funded_in, is_known, HasSums};
ghost use Rattle.plasma_tx.specs.Chain.{with_log};
ghost use Rattle.plasma_tx.specs.Views.{exits, exit_at, coin_at, is_withdrawn, without_exit, with_exit_changed, with_challenge, with_answer};
ghost use Rattle.plasma_tx.specs.Money.{amount_of, moved, share_of, cancel_pays, exit_bonds, finish_pays, finish_releases};
ghost use Rattle.root_contract.specs.Exits.{as_exit, as_challenge, IsOpen, IsUnchallenged};
ghost use Rattle.root_contract.specs.Changes.{Changes, IsAccepted, SameMoney};
ghost use Rattle.root_contract.specs.Settling.{unpaid_of};

use super::contract::Contract;
use super::settling::{cancel_exit, finish_exit};
use bond_ledger::Ledger;
use exit_game::{Challenge, Slot};
use plasma_base::NoMemory;
use plasma_tx::{CHALLENGE_BOND, EXIT_BOND, MOST_MONEY, Movement, RootCall};

// Each of these carries out a call that is accepted: memory is taken first, so that what follows can't fail.
impl Contract {
    // A call that changes nothing beside the log.
    pub(crate) fn keep(&mut self, call: RootCall) -> Result<(), NoMemory>
        requires { Changes self.old call (exits self.old.log) [] [] [] }
        ensures ok { OnOk result (self.new ≡ with_log self.old (call ∷ self.old.log)) }
        ensures err { OnErr result (self.new ≡ self.old) }
    {
        self.log.push(call)?;
        Ok(())
    }

    // Money from outside.
    pub(crate) fn fund_account(&mut self, account: u64, amount: u64) -> Result<(), NoMemory>
        requires { IsAccepted self.old (RootCall.Fund account amount) }
        ensures ok { OnOk result (self.new ≡ with_log self.old (RootCall.Fund account amount ∷ self.old.log)) }
        ensures err { OnErr result (self.new ≡ self.old) }
    {
        self.ledger.know(account)?;
        self.log.push(RootCall::Fund { account, amount })?;
        add_money(&mut self.ledger, account, amount);
        Ok(())
    }

    // Money of an account is held from now on.
    pub(crate) fn hold(&mut self, call: RootCall, account: u64, amount: u64) -> Result<(), NoMemory>
        requires { Changes self.old call (exits self.old.log) [] (moved account amount ∷ []) [] }
        ensures ok { OnOk result (self.new ≡ with_log self.old (call ∷ self.old.log)) }
        ensures err { OnErr result (self.new ≡ self.old) }
    {
        self.log.push(call)?;
        hold_money(&mut self.ledger, account, amount);
        Ok(())
    }

    // An exit starts, with its bond. Where the log finds no memory, the slot is taken back.
    pub(crate) fn start(&mut self, call: RootCall, slot: Slot) -> Result<(), NoMemory>
        requires none { exit_at self.old.log slot.coin slot.block ≡ None }
        requires changes { Changes self.old call (exits self.old.log ++ as_exit slot ∷ []) []
            (moved slot.owner.account EXIT_BOND ∷ []) [] }
        ensures ok { OnOk result (self.new ≡ with_log self.old (call ∷ self.old.log)) }
        ensures err { OnErr result (self.new ≡ self.old) }
    {
        let (coin, block, account) = (slot.coin, slot.block, slot.owner.account);
        self.game.start(slot)?;
        if let Err(NoMemory) = self.log.push(call) {
            let _ = self.game.after(coin, block);
            return Err(NoMemory);
        }
        hold_money(&mut self.ledger, account, EXIT_BOND);
        Ok(())
    }

    // An exit is cancelled.
    pub(crate) fn cancel(
        &mut self,
        call: RootCall,
        challenger: u64,
        coin: u64,
        block: u64,
    ) -> Result<(), NoMemory>
        requires stands { IsSome (exit_at self.old.log coin block) }
        requires changes { let exit = exit_at self.old.log coin block in
            Changes self.old call (without_exit coin block (exits self.old.log)) (cancel_pays challenger exit) []
            (exit_bonds exit) }
        ensures ok { OnOk result (self.new ≡ with_log self.old (call ∷ self.old.log)) }
        ensures err { OnErr result (self.new ≡ self.old) }
    {
        self.ledger.know(challenger)?;
        self.log.push(call)?;
        cancel_exit(&mut self.game, &mut self.ledger, coin, block, challenger);
        Ok(())
    }

    // An exit is challenged, with a bond. Where the log finds no memory, the challenge is taken back.
    pub(crate) fn challenge(
        &mut self,
        call: RootCall,
        coin: u64,
        block: u64,
        challenge: Challenge,
    ) -> Result<(), NoMemory>
        requires none { IsUnchallenged challenge.block (exit_at self.old.log coin block) }
        requires changes { Changes self.old call
            (with_exit_changed coin block (with_challenge (as_challenge challenge)) (exits self.old.log)) []
            (moved challenge.by CHALLENGE_BOND ∷ []) [] }
        ensures ok { OnOk result (self.new ≡ with_log self.old (call ∷ self.old.log)) }
        ensures err { OnErr result (self.new ≡ self.old) }
    {
        self.game.before(coin, block, challenge)?;
        if let Err(NoMemory) = self.log.push(call) {
            self.game.unchallenge(coin, block);
            return Err(NoMemory);
        }
        hold_money(&mut self.ledger, challenge.by, CHALLENGE_BOND);
        Ok(())
    }

    // A challenge is answered, and its bond, which was `by`'s, goes to the account.
    pub(crate) fn answer_challenge(
        &mut self,
        call: RootCall,
        account: u64,
        coin: u64,
        block: u64,
        challenged: u64,
        by: u64,
    ) -> Result<(), NoMemory>
        requires open_still { IsOpen challenged (exit_at self.old.log coin block) }
        requires changes { Changes self.old call
            (with_exit_changed coin block (with_answer challenged) (exits self.old.log))
            (moved account CHALLENGE_BOND ∷ []) [] (moved by CHALLENGE_BOND ∷ []) }
        ensures ok { OnOk result (self.new ≡ with_log self.old (call ∷ self.old.log)) }
        ensures err { OnErr result (self.new ≡ self.old) }
    {
        self.ledger.know(account)?;
        self.log.push(call)?;
        self.game.respond(coin, block, challenged);
        pay_bond(&mut self.ledger, by, account);
        Ok(())
    }

    // An exit is finished.
    pub(crate) fn settle(&mut self, call: RootCall, coin: u64, block: u64) -> Result<(), NoMemory>
        requires stands { IsSome (exit_at self.old.log coin block) }
        requires changes { let log = self.old.log in let exit = exit_at log coin block in
            Changes self.old call (without_exit coin block (exits log))
            (finish_pays (is_withdrawn log coin) (amount_of (coin_at log coin)) exit) []
            (finish_releases (is_withdrawn log coin) (coin_at log coin) exit) }
        ensures ok { OnOk result (self.new ≡ with_log self.old (call ∷ self.old.log)) }
        ensures err { OnErr result (self.new ≡ self.old) }
    {
        let unpaid = self.unpaid(coin);
        know_payer(&mut self.ledger, unpaid)?;
        self.log.push(call)?;
        finish_exit(&mut self.game, &mut self.ledger, coin, block, unpaid);
        Ok(())
    }

    // What is held of the coin's depositor; `None` where the coin is withdrawn.
    fn unpaid(&self, coin: u64) -> Option<Movement>
        ensures { result ≡ unpaid_of (is_withdrawn self.now.log coin) (coin_at self.now.log coin) }
    {
        if self.is_withdrawn(coin) {
            return None;
        }
        let made = self.coin_at(coin)?;
        Some(Movement {
            account: made.owner.account,
            amount: made.amount,
        })
    }
}

// Makes the account known of which a coin's amount is held.
fn know_payer(ledger: &mut Ledger, unpaid: Option<Movement>) -> Result<(), NoMemory>
    ensures known { OnOk result (IfSome unpaid (λ amount. IsTrue (is_known ledger.new amount.account))) }
    ensures same { SameMoney ledger.old ledger.new }
{
    match unpaid {
        Some(amount) => ledger.know(amount.account),
        None => Ok(()),
    }
}

// Adds money of an account that is known, where all that was funded stays within the limit.
fn add_money(ledger: &mut Ledger, account: u64, amount: u64)
    requires known { IsTrue (is_known ledger.old account) }
    requires fits { funded_in ledger.old + amount ≤ MOST_MONEY }
    ensures { HasSums ledger.old ledger.new
        (λ a. balance_in ledger.old a + share_of a (moved account amount ∷ []))
        (held_in ledger.old) (funded_in ledger.old + amount) }
{
    let _ = ledger.fund(account, amount);
}

// Holds money that the account has.
fn hold_money(ledger: &mut Ledger, account: u64, amount: u64)
    requires { amount ≤ balance_in ledger.old account }
    ensures { HasSums ledger.old ledger.new
        (λ a. balance_in ledger.old a - share_of a (moved account amount ∷ []))
        (λ a. held_in ledger.old a + share_of a (moved account amount ∷ [])) (funded_in ledger.old) }
{
    let _ = ledger.hold(account, amount);
}

// Pays a challenge's bond, which is held of one account, to another that is known, or to the same.
fn pay_bond(ledger: &mut Ledger, from: u64, to: u64)
    requires known { IsTrue (is_known ledger.old to) }
    requires held { CHALLENGE_BOND ≤ held_in ledger.old from }
    ensures { HasSums ledger.old ledger.new
        (λ a. balance_in ledger.old a + share_of a (moved to CHALLENGE_BOND ∷ []))
        (λ a. held_in ledger.old a - share_of a (moved from CHALLENGE_BOND ∷ [])) (funded_in ledger.old) }
{
    ledger.pay_held(from, to, CHALLENGE_BOND);
}
