ghost use Rattle.std.specs.Prelude.{◌≡◌, ◌≢◌, Err, ◌+◌, ◌∷◌, [], Some, IfOk};
ghost use Rattle.std.specs.Option.{option_map};
ghost use Rattle.plasma_tx.specs.declared.answer.Answer.{Answer};
ghost use Rattle.plasma_tx.specs.Views.{now, blocks, coins, coin_at, owner_of, owner_of_coin, owner_of_opening};
ghost use Rattle.plasma_tx.specs.Shown.{tests_by, rules_of, shown_tx, shown_owner};
ghost use Rattle.plasma_tx.specs.Table.{decided, fund_causes, tick_causes, deposit_causes, commit_causes, start_deposit_causes, start_spend_causes, where_coin};
ghost use Rattle.root_contract.specs.Judging.{Judges, spend_causes};

use super::contract::Contract;
use super::stop::Stop;
use super::views::is_key;
use plasma_base::Hash32;
use plasma_tx::{EXIT_BOND, EXIT_PERIOD, LAST_TIME, MOST_MONEY, Owner, RawOpening, Refusal, Shown};

/// Who owned a coin after the parent of an exit, and who after the exit's block.
#[derive(Clone, Copy, PartialEq, Eq)]
pub struct Owners {
    pub parent: Owner,
    pub exit: Owner,
}

// Each of these finds the first cause by which a call is refused, in the order of the table.
impl Contract {
    pub(crate) fn judge_fund(&self, amount: u64) -> Result<(), Stop>
        ensures answer { Judges (decided (fund_causes self.now.log amount) Answer.Funded) (λ _. Answer.Funded) result }
        ensures never { result ≢ Err Stop.NoMemory }
    {
        if MOST_MONEY - self.funded() < amount {
            return Err(Stop::Refused(Refusal::SumTooLarge));
        }
        Ok(())
    }

    pub(crate) fn judge_tick(&self, time: u64) -> Result<(), Stop>
        ensures answer { Judges (decided (tick_causes self.now.log time) Answer.Ticked) (λ _. Answer.Ticked) result }
        ensures never { result ≢ Err Stop.NoMemory }
    {
        let now = self.clock();
        if time < now {
            return Err(Stop::Refused(Refusal::ClockBack { now }));
        }
        if time > LAST_TIME {
            return Err(Stop::Refused(Refusal::ClockTooLarge));
        }
        Ok(())
    }

    pub(crate) fn judge_deposit(
        &self,
        account: u64,
        amount: u64,
        key: &[u8; 56],
    ) -> Result<(), Stop>
        ensures answer { let effect = Answer.Deposited (coins self.now.log + 1) (blocks self.now.log + 1) in Judges
            (decided (deposit_causes (rules_of self.now) self.now.log account amount key.now) effect) (λ _. effect)
            result }
        ensures never { result ≢ Err Stop.NoMemory }
    {
        if amount == 0 {
            return Err(Stop::Refused(Refusal::BadAmount));
        }
        if !is_key(key) {
            return Err(Stop::Refused(Refusal::BadKey));
        }
        let has = self.balance(account);
        if has < amount {
            return Err(Stop::Refused(Refusal::NoFunds { has, needs: amount }));
        }
        if self.is_full() {
            return Err(Stop::Refused(Refusal::TooManyBlocks));
        }
        Ok(())
    }

    pub(crate) fn judge_commit(&self, account: u64) -> Result<(), Stop>
        ensures answer { let effect = Answer.Committed (blocks self.now.log + 1) in Judges
            (decided (commit_causes (rules_of self.now) self.now.log account) effect) (λ _. effect) result }
        ensures never { result ≢ Err Stop.NoMemory }
    {
        if account != self.log.operator() {
            return Err(Stop::Refused(Refusal::NotOperator));
        }
        if self.is_full() {
            return Err(Stop::Refused(Refusal::TooManyBlocks));
        }
        Ok(())
    }

    // Hands out the depositor, who owns the coin.
    pub(crate) fn judge_start_deposit(
        &self,
        account: u64,
        coin: u64,
        block: u64,
    ) -> Result<Owner, Stop>
        ensures answer { let effect = Answer.Started (now self.now.log + EXIT_PERIOD) in
            Judges (where_coin (coin_at self.now.log coin)
            (λ made. decided (start_deposit_causes self.now.log account coin block made) effect)) (λ _. effect)
            result }
        ensures owner { IfOk result (λ owner. owner ≡ owner_of_coin (coin_at self.now.log coin)) }
        ensures never { result ≢ Err Stop.NoMemory }
    {
        let Some(made) = self.coin_at(coin) else {
            return Err(Stop::Refused(Refusal::NoCoin));
        };
        if self.is_withdrawn(coin) {
            return Err(Stop::Refused(Refusal::Withdrawn));
        }
        if block != made.deposit {
            return Err(Stop::Refused(Refusal::BadBlock));
        }
        if account != made.owner.account {
            return Err(Stop::Refused(Refusal::NotOwner));
        }
        if self.exit_at(coin, block).is_some() {
            return Err(Stop::Refused(Refusal::ExitStands));
        }
        let has = self.balance(account);
        if has < EXIT_BOND {
            return Err(Stop::Refused(Refusal::NoFunds {
                has,
                needs: EXIT_BOND,
            }));
        }
        Ok(made.owner)
    }

    // Whether a transfer of the coin spends the block, and was signed by its owner. Hands out the new owner.
    pub(crate) fn judge_spend<H: Hash32>(
        &self,
        h: &H,
        coin: u64,
        spend: &RawOpening,
        parent: u64,
        owner: &Owner,
    ) -> Result<Owner, Stop>
        ensures answer { (effect : Answer) → let tests = tests_by (H.digest_of h.now) in
            Judges (decided (spend_causes tests parent owner.now
            (shown_tx tests (rules_of self.now) self.now.log coin spend.now)) effect) (λ _. effect) result }
        ensures to { IfOk result (λ to. option_map (λ tx. tx.body.to)
            (shown_tx (tests_by (H.digest_of h.now)) (rules_of self.now) self.now.log coin spend.now) ≡ Some to) }
    {
        let Some(tx) = self.shown(h, coin, spend)? else {
            return Err(Stop::Refused(Refusal::BadOpening));
        };
        if tx.body.parent != parent {
            return Err(Stop::Refused(Refusal::NotChild));
        }
        if !self.log.signed_by(&tx, owner) {
            return Err(Stop::Refused(Refusal::BadSignature));
        }
        Ok(tx.body.to)
    }

    // Hands out the owners after the parent and after the exit's block, so that no opening is read again.
    pub(crate) fn judge_start_spend<H: Hash32>(
        &self,
        h: &H,
        account: u64,
        coin: u64,
        parent: &Shown,
        exit: &RawOpening,
    ) -> Result<Owners, Stop>
        ensures answer { let effect = Answer.Started (now self.now.log + EXIT_PERIOD) in
            let tests = tests_by (H.digest_of h.now) in let rules = rules_of self.now in let log = self.now.log in
            Judges (where_coin (coin_at log coin)
            (λ made. decided (start_spend_causes tests log account coin parent.now exit.now.block
            (shown_owner tests rules log coin parent.now) (shown_tx tests rules log coin exit.now) made) effect))
            (λ _. effect) result }
        ensures parent { IfOk result (λ owners. owners.parent ≡ owner_of self.now.log coin parent.now) }
        ensures exit { IfOk result (λ owners. owners.exit ≡ owner_of_opening exit.now) }
        ensures account { IfOk result (λ owners. owners.exit.account ≡ account) }
    {
        let Some(made) = self.coin_at(coin) else {
            return Err(Stop::Refused(Refusal::NoCoin));
        };
        if self.is_withdrawn(coin) {
            return Err(Stop::Refused(Refusal::Withdrawn));
        }
        if !self.is_committed_after(made.deposit, exit.block)
            || !self.is_parent_of(&made, exit.block, parent)
        {
            return Err(Stop::Refused(Refusal::BadBlock));
        }
        let Some(owner) = self.shown_owner(h, coin, parent)? else {
            return Err(Stop::Refused(Refusal::BadOpening));
        };
        let to = match self.judge_spend(h, coin, exit, parent.block(), &owner) {
            Ok(to) => to,
            Err(stop) => return Err(stop),
        };
        if to.account != account {
            return Err(Stop::Refused(Refusal::NotOwner));
        }
        if self.exit_at(coin, exit.block).is_some() {
            return Err(Stop::Refused(Refusal::ExitStands));
        }
        let has = self.balance(account);
        if has < EXIT_BOND {
            return Err(Stop::Refused(Refusal::NoFunds {
                has,
                needs: EXIT_BOND,
            }));
        }
        Ok(Owners {
            parent: owner,
            exit: to,
        })
    }
}
