ghost use Rattle.std.specs.Prelude.{◌≡◌, ◌≢◌, Err, ◌+◌, ◌∷◌, [], true, Some, IfOk};
ghost use Rattle.std.specs.Option.{option_map};
ghost use Rattle.plasma_tx.specs.Views.{now, exit_at, challenge_at, owner_of};
ghost use Rattle.plasma_tx.specs.Shown.{tests_by, rules_of, shown_tx, shown_owner};
ghost use Rattle.plasma_tx.specs.Money.{challenge_of, answered_bond, moved};
ghost use Rattle.plasma_tx.specs.Table.{decided, after_causes, between_causes, before_causes, respond_causes, finish_causes, finish_effect, is_accepted, where_exit, where_challenged};
ghost use Rattle.root_contract.specs.Judging.{Judges};

use super::contract::Contract;
use super::stop::Stop;
use super::views::{challenge_at, has_no_open_challenge};
use plasma_base::Hash32;
use plasma_tx::{
    Answer, CHALLENGE_BOND, CHALLENGE_WINDOW, EXIT_PERIOD, Owner, RESPONSE_WINDOW, RawOpening,
    Refusal, Shown,
};

// Each of these finds the first cause by which a call on a standing exit is refused.
impl Contract {
    // Hands out the new owner.
    pub(crate) fn judge_after<H: Hash32>(
        &self,
        h: &H,
        coin: u64,
        exit: u64,
        spend: &RawOpening,
    ) -> Result<Owner, Stop>
        ensures answer { let tests = tests_by (H.digest_of h.now) in let log = self.now.log in
            Judges (where_exit (exit_at log coin exit) (λ x. decided (after_causes tests log x spend.now.block
            (shown_tx tests (rules_of self.now) log coin spend.now)) Answer.Cancelled)) (λ _. Answer.Cancelled) result }
        ensures to { IfOk result (λ to. option_map (λ tx. tx.body.to)
            (shown_tx (tests_by (H.digest_of h.now)) (rules_of self.now) self.now.log coin spend.now) ≡ Some to) }
    {
        let Some(slot) = self.exit_at(coin, exit) else {
            return Err(Stop::Refused(Refusal::NoExit));
        };
        if self.is_over(slot.start, CHALLENGE_WINDOW) {
            return Err(Stop::Refused(Refusal::Late));
        }
        if !self.is_committed_after(slot.block, spend.block) {
            return Err(Stop::Refused(Refusal::BadBlock));
        }
        self.judge_spend(h, coin, spend, slot.block, &slot.owner)
    }

    // Hands out the new owner.
    pub(crate) fn judge_between<H: Hash32>(
        &self,
        h: &H,
        coin: u64,
        exit: u64,
        spend: &RawOpening,
    ) -> Result<Owner, Stop>
        ensures answer { let tests = tests_by (H.digest_of h.now) in let log = self.now.log in
            Judges (where_exit (exit_at log coin exit) (λ x. decided (between_causes tests log x spend.now.block
            (shown_tx tests (rules_of self.now) log coin spend.now)) Answer.Cancelled)) (λ _. Answer.Cancelled) result }
        ensures to { IfOk result (λ to. option_map (λ tx. tx.body.to)
            (shown_tx (tests_by (H.digest_of h.now)) (rules_of self.now) self.now.log coin spend.now) ≡ Some to) }
    {
        let Some(slot) = self.exit_at(coin, exit) else {
            return Err(Stop::Refused(Refusal::NoExit));
        };
        if self.is_over(slot.start, CHALLENGE_WINDOW) {
            return Err(Stop::Refused(Refusal::Late));
        }
        if slot.parent == 0 || !self.is_committed_between(slot.parent, slot.block, spend.block) {
            return Err(Stop::Refused(Refusal::BadBlock));
        }
        self.judge_spend(h, coin, spend, slot.parent, &slot.parent_owner)
    }

    // Hands out the owner after what is shown.
    pub(crate) fn judge_before<H: Hash32>(
        &self,
        h: &H,
        account: u64,
        coin: u64,
        exit: u64,
        shown: &Shown,
    ) -> Result<Owner, Stop>
        ensures answer { let tests = tests_by (H.digest_of h.now) in let log = self.now.log in
            let effect = Answer.Challenged (now log + RESPONSE_WINDOW) in
            Judges (where_exit (exit_at log coin exit) (λ x. decided (before_causes log account coin x shown.now
            (shown_owner tests (rules_of self.now) log coin shown.now)) effect)) (λ _. effect) result }
        ensures owner { IfOk result (λ owner. owner ≡ owner_of self.now.log coin shown.now) }
    {
        let Some(slot) = self.exit_at(coin, exit) else {
            return Err(Stop::Refused(Refusal::NoExit));
        };
        if self.is_over(slot.start, CHALLENGE_WINDOW) {
            return Err(Stop::Refused(Refusal::Late));
        }
        if !self.is_before_parent(coin, slot, shown) {
            return Err(Stop::Refused(Refusal::BadBlock));
        }
        let Some(owner) = self.shown_owner(h, coin, shown)? else {
            return Err(Stop::Refused(Refusal::BadOpening));
        };
        if challenge_at(slot, shown.block()).is_some() {
            return Err(Stop::Refused(Refusal::ChallengeStands));
        }
        let has = self.balance(account);
        if has < CHALLENGE_BOND {
            return Err(Stop::Refused(Refusal::NoFunds {
                has,
                needs: CHALLENGE_BOND,
            }));
        }
        Ok(owner)
    }

    // Hands out the account whose bond is paid.
    pub(crate) fn judge_respond<H: Hash32>(
        &self,
        h: &H,
        coin: u64,
        exit: u64,
        challenged: u64,
        spend: &RawOpening,
    ) -> Result<u64, Stop>
        ensures answer { let tests = tests_by (H.digest_of h.now) in let log = self.now.log in
            Judges (where_exit (exit_at log coin exit) (λ x. where_challenged (challenge_at challenged x.challenges)
            (λ challenge. decided (respond_causes tests log x challenge spend.now.block
            (shown_tx tests (rules_of self.now) log coin spend.now)) Answer.Responded))) (λ _. Answer.Responded)
            result }
        ensures by { IfOk result (λ by. answered_bond (challenge_of (exit_at self.now.log coin exit) challenged)
            ≡ moved by CHALLENGE_BOND ∷ []) }
    {
        let Some(slot) = self.exit_at(coin, exit) else {
            return Err(Stop::Refused(Refusal::NoExit));
        };
        let Some(challenge) = challenge_at(slot, challenged) else {
            return Err(Stop::Refused(Refusal::NoChallenge));
        };
        if challenge.answered {
            return Err(Stop::Refused(Refusal::Answered));
        }
        if self.is_over(challenge.at, RESPONSE_WINDOW) {
            return Err(Stop::Refused(Refusal::Late));
        }
        if !self.is_committed_after(challenge.block, spend.block) || spend.block > slot.parent {
            return Err(Stop::Refused(Refusal::BadBlock));
        }
        match self.judge_spend(h, coin, spend, challenge.block, &challenge.owner) {
            Ok(_) => Ok(challenge.by),
            Err(stop) => Err(stop),
        }
    }

    // Hands out whether the exit is paid or dropped.
    pub(crate) fn judge_finish(&self, coin: u64, exit: u64) -> Result<Answer, Stop>
        ensures answer { let log = self.now.log in
            Judges (where_exit (exit_at log coin exit) (λ x. decided (finish_causes log x) (finish_effect log coin x)))
            (λ answer. answer) result }
        ensures accepted { IfOk result (λ answer. is_accepted answer ≡ true) }
        ensures never { result ≢ Err Stop.NoMemory }
    {
        let Some(slot) = self.exit_at(coin, exit) else {
            return Err(Stop::Refused(Refusal::NoExit));
        };
        let opens = slot.start + EXIT_PERIOD;
        if self.clock() < opens {
            return Err(Stop::Refused(Refusal::Early { opens }));
        }
        if has_no_open_challenge(slot) && !self.is_withdrawn(coin) {
            return Ok(Answer::Paid);
        }
        Ok(Answer::Dropped)
    }
}
