ghost use Rattle.std.specs.Prelude.{◌≡◌, []};
ghost use Rattle.plasma_tx.specs.Views.{now};
ghost use Rattle.plasma_tx.specs.Shown.{Tests, tests_by};
ghost use Rattle.root_contract.specs.Judging.{Takes};

use super::contract::Contract;
use super::stop::Stop;
use exit_game::{Challenge, Challenges, Slot};
use plasma_base::Hash32;
use plasma_tx::{Answer, EXIT_PERIOD, Owner, RESPONSE_WINDOW, RawOpening, RootCall, Shown};

// The calls: each is judged, and carried out where it is accepted.
impl Contract {
    pub(crate) fn fund(&mut self, account: u64, amount: u64) -> Result<Answer, Stop>
        ensures { (tests : Tests) → Takes tests self.old self.new (RootCall.Fund account amount) result }
    {
        self.judge_fund(amount)?;
        self.fund_account(account, amount)?;
        Ok(Answer::Funded)
    }

    pub(crate) fn tick(&mut self, now: u64) -> Result<Answer, Stop>
        ensures { (tests : Tests) → Takes tests self.old self.new (RootCall.Tick now) result }
    {
        self.judge_tick(now)?;
        self.keep(RootCall::Tick { now })?;
        Ok(Answer::Ticked)
    }

    pub(crate) fn deposit(
        &mut self,
        account: u64,
        amount: u64,
        key: [u8; 56],
    ) -> Result<Answer, Stop>
        ensures { (tests : Tests) → Takes tests self.old self.new (RootCall.Deposit account amount key) result }
    {
        self.judge_deposit(account, amount, &key)?;
        let (coin, block) = (self.coin_count() + 1, self.block_count() + 1);
        let call = RootCall::Deposit {
            account,
            amount,
            key,
        };
        self.hold(call, account, amount)?;
        Ok(Answer::Deposited { coin, block })
    }

    pub(crate) fn commit(&mut self, account: u64, root: [u8; 32]) -> Result<Answer, Stop>
        ensures { (tests : Tests) → Takes tests self.old self.new (RootCall.Commit account root) result }
    {
        self.judge_commit(account)?;
        let block = self.block_count() + 1;
        self.keep(RootCall::Commit { account, root })?;
        Ok(Answer::Committed { block })
    }

    pub(crate) fn start_deposit(
        &mut self,
        account: u64,
        coin: u64,
        block: u64,
    ) -> Result<Answer, Stop>
        ensures { (tests : Tests) → Takes tests self.old self.new (RootCall.StartDeposit account coin block)
            result }
    {
        let owner = self.judge_start_deposit(account, coin, block)?;
        let slot = self.new_slot(coin, block, 0, owner, owner);
        let opens = self.clock() + EXIT_PERIOD;
        let call = RootCall::StartDeposit {
            account,
            coin,
            block,
        };
        self.start(call, slot)?;
        Ok(Answer::Started { opens })
    }

    pub(crate) fn start_spend<H: Hash32>(
        &mut self,
        h: &H,
        account: u64,
        coin: u64,
        parent: &Shown,
        exit: &RawOpening,
    ) -> Result<Answer, Stop>
        ensures { Takes (tests_by (H.digest_of h.now)) self.old self.new
            (RootCall.StartSpend account coin parent.now exit.now) result }
    {
        let owners = self.judge_start_spend(h, account, coin, parent, exit)?;
        let slot = self.new_slot(coin, exit.block, parent.block(), owners.exit, owners.parent);
        let opens = self.clock() + EXIT_PERIOD;
        let call = RootCall::StartSpend {
            account,
            coin,
            parent: parent.copy()?,
            exit: exit.copy()?,
        };
        self.start(call, slot)?;
        Ok(Answer::Started { opens })
    }

    // The slot of an exit that starts now.
    fn new_slot(
        &self,
        coin: u64,
        block: u64,
        parent: u64,
        owner: Owner,
        parent_owner: Owner,
    ) -> Slot
        ensures { result ≡ record {
          coin = coin;
          block = block;
          parent = parent;
          owner = owner;
          parent_owner = parent_owner;
          start = now self.now.log;
          challenges = [];
        } }
    {
        Slot {
            coin,
            block,
            parent,
            owner,
            parent_owner,
            start: self.clock(),
            challenges: Challenges::new(self.alloc),
        }
    }

    pub(crate) fn after<H: Hash32>(
        &mut self,
        h: &H,
        account: u64,
        coin: u64,
        exit: u64,
        spend: &RawOpening,
    ) -> Result<Answer, Stop>
        ensures { Takes (tests_by (H.digest_of h.now)) self.old self.new (RootCall.After account coin exit spend.now)
            result }
    {
        self.judge_after(h, coin, exit, spend)?;
        let call = RootCall::After {
            account,
            coin,
            exit,
            spend: spend.copy()?,
        };
        self.cancel(call, account, coin, exit)?;
        Ok(Answer::Cancelled)
    }

    pub(crate) fn between<H: Hash32>(
        &mut self,
        h: &H,
        account: u64,
        coin: u64,
        exit: u64,
        spend: &RawOpening,
    ) -> Result<Answer, Stop>
        ensures { Takes (tests_by (H.digest_of h.now)) self.old self.new (RootCall.Between account coin exit spend.now)
            result }
    {
        self.judge_between(h, coin, exit, spend)?;
        let call = RootCall::Between {
            account,
            coin,
            exit,
            spend: spend.copy()?,
        };
        self.cancel(call, account, coin, exit)?;
        Ok(Answer::Cancelled)
    }

    pub(crate) fn before<H: Hash32>(
        &mut self,
        h: &H,
        account: u64,
        coin: u64,
        exit: u64,
        shown: &Shown,
    ) -> Result<Answer, Stop>
        ensures { Takes (tests_by (H.digest_of h.now)) self.old self.new (RootCall.Before account coin exit shown.now)
            result }
    {
        let owner = self.judge_before(h, account, coin, exit, shown)?;
        let until = self.clock() + RESPONSE_WINDOW;
        let challenge = Challenge {
            block: shown.block(),
            owner,
            by: account,
            at: self.log.now(),
            answered: false,
        };
        let call = RootCall::Before {
            account,
            coin,
            exit,
            shown: shown.copy()?,
        };
        self.challenge(call, coin, exit, challenge)?;
        Ok(Answer::Challenged { until })
    }

    pub(crate) fn respond<H: Hash32>(
        &mut self,
        h: &H,
        account: u64,
        coin: u64,
        exit: u64,
        challenged: u64,
        spend: &RawOpening,
    ) -> Result<Answer, Stop>
        ensures { Takes (tests_by (H.digest_of h.now)) self.old self.new
            (RootCall.Respond account coin exit challenged spend.now) result }
    {
        let by = self.judge_respond(h, coin, exit, challenged, spend)?;
        let call = RootCall::Respond {
            account,
            coin,
            exit,
            challenged,
            spend: spend.copy()?,
        };
        self.answer_challenge(call, account, coin, exit, challenged, by)?;
        Ok(Answer::Responded)
    }

    pub(crate) fn finish(&mut self, account: u64, coin: u64, exit: u64) -> Result<Answer, Stop>
        ensures { (tests : Tests) → Takes tests self.old self.new (RootCall.Finish account coin exit) result }
    {
        let answer = self.judge_finish(coin, exit)?;
        let call = RootCall::Finish {
            account,
            coin,
            exit,
        };
        self.settle(call, coin, exit)?;
        Ok(answer)
    }
}
