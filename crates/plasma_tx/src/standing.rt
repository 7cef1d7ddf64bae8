ghost use Rattle.std.specs.Prelude.{◌≡◌, OnOk, OnErr};
ghost use Rattle.plasma_tx.specs.Standing.{Standing, no_standing, standing_after};

use super::exits::{
    answer_exit, challenge_exit, has_no_open_challenge, is_responded, push_reserved, remove_exit,
    remove_responses,
};
use super::views::{ChallengeView, ExitView, Response};
use plasma_base::NoMemory;
use std::alloc::Global;
use std::marker::Model;

/// What a call does to the exits of its coin.
#[derive(Drop)]
pub enum Change {
    /// The exit begins.
    Start {
        exit: ExitView,
    },
    /// The exit at the block is cancelled.
    Cancel {
        block: u64,
    },
    /// The exit at the block `exit` is challenged at the block `block`.
    Challenge {
        exit: u64,
        block: u64,
        by: u64,
        at: u64,
    },
    /// The challenge of the exit at the block is answered.
    Respond {
        exit: u64,
        block: u64,
    },
    /// The exit at the block is finished.
    Finish {
        block: u64,
    },
}

/// What is kept of a coin: its standing exits, in the order of their starts, the responses to each of
/// its exits, and whether it is withdrawn.
#[derive(Drop)]
pub struct CoinState {
    withdrawn: bool,
    exits: Vec<ExitView>,
    responses: Vec<Response>,
}

impl Model for CoinState {
    ghost use Rattle.plasma_tx.specs.Standing.{Standing, AreDistinct};

    ghost Value = { Standing };

    ghost view = { λ a. record { withdrawn = a.withdrawn; exits = a.exits.items; responses = a.responses.items } };

    ghost invariant = { λ a. AreDistinct a.exits.items };
}

impl CoinState {
    /// No exit, no response, not withdrawn.
    pub fn new(alloc: Global) -> CoinState
        ensures { result ≡ no_standing }
    {
        CoinState {
            withdrawn: false,
            exits: Vec::new(alloc),
            responses: Vec::new(alloc),
        }
    }

    pub fn is_withdrawn(&self) -> bool
        ensures { result ≡ self.now.withdrawn }
    {
        self.withdrawn
    }

    /// The standing exits, lent.
    pub fn exits(&self) -> &[ExitView]
        ensures { result.now ≡ self.now.exits }
    {
        self.exits.as_slice()
    }

    /// Carries the change out. `NoMemory` changes nothing.
    #[tactic(auto, unfolding(crate::specs::Standing::standing_after))]
    pub fn apply(&mut self, coin: u64, change: Change) -> Result<(), NoMemory>
        ensures ok { OnOk result (self.new ≡ standing_after coin change self.old) }
        ensures err { OnErr result (self.new ≡ self.old) }
    {
        match change {
            Change::Start { exit } => self.start(coin, exit),
            Change::Cancel { block } => {
                self.end(coin, block);
                Ok(())
            }
            Change::Challenge {
                exit,
                block,
                by,
                at,
            } => self.challenge(coin, exit, block, by, at),
            Change::Respond { exit, block } => self.respond(Response { coin, exit, block }),
            Change::Finish { block } => {
                self.finish(coin, block);
                Ok(())
            }
        }
    }

    fn start(&mut self, coin: u64, exit: ExitView) -> Result<(), NoMemory>
        ensures ok { OnOk result (self.new ≡ standing_after coin (Change.Start exit) self.old) }
        ensures err { OnErr result (self.new ≡ self.old) }
    {
        self.exits.reserve(1)?;
        remove_exit(&mut self.exits, exit.block);
        remove_responses(&mut self.responses, coin, exit.block);
        push_reserved(&mut self.exits, exit);
        Ok(())
    }

    fn end(&mut self, coin: u64, block: u64)
        ensures { self.new ≡ standing_after coin (Change.Cancel block) self.old }
    {
        remove_exit(&mut self.exits, block);
        remove_responses(&mut self.responses, coin, block);
    }

    fn challenge(
        &mut self,
        coin: u64,
        exit: u64,
        block: u64,
        by: u64,
        at: u64,
    ) -> Result<(), NoMemory>
        ensures ok { OnOk result (self.new ≡ standing_after coin (Change.Challenge exit block by at) self.old) }
        ensures err { OnErr result (self.new ≡ self.old) }
    {
        let answered = is_responded(&self.responses, coin, exit, block);
        let challenge = ChallengeView {
            block,
            at,
            by,
            answered,
        };
        challenge_exit(&mut self.exits, exit, challenge)?;
        Ok(())
    }

    fn respond(&mut self, response: Response) -> Result<(), NoMemory>
        ensures ok { OnOk result (self.new
            ≡ standing_after response.coin (Change.Respond response.exit response.block) self.old) }
        ensures err { OnErr result (self.new ≡ self.old) }
    {
        self.responses.push(response)?;
        answer_exit(&mut self.exits, response.exit, response.block);
        Ok(())
    }

    fn finish(&mut self, coin: u64, block: u64)
        ensures { self.new ≡ standing_after coin (Change.Finish block) self.old }
    {
        self.withdrawn = has_no_open_challenge(&self.exits, block) || self.withdrawn;
        remove_exit(&mut self.exits, block);
        remove_responses(&mut self.responses, coin, block);
    }
}
