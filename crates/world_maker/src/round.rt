ghost use Rattle.std.specs.Prelude.{◌≡◌, ◌<◌, ◌^◌, ◌%◌, [], slice_index_or, IfOk};
ghost use Rattle.world_maker.specs.Generator.{wallets, wallet_of, payee_of, coin_of, item_of, word_of};
ghost use Rattle.world_maker.specs.Generator.{deposit_lines, payment_lines, acceptance_lines, guard_lines, exit_lines};
ghost use Rattle.world_maker.specs.Generator.{watch_lines, crash_lines, finish_lines, round_lines};

use super::lines::{
    accept_line, bundle_line, crash_line, deposit_line, enter_line, guard_line, leave_line,
    offer_line, open_line, seal_line, send_line, watch_line,
};
use plasma_base::{Hash32, NoMemory, Sha};
use schedule_text::{CallForm, Line};
use std::alloc::Global;

/// A round of a schedule: its number, counted from 1, its word, and how many lines stand before it.
#[derive(Clone, Copy)]
pub struct Round {
    pub number: u64,
    pub word: u64,
    pub lines_before: u64,
}

/// The word of a round: the first 8 bytes of the SHA-256 of the seed and the round's number.
pub fn word_of(seed: u64, number: u64) -> u64
    ensures { result ≡ word_of seed number }
{
    let digest = Sha.digest_two(&seed.to_be_bytes(), &number.to_be_bytes());
    u64::from_be_bytes([
        digest[0], digest[1], digest[2], digest[3], digest[4], digest[5], digest[6], digest[7],
    ])
}

// The name of a wallet.
fn wallet_numbered(number: u64) -> &'static [u8]
    ensures { result.now ≡ slice_index_or wallets (number % 3) [] }
{
    match number % 3 {
        0 => b"a",
        1 => b"b",
        _ => b"c",
    }
}

impl Round {
    /// The lines of the round.
    #[tactic(auto, unfolding(crate::specs::Generator::round_lines))]
    pub fn lines(&self, alloc: Global) -> Result<Vec<Line>, NoMemory>
        requires before { self.now.lines_before < 2 ^ 32 }
        requires number { self.now.number < 2 ^ 32 }
        ensures { IfOk result (λ lines. lines.items ≡ round_lines self.now) }
    {
        match self.word / 360 % 8 {
            0 => self.deposit_lines(alloc),
            1 => self.payment_lines(alloc),
            2 => self.acceptance_lines(alloc),
            3 => self.guard_lines(alloc),
            4 => self.exit_lines(alloc),
            5 => self.watch_lines(alloc),
            6 => self.crash_lines(alloc),
            _ => self.finish_lines(alloc),
        }
    }

    // The wallet of the round.
    fn wallet(&self) -> &'static [u8]
        ensures { result.now ≡ wallet_of self.now }
    {
        wallet_numbered(self.word)
    }

    // The wallet that is paid.
    fn payee(&self) -> &'static [u8]
        ensures { result.now ≡ payee_of self.now }
    {
        wallet_numbered(self.word / 3)
    }

    // The coin of the round.
    fn coin(&self) -> u64
        ensures { result ≡ coin_of self.now }
    {
        1 + self.word / 9 % 40
    }

    // The line of the round's first mail item.
    fn item(&self) -> u64
        requires { self.now.lines_before < 2 ^ 32 }
        ensures { result ≡ item_of self.now }
    {
        self.lines_before + 1
    }

    // The wallet deposits.
    fn deposit_lines(&self, alloc: Global) -> Result<Vec<Line>, NoMemory>
        ensures { IfOk result (λ lines. lines.items ≡ deposit_lines self.now) }
    {
        let deposit = deposit_line(alloc, self.wallet(), 10)?;
        Ok(vec![in alloc; deposit]?)
    }

    // The wallet pays with the coin, and the operator commits the transfer.
    fn payment_lines(&self, alloc: Global) -> Result<Vec<Line>, NoMemory>
        requires { self.now.lines_before < 2 ^ 32 }
        ensures { IfOk result (λ lines. lines.items ≡ payment_lines self.now) }
    {
        let send = send_line(alloc, self.wallet(), self.coin(), self.payee())?;
        let enter = enter_line(alloc, b"op")?;
        Ok(vec![in alloc; send, offer_line(self.item()), seal_line(), enter]?)
    }

    // The wallet accepts the coin by its history.
    fn acceptance_lines(&self, alloc: Global) -> Result<Vec<Line>, NoMemory>
        requires { self.now.lines_before < 2 ^ 32 }
        ensures { IfOk result (λ lines. lines.items ≡ acceptance_lines self.now) }
    {
        let accept = accept_line(alloc, self.wallet(), self.item())?;
        Ok(vec![in alloc; bundle_line(self.coin()), accept]?)
    }

    // The watcher guards the coin.
    fn guard_lines(&self, alloc: Global) -> Result<Vec<Line>, NoMemory>
        requires { self.now.lines_before < 2 ^ 32 }
        ensures { IfOk result (λ lines. lines.items ≡ guard_lines self.now) }
    {
        let guard = guard_line(alloc, b"g", self.item())?;
        Ok(vec![in alloc; bundle_line(self.coin()), guard]?)
    }

    // The wallet exits with the coin.
    fn exit_lines(&self, alloc: Global) -> Result<Vec<Line>, NoMemory>
        ensures { IfOk result (λ lines. lines.items ≡ exit_lines self.now) }
    {
        let leave = leave_line(alloc, self.wallet(), self.coin())?;
        let enter = enter_line(alloc, self.wallet())?;
        Ok(vec![in alloc; leave, enter]?)
    }

    // All wallets watch and enter their first offer, then watch again, and the clock goes on.
    fn watch_lines(&self, alloc: Global) -> Result<Vec<Line>, NoMemory>
        requires { self.now.number < 2 ^ 32 }
        ensures { IfOk result (λ lines. lines.items ≡ watch_lines self.now) }
    {
        let tick = Line::Tick {
            time: 1000 * self.number,
        };
        Ok(vec![in alloc;
            watch_line(alloc, b"a")?,
            enter_line(alloc, b"a")?,
            watch_line(alloc, b"b")?,
            enter_line(alloc, b"b")?,
            watch_line(alloc, b"c")?,
            enter_line(alloc, b"c")?,
            watch_line(alloc, b"a")?,
            watch_line(alloc, b"b")?,
            watch_line(alloc, b"c")?,
            tick,
        ]?)
    }

    // The wallet crashes and is opened again.
    fn crash_lines(&self, alloc: Global) -> Result<Vec<Line>, NoMemory>
        ensures { IfOk result (λ lines. lines.items ≡ crash_lines self.now) }
    {
        let crash = crash_line(alloc, self.wallet())?;
        let open = open_line(alloc, self.wallet())?;
        Ok(vec![in alloc; crash, open]?)
    }

    // A stranger finishes an exit of the coin.
    fn finish_lines(&self, alloc: Global) -> Result<Vec<Line>, NoMemory>
        ensures { IfOk result (λ lines. lines.items ≡ finish_lines self.now) }
    {
        let finish = Line::Call {
            account: 10,
            form: CallForm::Finish {
                coin: self.coin(),
                exit: 1 + self.word / 2880 % 100,
            },
        };
        Ok(vec![in alloc; finish]?)
    }
}
