ghost use Rattle.std.specs.Prelude.{◌≡◌, false, IfOk, OnErr};
ghost use Rattle.plasma_base.specs.HexText.{hex_text};
ghost use Rattle.plasma_tx.specs.Spelling.{owner_text};
ghost use Rattle.node_rules.specs.Wallet.{who};
ghost use Rattle.node_rules.specs.WalletRecords.{owner_of};
ghost use Rattle.node_answers.specs.Answers.{state_words, wallet_outcome, IsSaid};
ghost use Rattle.node_answers.specs.Doing.{DidWallet};

use super::said::{push_phrase, put_given, put_words};
use crash_disk::Disk;
use node_deeds::run_wallet_order;
use node_journal::Stop;
use node_lines::WalletLine;
use node_sessions::Said;
use plasma_base::{Hash32, NoMemory, push_hex};
use plasma_tx::RootLog;
use std::alloc::Global;
use wallet_core::CoinState;
use wallet_node::WalletNode;

// The words of what a coin is.
fn words_of(alloc: Global, state: CoinState) -> Result<Vec<u8>, NoMemory>
    ensures { IfOk result (λ words. words.items ≡ state_words state) }
{
    let mut words = Vec::new(alloc);
    match state {
        CoinState::Nothing => words.extend_from_slice(b"nothing")?,
        CoinState::Held { tip } => push_phrase(&mut words, b"held", &[tip])?,
        CoinState::Sending { tip, q } => push_phrase(&mut words, b"sending", &[tip, u64::from(q)])?,
        CoinState::Leaving { tip } => push_phrase(&mut words, b"leaving", &[tip])?,
    }
    Ok(words)
}

// The words of who a wallet is.
fn words_of_owner<D: Disk, H: Hash32 + Copy>(
    alloc: Global,
    node: &WalletNode<D, H>,
) -> Result<Vec<u8>, NoMemory>
    ensures { IfOk result (λ words. words.items ≡ hex_text (owner_text (owner_of (who node.now.records)))) }
{
    let mut words = Vec::new(alloc);
    push_hex(&mut words, &node.owner().write())?;
    Ok(words)
}

/// Answers a command of a wallet that no fault closed, behind this log, into the text. A refusal is no answer: its
/// cause is given out. Where the command is stopped, by want of memory or a device fault, the text stays; where memory
/// ran out the command may have been done before.
#[tactic(auto, unfolding(crate::specs::Answers::wallet_outcome))]
pub fn answer_wallet<D: Disk, H: Hash32 + Copy>(
    alloc: Global,
    node: &mut WalletNode<D, H>,
    log: &RootLog,
    line: WalletLine,
    text: &mut Vec<u8>,
) -> Result<Said, Stop>
    requires { node.old.closed ≡ false }
    ensures said { IfOk result (λ said. IsSaid (wallet_outcome (H.digest_of node.old.hash) log.now.log
        node.old.records line).says said text.old.items text.new.items) }
    ensures did { DidWallet D.told D.plan D.faults (wallet_outcome (H.digest_of node.old.hash) log.now.log
        node.old.records line).leaf (wallet_outcome (H.digest_of node.old.hash) log.now.log
        node.old.records line).note node.old result node.new }
    ensures untold { OnErr result (text.new.items ≡ text.old.items) }
{
    match line {
        WalletLine::Order { order } => {
            let given = run_wallet_order(alloc, node, log, &order)?;
            Ok(put_given(alloc, given, text)?)
        }
        WalletLine::State { coin } => {
            let words = words_of(alloc, node.state(log, coin))?;
            Ok(put_words(words, text)?)
        }
        WalletLine::Who => {
            let words = words_of_owner(alloc, node)?;
            Ok(put_words(words, text)?)
        }
    }
}
