ghost use Rattle.std.specs.Prelude.{◌≡◌, ◌++◌, ◌∷◌, [], drop, map, filter, find, IfOk, IfErr, OnOk, Ok, false};
ghost use Rattle.std.specs.BTreeSet.{insert_key};
ghost use Rattle.std.specs.List.{filter_map, flat_map};
ghost use Rattle.std.specs.Option.{option_copied, option_to_list};
ghost use Rattle.std.specs.Ordering.{nat_cmp};
ghost use Rattle.gate_journal.specs.Journal.{Keeps};
ghost use Rattle.leaf_journal.specs.Records.{MessagesPass};
ghost use Rattle.plasma_tx.specs.Views.{deposits_of};
ghost use Rattle.node_rules.specs.WalletRecords.{is_body, note_in};
ghost use Rattle.node_rules.specs.Wallet.{who};
ghost use Rattle.wallet_node.specs.Inside.{is_kept_at};
ghost use Rattle.safe_runs.specs.Cases.{rising_with, wallet_case, wallet_cases};
ghost use Rattle.safe_runs.specs.Inside.{AreRead, accepted_by, accepted_in, case_with, last_at, makes_block, spends_of};
ghost use Rattle.safe_runs.specs.Runs.{IsRefused, wallet_in, wallet_node};

use super::case::{Case, case_of};
use super::image::{disk_of, only_place, records_of};
use super::lasts::read_lasts;
use super::node::Holder;
use super::told::Coins;
use coin_safety::Sent;
use crash_disk::MemDisk;
use gate_journal::JournalRefusal;
use node_rules::{KeptCoin, read_kept};
use plasma_base::{Bytes, Hash32, NoMemory};
use plasma_tx::{RootCall, RootLog, Spends};
use std::alloc::Global;
use std::collections::BTreeSet;
use wallet_core::CoinState;
use wallet_node::WalletNode;

/// What a wallet's records say: a wallet in memory, the coins that it accepted, and the last blocks of the transfers
/// that its leaves bind.
pub struct Holdings<H: Hash32 + Copy> {
    node: WalletNode<MemDisk, H>,
    // in the order in which they were accepted
    accepted: Vec<KeptCoin>,
    // by the numbers of the leaves
    lasts: Vec<Option<u64>>,
}

impl<H: Hash32 + Copy> Drop for Holdings<H> {
    fn drop(self) {
        let Holdings {
            node,
            accepted: _,
            lasts: _,
        } = self;
        let _ = node.take_disks();
    }
}

// The coin whose accepting a record notes, for a chain with this tag.
#[tactic(auto, unfolding(node_rules::specs::WalletRecords::note_in))]
fn read_note<H: Hash32>(
    alloc: Global,
    h: &H,
    tag: &[u8; 32],
    body: &[u8],
) -> Result<Option<KeptCoin>, NoMemory>
    ensures { IfOk result (λ kept. kept
        ≡ accepted_by tag.now (note_in (H.digest_of h.now) tag.now body.now)) }
{
    let Some((mark, bytes)) = body.split_first() else {
        return Ok(None);
    };
    if *mark == 2 {
        return read_kept(alloc, h, tag, bytes);
    }
    Ok(None)
}

// Adds the coin whose accepting a record notes, where it notes one.
fn push_note<H: Hash32>(
    alloc: Global,
    h: &H,
    tag: &[u8; 32],
    body: &[u8],
    accepted: &mut Vec<KeptCoin>,
) -> Result<(), NoMemory>
    ensures { OnOk result (accepted.new.items ≡ accepted.old.items
        ++ filter_map (λ note. accepted_by tag.now (note_in (H.digest_of h.now) tag.now note)) (body.now ∷ [])) }
{
    if let Some(kept) = read_note(alloc, h, tag, body)? {
        accepted.push(kept)?;
    }
    Ok(())
}

// The coins that notes accept, the oldest first.
fn read_notes<H: Hash32>(
    alloc: Global,
    h: &H,
    tag: &[u8; 32],
    notes: &[Bytes],
) -> Result<Vec<KeptCoin>, NoMemory>
    ensures { IfOk result (λ accepted. accepted.items
        ≡ filter_map (λ note. accepted_by tag.now (note_in (H.digest_of h.now) tag.now note)) notes.now) }
{
    let mut accepted = Vec::new(alloc);
    for note in notes {
        push_note(alloc, h, tag, note.as_slice(), &mut accepted)?;
    }
    Ok(accepted)
}

// The coins that the records of a wallet's notes accept, the oldest first.
fn read_records<H: Hash32>(
    alloc: Global,
    h: &H,
    tag: &[u8; 32],
    records: &[Bytes],
) -> Result<Vec<KeptCoin>, NoMemory>
    ensures { IfOk result (λ accepted. accepted.items
        ≡ filter_map (λ note. accepted_by tag.now (note_in (H.digest_of h.now) tag.now note)) (drop 1 records.now)) }
{
    match records.split_first() {
        Some((_, notes)) => read_notes(alloc, h, tag, notes),
        None => Ok(Vec::new(alloc)),
    }
}

// Adds a call, where it makes a block.
fn push_made(made: &mut RootLog, call: &RootCall) -> Result<(), NoMemory>
    ensures { OnOk result (made.new.log ≡ filter makes_block (call.now ∷ []) ++ made.old.log) }
{
    match call {
        RootCall::Deposit {
            account,
            amount,
            key,
        } => made.push(RootCall::Deposit {
            account: *account,
            amount: *amount,
            key: *key,
        }),
        RootCall::Commit { account, root } => made.push(RootCall::Commit {
            account: *account,
            root: *root,
        }),
        _ => Ok(()),
    }
}

// The log of the calls that make blocks. No coin is withdrawn in it.
fn made_by(alloc: Global, log: &RootLog) -> Result<RootLog, NoMemory>
    ensures { IfOk result (λ made. made.log ≡ filter makes_block log.now.log) }
{
    let mut made = RootLog::make(alloc, log.tag(), log.operator(), log.most_blocks());
    let events = log.events();
    for call in events {
        push_made(&mut made, call)?;
    }
    Ok(made)
}

// The wallet that two images spell, in memory.
fn open_wallet<H: Hash32 + Copy>(
    alloc: Global,
    h: H,
    notes: Vec<u8>,
    leaves: Vec<u8>,
) -> Result<WalletNode<MemDisk, H>, JournalRefusal>
    ensures opened { IfOk result (λ node.
        wallet_in (H.digest_of h) notes.items leaves.items ≡ Ok (wallet_node (H.digest_of h) node.records)) }
    ensures notes { IfOk result (λ node. Keeps node.records.notes notes.items) }
    ensures leaves { IfOk result (λ node. Keeps node.records.leaves leaves.items) }
    ensures pass { IfOk result (λ node. MessagesPass is_body node.records.leaves) }
    ensures hash { IfOk result (λ node. node.hash ≡ h) }
    ensures refused { IfErr result (IsRefused (wallet_in (H.digest_of h) notes.items leaves.items)) }
{
    match WalletNode::open_with(alloc, disk_of(alloc, notes), disk_of(alloc, leaves), h) {
        Ok(node) => Ok(node),
        Err(returned) => Err(only_place(returned.why)),
    }
}

// The coins that a wallet accepted whose notes an image spells.
fn accepted_in<H: Hash32 + Copy>(
    alloc: Global,
    h: &H,
    node: &WalletNode<MemDisk, H>,
    image: Vec<u8>,
) -> Result<Vec<KeptCoin>, NoMemory>
    requires { Keeps node.now.records.notes image.items }
    ensures { IfOk result (λ accepted. accepted.items ≡ accepted_in (H.digest_of h.now) node.now.records) }
{
    let records = records_of(alloc, disk_of(alloc, image))?;
    read_records(alloc, h, &node.tag(), &records)
}

// What the two images of a wallet say beside it: the coins that it accepted, and the last blocks of the transfers that
// its leaves bind.
fn read_both<H: Hash32 + Copy>(
    alloc: Global,
    h: &H,
    node: &WalletNode<MemDisk, H>,
    notes: Vec<u8>,
    leaves: Vec<u8>,
) -> Result<(Vec<KeptCoin>, Vec<Option<u64>>), NoMemory>
    requires notes { Keeps node.now.records.notes notes.items }
    requires leaves { Keeps node.now.records.leaves leaves.items }
    requires pass { MessagesPass is_body node.now.records.leaves }
    ensures { IfOk result (λ read. AreRead (H.digest_of h.now) node.now.records read.0.items read.1.items) }
{
    let accepted = accepted_in(alloc, h, node, notes)?;
    let records = records_of(alloc, disk_of(alloc, leaves))?;
    let lasts = read_lasts(alloc, &records)?;
    Ok((accepted, lasts))
}

impl<H: Hash32 + Copy> Holdings<H> {
    /// What two images say of a wallet, under a digest. `NotJournal` where they spell no records of one.
    pub fn read(
        alloc: Global,
        h: H,
        notes: Vec<u8>,
        leaves: Vec<u8>,
    ) -> Result<Holdings<H>, JournalRefusal>
        ensures read { IfOk result (λ read. wallet_in (H.digest_of h) notes.items leaves.items
            ≡ Ok (wallet_node (H.digest_of read.node.hash) read.node.records)) }
        ensures sound { IfOk result (λ read. AreRead (H.digest_of read.node.hash) read.node.records
            read.accepted.items read.lasts.items) }
        ensures refused { IfErr result (IsRefused (wallet_in (H.digest_of h) notes.items leaves.items)) }
    {
        let of_notes = notes.to_vec(alloc)?;
        let of_leaves = leaves.to_vec(alloc)?;
        let node = open_wallet(alloc, h, notes, leaves)?;
        match read_both(alloc, &h, &node, of_notes, of_leaves) {
            Ok(read) => {
                let (accepted, lasts) = read;
                Ok(Holdings {
                    node,
                    accepted,
                    lasts,
                })
            }
            Err(NoMemory) => Err(JournalRefusal::NoMemory),
        }
    }

    // The coins that it accepted or that its account deposited, rising.
    fn coins(&self, alloc: Global, log: &RootLog) -> Result<BTreeSet<u64>, NoMemory>
        ensures { IfOk result (λ coins. coins.keys
            ≡ rising_with [] (map (λ kept. kept.coin) self.now.accepted.items
            ++ deposits_of log.now.log (who self.now.node.records).account)) }
    {
        let mut coins = BTreeSet::new(alloc);
        put_accepted(&mut coins, &self.accepted)?;
        put_coins(&mut coins, log.deposits(self.node.owner().account))?;
        Ok(coins)
    }

    // That a leaf signed a coin away, with the last block of its transfer, if it names one.
    fn sent_by(&self, leaf: u32) -> Sent
        ensures { result ≡ record { leaf = leaf; last = last_at self.now.lasts.items leaf } }
    {
        let last = match self.lasts.get(leaf as usize) {
            Some(last) => *last,
            None => None,
        };
        Sent { leaf, last }
    }

    // The case of a coin that it has at a tip.
    fn case_at(
        &self,
        alloc: Global,
        log: &RootLog,
        hidden: &Coins,
        coin: u64,
        tip: u64,
        sent: Option<Sent>,
    ) -> Result<Case, NoMemory>
        ensures { IfOk result (λ case. case
            ≡ case_with log.now.log hidden.now coin (spends_of self.now.accepted.items coin tip) sent false) }
    {
        let spends = spends_of(alloc, &self.accepted, coin, tip)?;
        Ok(case_of(log, hidden, coin, spends, sent, false))
    }

    // The case of a coin, where it ever had it. `made` has the calls of the log that make blocks.
    fn case(
        &self,
        alloc: Global,
        log: &RootLog,
        made: &RootLog,
        hidden: &Coins,
        coin: u64,
    ) -> Result<Option<Case>, NoMemory>
        requires made { made.now.log ≡ filter makes_block log.now.log }
        requires read { AreRead (H.digest_of self.now.node.hash) self.now.node.records
            self.now.accepted.items self.now.lasts.items }
        ensures { IfOk result (λ case. case
            ≡ wallet_case (H.digest_of self.now.node.hash) self.now.node.records log.now.log hidden.now coin) }
    {
        let Some(_) = log.coin(coin) else {
            return Ok(Some(Case { coin, kept: None }));
        };
        match self.node.state(made, coin) {
            CoinState::Nothing => Ok(None),
            CoinState::Sending { tip, q } => {
                let sent = self.sent_by(q);
                Ok(Some(self.case_at(alloc, log, hidden, coin, tip, Some(sent))?))
            }
            CoinState::Leaving { tip } => {
                Ok(Some(self.case_at(alloc, log, hidden, coin, tip, None)?))
            }
            CoinState::Held { tip } => {
                Ok(Some(self.case_at(alloc, log, hidden, coin, tip, None)?))
            }
        }
    }

    // Adds the case of a coin, where it ever had it.
    fn push_case(
        &self,
        alloc: Global,
        log: &RootLog,
        made: &RootLog,
        hidden: &Coins,
        coin: u64,
        cases: &mut Vec<Case>,
    ) -> Result<(), NoMemory>
        requires made { made.now.log ≡ filter makes_block log.now.log }
        requires read { AreRead (H.digest_of self.now.node.hash) self.now.node.records
            self.now.accepted.items self.now.lasts.items }
        ensures { OnOk result (cases.new.items ≡ cases.old.items ++ option_to_list
            (wallet_case (H.digest_of self.now.node.hash) self.now.node.records log.now.log hidden.now coin)) }
    {
        if let Some(case) = self.case(alloc, log, made, hidden, coin)? {
            cases.push(case)?;
        }
        Ok(())
    }

    // The cases of these coins, in their order.
    fn cases_of(
        &self,
        alloc: Global,
        log: &RootLog,
        hidden: &Coins,
        coins: &BTreeSet<u64>,
    ) -> Result<Vec<Case>, NoMemory>
        requires { AreRead (H.digest_of self.now.node.hash) self.now.node.records
            self.now.accepted.items self.now.lasts.items }
        ensures { IfOk result (λ cases. cases.items ≡ flat_map (λ c. option_to_list
            (wallet_case (H.digest_of self.now.node.hash) self.now.node.records log.now.log hidden.now c))
            coins.now.keys) }
    {
        let made = made_by(alloc, log)?;
        let mut cases = Vec::new(alloc);
        for coin in coins {
            self.push_case(alloc, log, &made, hidden, *coin, &mut cases)?;
        }
        Ok(cases)
    }

    // The cases of the coins that it ever had, by coin.
    fn all_cases(&self, alloc: Global, log: &RootLog, hidden: &Coins) -> Result<Vec<Case>, NoMemory>
        requires { AreRead (H.digest_of self.now.node.hash) self.now.node.records
            self.now.accepted.items self.now.lasts.items }
        ensures { IfOk result (λ cases. cases.items
            ≡ wallet_cases (H.digest_of self.now.node.hash) self.now.node.records log.now.log hidden.now) }
    {
        let coins = self.coins(alloc, log)?;
        self.cases_of(alloc, log, hidden, &coins)
    }
}

// The first kept coin of this coin with this tip.
fn find_kept(accepted: &[KeptCoin], coin: u64, tip: u64) -> Option<&KeptCoin>
    ensures { option_copied result ≡ find (is_kept_at coin tip) accepted.now }
{
    accepted
        .iter()
        .find(|kept| kept.coin == coin && kept.tip == tip)
}

// The links of a coin up to a tip that is kept; none where it isn't.
fn spends_of(alloc: Global, accepted: &[KeptCoin], coin: u64, tip: u64) -> Result<Spends, NoMemory>
    ensures { IfOk result (λ spends. spends ≡ spends_of accepted.now coin tip) }
{
    match find_kept(accepted, coin, tip) {
        Some(kept) => kept.spends.copy(),
        None => Ok(Spends::from_vec(Vec::new(alloc))),
    }
}

// Puts a coin into a set.
fn put_coin(set: &mut BTreeSet<u64>, coin: &u64) -> Result<(), NoMemory>
    ensures { OnOk result (set.new.keys ≡ insert_key nat_cmp set.old.keys coin.now) }
{
    set.insert(*coin)?;
    Ok(())
}

// Puts the coin into a set that was accepted.
fn put_kept(set: &mut BTreeSet<u64>, kept: &KeptCoin) -> Result<(), NoMemory>
    ensures { OnOk result (set.new.keys ≡ insert_key nat_cmp set.old.keys kept.now.coin) }
{
    set.insert(kept.coin)?;
    Ok(())
}

// Puts coins into a set.
fn put_coins(set: &mut BTreeSet<u64>, coins: &[u64]) -> Result<(), NoMemory>
    ensures { OnOk result (set.new.keys ≡ rising_with set.old.keys coins.now) }
{
    for coin in coins {
        put_coin(set, coin)?;
    }
    Ok(())
}

// Puts the coins into a set that were accepted.
fn put_accepted(set: &mut BTreeSet<u64>, accepted: &[KeptCoin]) -> Result<(), NoMemory>
    ensures { OnOk result (set.new.keys ≡ rising_with set.old.keys (map (λ kept. kept.coin) accepted.now)) }
{
    for kept in accepted {
        put_kept(set, kept)?;
    }
    Ok(())
}

impl<H: Hash32 + Copy> Holder for Holdings<H> {
    ghost use Rattle.std.specs.Prelude.{◌≡◌};
    ghost use Rattle.safe_runs.specs.Inside.{AreRead};
    ghost use Rattle.safe_runs.specs.Runs.{wallet_node};

    ghost is = { λ read node. node ≡ wallet_node (H.digest_of read.node.hash) read.node.records };

    ghost sound = { λ read. AreRead (H.digest_of read.node.hash) read.node.records read.accepted.items
        read.lasts.items };

    fn tag(&self) -> [u8; 32] {
        self.node.tag()
    }

    fn account(&self) -> u64 {
        self.node.owner().account
    }

    fn cases(&self, alloc: Global, log: &RootLog, hidden: &Coins) -> Result<Vec<Case>, NoMemory> {
        self.all_cases(alloc, log, hidden)
    }
}
