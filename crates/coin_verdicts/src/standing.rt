ghost use Rattle.std.specs.Prelude.{◌≡◌, ◌≤◌, ◌<◌, ◌+◌, ◌^◌, reverse};
ghost use Rattle.std.specs.Option.{option_to_list};
ghost use Rattle.coin_verdicts.specs.Standings.{no_notes, has_coin, takes, missed, changed, with_note, standing_in, was_held, deposited_or, deposited_in, tip_in, better, better_by, kind_of, kind_in};

use super::note::{Change, Holder, Note, Standing};
use plasma_tx::Owner;
use world_rules::VerdictKind;

/// What became of a coin to a wallet, by the coin's notes, the oldest first; `None` where the wallet never held
/// it. It takes no memory.
pub fn kind(notes: &[Note], holder: &Holder) -> Option<VerdictKind>
    ensures { result ≡ kind_in holder.now (reverse notes.now) }
{
    let tip = tip(notes, holder)?;
    Some(kind_of(&standing(notes, holder, tip)))
}

// What a standing at the end says.
fn kind_of(standing: &Standing) -> VerdictKind
    ensures { result ≡ kind_of standing.now }
{
    if standing.sent != 0 {
        return VerdictKind::Away;
    }
    if standing.paid {
        return VerdictKind::Paid;
    }
    match standing.unattended {
        _ if !standing.taken => VerdictKind::Held,
        Some(line) => VerdictKind::Unattended { line },
        None => VerdictKind::Lost,
    }
}

// The greatest block at which the wallet ever held the coin. The newest tips come first, so that mostly one is
// looked into.
fn tip(notes: &[Note], holder: &Holder) -> Option<u64>
    ensures { result ≡ tip_in holder.now (reverse notes.now) }
{
    let mut best = None;
    let mut left = notes.len();
    while left > 0 {
        left -= 1;
        best = better_by(notes, holder, best, &notes[left].change);
    }
    match deposit(notes, &holder.owner) {
        None => best,
        Some(block) => better(notes, holder, best, block),
    }
}

// The greatest block so far after a change.
fn better_by(notes: &[Note], holder: &Holder, best: Option<u64>, change: &Change) -> Option<u64>
    ensures { result ≡ better_by (was_held holder.now (reverse notes.now)) holder.now.wallet best change.now }
{
    match change {
        Change::Accepts { wallet, tip } if *wallet == holder.wallet => better(
            notes, holder, best, *tip,
        ),
        _ => best,
    }
}

// The greater of two blocks, where the wallet ever held the coin at the second.
fn better(notes: &[Note], holder: &Holder, best: Option<u64>, tip: u64) -> Option<u64>
    ensures { result ≡ better (was_held holder.now (reverse notes.now) tip) best tip }
{
    match best {
        Some(greatest) if tip <= greatest => best,
        _ if was_held(notes, holder, tip) => Some(tip),
        _ => best,
    }
}

// The block in which the coin was deposited, where the owner is the depositor.
fn deposit(notes: &[Note], owner: &Owner) -> Option<u64>
    ensures { option_to_list result ≡ deposited_in owner.now (reverse notes.now) }
{
    let mut found = None;
    for note in notes {
        found = deposit_after(found, &note.change, owner);
    }
    found
}

// What a change says of that block, or else what was said before.
fn deposit_after(found: Option<u64>, change: &Change, owner: &Owner) -> Option<u64>
    ensures { option_to_list result ≡ deposited_or owner.now (option_to_list found) change.now }
{
    match change {
        Change::Deposits {
            block,
            owner: depositor,
        } => {
            if *depositor == *owner {
                Some(*block)
            } else {
                None
            }
        }
        _ => found,
    }
}

// Whether the wallet ever held the coin at the block.
fn was_held(notes: &[Note], holder: &Holder, tip: u64) -> bool
    ensures { result ≡ was_held holder.now (reverse notes.now) tip }
{
    let standing = standing(notes, holder, tip);
    standing.ever_held || has_coin(&standing)
}

// What the notes come to for the wallet and the block.
fn standing(notes: &[Note], holder: &Holder, tip: u64) -> Standing
    ensures { result ≡ standing_in holder.now tip (reverse notes.now) }
{
    let mut standing = no_notes();
    for note in notes {
        standing = with_note(&standing, note, holder, tip);
    }
    standing
}

// Before the first note.
fn no_notes() -> Standing
    ensures { result ≡ no_notes }
{
    Standing {
        deposited: false,
        accepted: false,
        sent: 0,
        withdrawn: false,
        ever_held: false,
        paid: false,
        taken: false,
        unattended: None,
    }
}

// Whether a wallet that is declared holds the coin.
fn has_coin(standing: &Standing) -> bool
    ensures { result ≡ has_coin standing.now }
{
    (standing.deposited || standing.accepted) && standing.sent == 0 && !standing.withdrawn
}

// The standing after a note.
fn with_note(standing: &Standing, note: &Note, holder: &Holder, tip: u64) -> Standing
    requires { standing.now.sent + 1 < 2 ^ 64 }
    ensures value { result ≡ with_note holder.now tip standing.now note.now }
    ensures sent { result.sent ≤ standing.now.sent + 1 }
{
    let held = holder.since < note.line && has_coin(standing);
    let mut after = changed(standing, note, held, holder, tip);
    after.ever_held = standing.ever_held || held;
    after
}

// The standing after a note's change, before which the wallet held the coin or not.
fn changed(standing: &Standing, note: &Note, held: bool, holder: &Holder, at: u64) -> Standing
    requires { standing.now.sent + 1 < 2 ^ 64 }
    ensures value { result ≡ changed holder.now at note.now.line held standing.now note.now.change }
    ensures sent { result.sent ≤ standing.now.sent + 1 }
{
    let mut after = *standing;
    match &note.change {
        Change::Deposits { block, owner } => {
            after.deposited = *block == at && *owner == holder.owner;
        }
        Change::Accepts { wallet, tip } => {
            after.accepted = standing.accepted || (*wallet == holder.wallet && *tip == at);
        }
        Change::Sends { wallet, parent } => {
            if *wallet == holder.wallet && *parent == at {
                after.sent = standing.sent + 1;
            }
        }
        Change::Returns { wallet, parent } => {
            if *wallet == holder.wallet && *parent == at {
                after.sent = standing.sent.saturating_sub(1);
            }
        }
        Change::Ends {
            block,
            account,
            paid,
        } => {
            after.withdrawn = standing.withdrawn || *paid;
            after.paid = standing.paid
                || (*block == at && *account == holder.owner.account && *paid);
            after.taken = standing.taken || takes(holder, at, held, *block, *account, *paid);
        }
        Change::Meets { wallets, tips } => {
            let is_missed = held && !(wallets.has(holder.wallet) || tips.has(at));
            after.unattended = missed(standing, note.line, is_missed);
        }
    }
    after
}

// Whether an exit that ends takes the coin.
fn takes(holder: &Holder, tip: u64, held: bool, block: u64, account: u64, paid: bool) -> bool
    ensures { result ≡ takes holder.now tip held block account paid }
{
    if paid {
        account != holder.owner.account && held
    } else {
        block == tip && account == holder.owner.account
    }
}

// The first line that nobody attended, where the coin isn't taken yet.
fn missed(standing: &Standing, line: u64, is_missed: bool) -> Option<u64>
    ensures { result ≡ missed line standing.now is_missed }
{
    match standing.unattended {
        None if is_missed && !standing.taken => Some(line),
        first => first,
    }
}
