ghost use Rattle.std.specs.Prelude.{◌≡◌, ◌≤◌, ◌++◌, ℕ, List, if◌then◌else◌, map, reverse, IfOk, OnOk, OnErr, Some, None, option_map};
ghost use Rattle.std.specs.List.{flat_map};
ghost use Rattle.std.specs.Option.{option_to_list};
ghost use Rattle.plasma_tx.specs.declared.owner.Owner.{Owner};
ghost use Rattle.plasma_tx.specs.Shown.{Tests, Rules};
ghost use Rattle.plasma_tx.specs.Table.{IsLegal};
ghost use Rattle.world_rules.specs.Events.{Event, log_of};
ghost use Rattle.world_rules.specs.Verdicts.{verdicts_on};
ghost use Rattle.coin_verdicts.specs.Facts.{AreFacts, OwnersStay};
ghost use Rattle.coin_verdicts.specs.Notes.{holder_in, declared};
ghost use Rattle.coin_verdicts.specs.Books.{book_at};
ghost use Rattle.coin_verdicts.specs.Readings.{Keeps, HasBooks};
ghost use Rattle.coin_verdicts.specs.Wallets.{made_by, coins_in, named_of, verdict_of_book, verdicts_of_books, verdicts_for};

use super::books::Books;
use super::fact::Fact;
use super::note::Holder;
use super::reading::Reading;
use super::standing::kind;
use super::wallet::NamedWallet;
use plasma_base::{Bytes, NoMemory};
use std::alloc::Global;
use world_rules::Verdict;

/// The verdicts on the wallets' coins, by the facts of a run's lines, one for each line, the oldest first: for each
/// wallet in turn, by rising coin, one on each coin that it ever held. It goes once over the facts, once more for
/// each wallet, and over a coin's own facts for each wallet. It is so of every run in which the calls that were
/// accepted are those of a contract and a declared wallet keeps its owner. `NoMemory` is its one refusal.
pub fn verdicts(
    alloc: Global,
    facts: &[Fact],
    wallets: &[NamedWallet],
) -> Result<Vec<Verdict>, NoMemory>
    ensures { (tests : Tests) (rules : Rules) (events : List Event) → AreFacts tests rules events (reverse facts.now)
        → IsLegal rules (log_of events) → OwnersStay events
        → IfOk result (λ found. found.items ≡ flat_map (verdicts_on tests rules events) (map named_of wallets.now)) }
{
    verdicts_by_facts(alloc, facts, wallets)
}

// The verdicts by facts alone.
fn verdicts_by_facts(
    alloc: Global,
    facts: &[Fact],
    wallets: &[NamedWallet],
) -> Result<Vec<Verdict>, NoMemory>
    ensures { IfOk result (λ found. found.items
        ≡ flat_map (verdicts_for (reverse facts.now)) (map named_of wallets.now)) }
{
    let count = count_coins(facts);
    let books = read_all(alloc, facts, count)?;
    let mut found = Vec::new(alloc);
    for wallet in wallets {
        push_wallet(&mut found, facts, &books, count, wallet)?;
    }
    Ok(found)
}

// How many coins the facts know.
fn count_coins(facts: &[Fact]) -> usize
    ensures { result ≡ coins_in (reverse facts.now) }
{
    let mut count = 0;
    for fact in facts {
        count += made_by(fact);
    }
    count
}

// How many coins a fact makes.
fn made_by(fact: &Fact) -> usize
    ensures value { result ≡ made_by fact.now }
    ensures few { result ≤ 1 }
{
    match fact {
        Fact::Deposits { .. } => 1,
        _ => 0,
    }
}

// The books of so many coins, with all facts read.
fn read_all(alloc: Global, facts: &[Fact], count: usize) -> Result<Books, NoMemory>
    ensures { IfOk result (λ books. HasBooks count (reverse facts.now) books) }
{
    let mut reading = Reading::new(alloc, count)?;
    for (i, fact) in facts.iter().enumerate() {
        reading.read(i as u64 + 1, fact)?;
    }
    Ok(reading.into_books())
}

// The wallet, as it was first declared.
fn holder(facts: &[Fact], wallet: u64) -> Option<Holder>
    ensures { result ≡ holder_in (reverse facts.now) wallet }
{
    for (i, fact) in facts.iter().enumerate() {
        if let Some(holder) = declared(fact, wallet, i as u64 + 1) {
            return Some(holder);
        }
    }
    None
}

// The holder that a fact in a line declares.
fn declared(fact: &Fact, wallet: u64, line: u64) -> Option<Holder>
    ensures { result ≡ declared wallet line fact.now }
{
    match fact {
        Fact::Declares {
            wallet: number,
            owner,
        } if *number == wallet => Some(Holder {
            wallet,
            since: line,
            owner: owner.get(),
        }),
        _ => None,
    }
}

// Adds a wallet's verdicts.
fn push_wallet(
    found: &mut Vec<Verdict>,
    facts: &[Fact],
    books: &Books,
    count: usize,
    wallet: &NamedWallet,
) -> Result<(), NoMemory>
    requires books { HasBooks count (reverse facts.now) books.now }
    requires count { count ≡ coins_in (reverse facts.now) }
    ensures { OnOk result (found.new.items
        ≡ found.old.items ++ verdicts_for (reverse facts.now) (named_of wallet.now)) }
{
    match holder(facts, wallet.number) {
        None => Ok(()),
        Some(holder) => push_verdicts(found, books, count, &holder, &wallet.name),
    }
}

// Adds the verdicts on a declared wallet's coins.
fn push_verdicts(
    found: &mut Vec<Verdict>,
    books: &Books,
    count: usize,
    holder: &Holder,
    name: &Bytes,
) -> Result<(), NoMemory>
    ensures { OnOk result (found.new.items
        ≡ found.old.items ++ verdicts_of_books books.now holder.now name.now count) }
{
    for i in 0..count {
        push_verdict(found, books, holder, name, i as u64 + 1)?;
    }
    Ok(())
}

// Adds the verdict on a coin, where the wallet ever held it.
fn push_verdict(
    found: &mut Vec<Verdict>,
    books: &Books,
    holder: &Holder,
    name: &Bytes,
    coin: u64,
) -> Result<(), NoMemory>
    ensures { OnOk result (found.new.items ≡ found.old.items
        ++ option_to_list (verdict_of_book holder.now name.now coin (book_at books.now coin))) }
{
    let Some(book) = books.get(coin) else {
        return Ok(());
    };
    let Some(kind) = kind(book.notes(), holder) else {
        return Ok(());
    };
    let wallet = name.copy()?;
    found.push(Verdict { wallet, coin, kind })?;
    Ok(())
}
