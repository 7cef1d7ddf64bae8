ghost use Rattle.std.specs.Prelude.{◌≡◌, ◌-◌, ◌==◌, ◌||◌, if◌then◌else◌, nat_lt, not, filter, replicate, reverse, IfOk, OnOk, IfSome, IfNone, Some, None};
ghost use Rattle.coin_verdicts.specs.Facts.{has};
ghost use Rattle.coin_verdicts.specs.Notes.{is_guard, wallets_at, tips_at};
ghost use Rattle.coin_verdicts.specs.Quiet.{is_quiet_at};
ghost use Rattle.coin_verdicts.specs.Books.{blank, with_more, with_guard, without_guard, with_met, book_at, IsChanged, AreMet};

use super::fact::Numbers;
use super::note::{Change, Guard, Note};
use super::quiet::QuietNodes;
use plasma_base::NoMemory;
use std::alloc::Global;
use std::marker::Model;

/// The notes of a coin, and its guards. Contracts see the newest note first.
#[derive(Drop)]
pub struct Book {
    notes: Vec<Note>,
    guards: Vec<Guard>,
}

impl Model for Book {
    ghost use Rattle.std.specs.Prelude.{reverse};
    ghost use Rattle.coin_verdicts.specs.Books.{CoinBook};

    ghost Value = { CoinBook };

    ghost view = { λ b. record { notes = reverse b.notes.items; guards = b.guards.items } };
}

impl Book {
    /// A book with nothing in it.
    pub fn new(alloc: Global) -> Book
        ensures { result ≡ blank }
    {
        Book {
            notes: Vec::new(alloc),
            guards: Vec::new(alloc),
        }
    }

    /// Adds a note.
    pub fn note(&mut self, note: Note) -> Result<(), NoMemory>
        ensures { OnOk result (self.new ≡ with_more note self.old) }
    {
        self.notes.push(note)?;
        Ok(())
    }

    /// Adds a guard.
    pub fn guard(&mut self, guard: Guard) -> Result<(), NoMemory>
        ensures { OnOk result (self.new ≡ with_guard guard self.old) }
    {
        self.guards.push(guard)?;
        Ok(())
    }

    /// Lets a guard go.
    pub fn release(&mut self, watcher: u64, tip: u64)
        ensures { self.new ≡ without_guard watcher tip self.old }
    {
        remove_guard(&mut self.guards, watcher, tip);
    }

    /// The tips at which a quiet node that offers no call of the coin guards it.
    pub fn tips(&self, alloc: Global, coin: u64, nodes: &QuietNodes) -> Result<Numbers, NoMemory>
        ensures { IfOk result (λ tips. tips ≡ tips_at (is_quiet_at nodes.now coin) self.now.guards) }
    {
        Ok(Numbers::from_vec(tips_at(alloc, coin, nodes, &self.guards)?))
    }

    /// Notes that a tick met a deadline of the coin, whose book this is. These wallets were declared.
    pub fn meet(
        &mut self,
        alloc: Global,
        line: u64,
        coin: u64,
        wallets: &[u64],
        nodes: &QuietNodes,
    ) -> Result<(), NoMemory>
        ensures { OnOk result (self.new ≡ with_met line coin wallets.now (is_quiet_at nodes.now) self.old) }
    {
        let tips = self.tips(alloc, coin, nodes)?;
        let wallets = Numbers::from_vec(wallets_at(alloc, coin, nodes, wallets)?);
        self.note(Note {
            line,
            change: Change::Meets { wallets, tips },
        })
    }

    /// The notes, the oldest first.
    pub fn notes(&self) -> &[Note]
        ensures { reverse result.now ≡ self.now.notes }
    {
        self.notes.as_slice()
    }
}

/// The books of coins, which are counted from 1.
#[derive(Drop)]
pub struct Books {
    items: Vec<Book>,
}

impl Model for Books {
    ghost use Rattle.std.specs.Prelude.{List};
    ghost use Rattle.coin_verdicts.specs.Books.{CoinBook};

    ghost Value = { List CoinBook };

    ghost view = { λ b. b.items.items };
}

impl Books {
    /// So many books with nothing in them.
    pub fn new(alloc: Global, count: usize) -> Result<Books, NoMemory>
        ensures { IfOk result (λ books. books ≡ replicate count blank) }
    {
        let mut items = Vec::new(alloc);
        for _ in 0..count {
            items.push(Book::new(alloc))?;
        }
        Ok(Books { items })
    }

    /// The book of a coin, where there is one.
    pub fn get(&self, coin: u64) -> Option<&Book>
        ensures some { IfSome result (λ book. book_at self.now coin ≡ Some book.now) }
        ensures none { IfNone result (book_at self.now coin ≡ None) }
    {
        match place_of(self.items.len(), coin) {
            None => None,
            Some(place) => Some(&self.items[place]),
        }
    }

    /// Adds a note to the coin's book, where there is one.
    pub fn note(&mut self, coin: u64, note: Note) -> Result<(), NoMemory>
        ensures { OnOk result (IsChanged coin (with_more note) self.old self.new) }
    {
        match place_of(self.items.len(), coin) {
            None => Ok(()),
            Some(place) => self.items[place].note(note),
        }
    }

    /// Adds a guard to the coin's book, where there is one.
    pub fn guard(&mut self, coin: u64, guard: Guard) -> Result<(), NoMemory>
        ensures { OnOk result (IsChanged coin (with_guard guard) self.old self.new) }
    {
        match place_of(self.items.len(), coin) {
            None => Ok(()),
            Some(place) => self.items[place].guard(guard),
        }
    }

    /// Lets a guard of the coin go.
    pub fn release(&mut self, coin: u64, watcher: u64, tip: u64)
        ensures { IsChanged coin (without_guard watcher tip) self.old self.new }
    {
        match place_of(self.items.len(), coin) {
            None => {}
            Some(place) => self.items[place].release(watcher, tip),
        }
    }

    /// Notes that a tick met a deadline of the coin, where there is its book.
    pub fn meet(
        &mut self,
        alloc: Global,
        line: u64,
        coin: u64,
        wallets: &[u64],
        nodes: &QuietNodes,
    ) -> Result<(), NoMemory>
        ensures { OnOk result (IsChanged coin
            (with_met line coin wallets.now (is_quiet_at nodes.now)) self.old self.new) }
    {
        match place_of(self.items.len(), coin) {
            None => Ok(()),
            Some(place) => self.items[place].meet(alloc, line, coin, wallets, nodes),
        }
    }

    /// Notes that a tick met deadlines of these coins.
    pub fn meet_all(
        &mut self,
        alloc: Global,
        line: u64,
        met: &[u64],
        wallets: &[u64],
        nodes: &QuietNodes,
    ) -> Result<(), NoMemory>
        ensures { OnOk result (AreMet line wallets.now (is_quiet_at nodes.now) met.now self.old self.new) }
    {
        for coin in met {
            self.meet(alloc, line, *coin, wallets, nodes)?;
        }
        Ok(())
    }
}

// The place of the coin's book among so many.
fn place_of(count: usize, coin: u64) -> Option<usize>
    ensures { result ≡ (if (coin == 0) || nat_lt count coin then None else Some (coin - 1)) }
{
    if coin == 0 || count < coin as usize {
        None
    } else {
        Some(coin as usize - 1)
    }
}

// Takes a guard out.
fn remove_guard(guards: &mut Vec<Guard>, watcher: u64, tip: u64)
    ensures { guards.new.items ≡ filter (λ guard. not (is_guard watcher tip guard)) guards.old.items }
{
    guards.retain(|guard| !(guard.watcher == watcher && guard.tip == tip));
}

// The tips at which a quiet node that offers no call of the coin guards it.
fn tips_at(
    alloc: Global,
    coin: u64,
    nodes: &QuietNodes,
    guards: &[Guard],
) -> Result<Vec<u64>, NoMemory>
    ensures { IfOk result (λ tips. tips.items ≡ tips_at (is_quiet_at nodes.now coin) guards.now) }
{
    let mut tips = Vec::new(alloc);
    for guard in guards {
        if nodes.is_at(guard.watcher, coin) {
            tips.push(guard.tip)?;
        }
    }
    Ok(tips)
}

// Those of the wallets that are quiet nodes and offer no call of the coin.
fn wallets_at(
    alloc: Global,
    coin: u64,
    nodes: &QuietNodes,
    wallets: &[u64],
) -> Result<Vec<u64>, NoMemory>
    ensures { IfOk result (λ quiet. quiet.items ≡ wallets_at (is_quiet_at nodes.now coin) wallets.now) }
{
    let mut quiet = Vec::new(alloc);
    for wallet in wallets {
        if nodes.is_at(*wallet, coin) {
            quiet.push(*wallet)?;
        }
    }
    Ok(quiet)
}
