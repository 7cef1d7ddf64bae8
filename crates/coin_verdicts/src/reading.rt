use super::books::Books;
use super::fact::{Fact, Numbers};
use super::note::{Change, Guard, Leaf, Note};
use super::quiet::QuietNodes;
use super::signers::Signers;
use plasma_base::NoMemory;
use plasma_tx::Owner;
use std::alloc::Global;

/// What is kept of the facts that were read.
#[derive(Drop)]
pub struct Reading {
    pub alloc: Global,
    /// The wallets that were declared, the oldest first.
    pub wallets: Vec<u64>,
    pub nodes: QuietNodes,
    pub signers: Signers,
    pub books: Books,
}

impl Reading {
    ghost use Rattle.std.specs.Prelude.{◌≡◌, ℕ, [], IfOk, OnOk};
    ghost use Rattle.plasma_tx.specs.declared.owner.Owner.{Owner};
    ghost use Rattle.coin_verdicts.specs.declared.fact.Fact.{Fact};
    ghost use Rattle.coin_verdicts.specs.Readings.{Keeps, Reads};

    /// Nothing was read, of so many coins.
    pub fn new(alloc: Global, count: usize) -> Result<Reading, NoMemory>
        ensures { IfOk result (λ reading. Keeps count [] reading) }
    {
        Ok(Reading {
            alloc,
            wallets: Vec::new(alloc),
            nodes: QuietNodes::new(alloc),
            signers: Signers::new(alloc),
            books: Books::new(alloc, count)?,
        })
    }

    /// The books.
    pub fn into_books(self) -> Books
        ensures { result ≡ self.books }
    {
        let Reading { books, .. } = self;
        books
    }

    /// Reads the fact of a line.
    pub fn read(&mut self, line: u64, fact: &Fact) -> Result<(), NoMemory>
        ensures { OnOk result (Reads line fact.now self.old self.new) }
    {
        match fact {
            Fact::Declares { wallet, .. } => self.declare(*wallet),
            Fact::Idle => Ok(()),
            Fact::Other { node } => {
                self.nodes.remove(*node);
                Ok(())
            }
            Fact::Joins => {
                self.nodes.clear();
                Ok(())
            }
            Fact::Watches { node, coins } => self.watch(*node, coins),
            Fact::Guards { watcher, coin, tip } => self.guard(*watcher, *coin, *tip),
            Fact::Releases { watcher, coin, tip } => {
                self.release(*watcher, *coin, *tip);
                Ok(())
            }
            Fact::Deposits { coin, block, owner } => self.deposit(line, *coin, *block, owner.get()),
            Fact::Ticks { met } => self.tick(line, met),
            Fact::Ends {
                coin,
                block,
                account,
                paid,
            } => self.end(line, *coin, *block, *account, *paid),
            Fact::Accepts { wallet, coin, tip } => self.accept(line, *wallet, *coin, *tip),
            Fact::Binds {
                wallet,
                coin,
                parent,
            } => self.bind(line, *wallet, *coin, *parent),
            Fact::TakesBack { wallet, leaf } => self.take_back(line, *wallet, *leaf),
        }
    }

    // A wallet is declared.
    fn declare(&mut self, wallet: u64) -> Result<(), NoMemory>
        ensures { (line : ℕ) (me : Owner) → OnOk result (Reads line (Fact.Declares wallet me) self.old self.new) }
    {
        self.wallets.push(wallet)?;
        Ok(())
    }

    // A node watches.
    fn watch(&mut self, node: u64, coins: &Numbers) -> Result<(), NoMemory>
        ensures { (line : ℕ) → OnOk result (Reads line (Fact.Watches node coins.now) self.old self.new) }
    {
        self.nodes.watch(node, coins.copy(self.alloc)?)?;
        Ok(())
    }

    // A watcher guards a coin.
    fn guard(&mut self, watcher: u64, coin: u64, tip: u64) -> Result<(), NoMemory>
        ensures { (line : ℕ) → OnOk result (Reads line (Fact.Guards watcher coin tip) self.old self.new) }
    {
        self.nodes.remove(watcher);
        self.books.guard(coin, Guard { watcher, tip })?;
        Ok(())
    }

    // A watcher lets a coin go.
    fn release(&mut self, watcher: u64, coin: u64, tip: u64)
        ensures { (line : ℕ) → Reads line (Fact.Releases watcher coin tip) self.old self.new }
    {
        self.nodes.remove(watcher);
        self.books.release(coin, watcher, tip);
    }

    // A coin is deposited.
    fn deposit(&mut self, line: u64, coin: u64, block: u64, owner: Owner) -> Result<(), NoMemory>
        ensures { OnOk result (Reads line (Fact.Deposits coin block owner) self.old self.new) }
    {
        self.nodes.clear();
        let change = Change::Deposits { block, owner };
        self.books.note(coin, Note { line, change })?;
        Ok(())
    }

    // A tick meets deadlines.
    fn tick(&mut self, line: u64, met: &Numbers) -> Result<(), NoMemory>
        ensures { OnOk result (Reads line (Fact.Ticks met.now) self.old self.new) }
    {
        let wallets = self.wallets.as_slice();
        self.books
            .meet_all(self.alloc, line, met.as_slice(), wallets, &self.nodes)?;
        self.nodes.clear();
        Ok(())
    }

    // An exit ends.
    fn end(
        &mut self,
        line: u64,
        coin: u64,
        block: u64,
        account: u64,
        paid: bool,
    ) -> Result<(), NoMemory>
        ensures { OnOk result (Reads line (Fact.Ends coin block account paid) self.old self.new) }
    {
        self.nodes.clear();
        let change = Change::Ends {
            block,
            account,
            paid,
        };
        self.books.note(coin, Note { line, change })?;
        Ok(())
    }

    // A wallet accepts a coin.
    fn accept(&mut self, line: u64, wallet: u64, coin: u64, tip: u64) -> Result<(), NoMemory>
        ensures { OnOk result (Reads line (Fact.Accepts wallet coin tip) self.old self.new) }
    {
        self.nodes.remove(wallet);
        let change = Change::Accepts { wallet, tip };
        self.books.note(coin, Note { line, change })?;
        Ok(())
    }

    // A wallet's next leaf signs a coin away.
    fn bind(&mut self, line: u64, wallet: u64, coin: u64, parent: u64) -> Result<(), NoMemory>
        ensures { OnOk result (Reads line (Fact.Binds wallet coin parent) self.old self.new) }
    {
        self.nodes.remove(wallet);
        if !self.signers.bind(wallet, Leaf { coin, parent })? {
            return Ok(());
        }
        let change = Change::Sends { wallet, parent };
        self.books.note(coin, Note { line, change })?;
        Ok(())
    }

    // A wallet takes a leaf back.
    fn take_back(&mut self, line: u64, wallet: u64, leaf: u32) -> Result<(), NoMemory>
        ensures { OnOk result (Reads line (Fact.TakesBack wallet leaf) self.old self.new) }
    {
        self.nodes.remove(wallet);
        let Some(bound) = self.signers.take_back(wallet, leaf as u64)? else {
            return Ok(());
        };
        let change = Change::Returns {
            wallet,
            parent: bound.parent,
        };
        self.books.note(bound.coin, Note { line, change })?;
        Ok(())
    }
}
