ghost use Rattle.std.specs.Prelude.{◌≡◌, ℕ, ◌-◌, ◌∷◌, [], List, ◌++◌, ◌==◌, if◌then◌else◌, length, take, IfOk, OnOk};
ghost use Rattle.std.specs.List.{list_any};
ghost use Rattle.std.specs.Option.{option_copied};
ghost use Rattle.world_rules.specs.Events.{Event};
ghost use Rattle.trace_exhibits.specs.Lines.{event_of};
ghost use Rattle.trace_exhibits.specs.Opened.{Opened};
ghost use Rattle.trace_exhibits.specs.Wallets.{bodies_of, owner_in, is_bound_in, signs_unbound, KeepsWallets, is_forged_since};

use super::forging::is_same;
use super::lines::ExhibitLine;
use super::shown::ShownOpening;
use plasma_base::NoMemory;
use plasma_tx::{Body, Owner, SignedTx, leaf_in, leaf_tx, signed_by};
use std::alloc::Global;
use std::collections::HashMap;

/// A wallet that was declared.
#[derive(Clone, Copy)]
pub(crate) struct Declared {
    pub(crate) wallet: u64,
    pub(crate) owner: Owner,
}

/// A body that a leaf of a wallet bound.
#[derive(Clone, Copy)]
pub(crate) struct Bound {
    pub(crate) wallet: u64,
    pub(crate) body: Body,
}

/// What lines said of wallets: the declarations, the newest first, and for each coin the bodies that were bound.
#[derive(Drop)]
pub(crate) struct Known {
    pub(crate) declared: Vec<Declared>,
    pub(crate) bodies: HashMap<u64, Vec<Bound>>,
}

impl Known {
    /// What no line said. It takes no memory.
    pub(crate) fn new(alloc: Global) -> Known
        ensures { KeepsWallets [] result }
    {
        Known {
            declared: Vec::new(alloc),
            bodies: HashMap::new(alloc),
        }
    }

    /// Adds what a line says.
    pub(crate) fn add(&mut self, line: &ExhibitLine<'_>) -> Result<(), NoMemory>
        ensures { OnOk result ((events : List Event) → KeepsWallets events self.old
            → KeepsWallets (event_of line.now ∷ events) self.new) }
    {
        match line {
            ExhibitLine::Declares { wallet, owner } => {
                let declared = Declared {
                    wallet: *wallet,
                    owner: **owner,
                };
                self.declared.insert(0, declared)?;
            }
            ExhibitLine::Binds { wallet, body } => {
                let bound = Bound {
                    wallet: *wallet,
                    body: **body,
                };
                bind(*self.declared.allocator(), &mut self.bodies, bound)?;
            }
            _ => {}
        }
        Ok(())
    }

    /// How many wallets were declared.
    pub(crate) fn count(&self) -> usize
        ensures { result ≡ length self.now.declared.items }
    {
        self.declared.len()
    }

    /// Whether the opening shows a signature of a wallet that was declared since there were so many, over a body that
    /// no leaf of it bound.
    pub(crate) fn is_forged(
        &self,
        alloc: Global,
        tag: &[u8; 32],
        one: &ShownOpening<'_>,
        count: usize,
    ) -> Result<bool, NoMemory>
        ensures { IfOk result (λ forged. (events : List Event) → KeepsWallets events self.now
            → forged ≡ is_forged_since tag.now count events one.now) }
    {
        let opening = one.opening();
        let leaf = leaf_in(opening.bytes.as_slice());
        match leaf_tx(alloc, tag, one.coin(), opening.block, leaf)? {
            None => Ok(false),
            Some(tx) => Ok(self.some_signs(&tx, count)),
        }
    }

    // Whether a wallet that was declared since there were so many signed the transfer, whose body no leaf of it bound.
    fn some_signs(&self, tx: &SignedTx, count: usize) -> bool
        ensures { let bodies = bodies_of self.now.bodies tx.now.body.coin in result
            ≡ list_any (λ one. signs_unbound self.now.declared.items bodies tx.now one.wallet)
            (take (length self.now.declared.items - count) self.now.declared.items) }
    {
        let bodies = bodies_of(&self.bodies, tx.body.coin);
        let declared = self.declared.as_slice();
        let newer = declared.len().saturating_sub(count);
        declared[..newer]
            .iter()
            .any(|one| signs_unbound(declared, bodies, one.wallet, tx))
    }
}

// Adds a body to those of its coin.
fn bind(alloc: Global, bodies: &mut HashMap<u64, Vec<Bound>>, bound: Bound) -> Result<(), NoMemory>
    ensures { OnOk result ((coin : ℕ) → bodies_of bodies.new coin
        ≡ (if bound.body.coin == coin then bodies_of bodies.old coin ++ bound ∷ [] else bodies_of bodies.old coin)) }
{
    let coin = bound.body.coin;
    let mut these = match bodies.remove(&coin) {
        Some(these) => these,
        None => Vec::new(alloc),
    };
    these.push(bound)?;
    bodies.insert(coin, these)?;
    Ok(())
}

// The bodies of a coin that were bound.
fn bodies_of(bodies: &HashMap<u64, Vec<Bound>>, coin: u64) -> &[Bound]
    ensures { result.now ≡ bodies_of bodies.now coin }
{
    match bodies.get(&coin) {
        Some(these) => these.as_slice(),
        None => &[],
    }
}

// Whether the wallet signed the transfer, whose body no leaf of it bound. A signature is tested last.
fn signs_unbound(declared: &[Declared], bodies: &[Bound], wallet: u64, tx: &SignedTx) -> bool
    ensures { result ≡ signs_unbound declared.now bodies.now tx.now wallet }
{
    match owner_of(declared, wallet) {
        None => false,
        Some(me) => !is_bound(bodies, wallet, &tx.body) && signed_by(tx, me),
    }
}

// Who a wallet is.
fn owner_of(declared: &[Declared], wallet: u64) -> Option<&Owner>
    ensures { option_copied result ≡ owner_in declared.now wallet }
{
    let found = declared.iter().find(|one| one.wallet == wallet)?;
    Some(&found.owner)
}

// Whether a leaf of the wallet bound the body.
fn is_bound(bodies: &[Bound], wallet: u64, body: &Body) -> bool
    ensures { result ≡ is_bound_in bodies.now wallet body.now }
{
    bodies
        .iter()
        .any(|one| one.wallet == wallet && is_same(body, &one.body))
}
