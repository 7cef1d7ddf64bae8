ghost use Rattle.std.specs.Prelude.{◌≡◌};
ghost use Rattle.std.specs.List.{list_any};
ghost use Rattle.world_scene.specs.Names.{is_wallet_view, has_wallet_key, has_wallet_seed};
ghost use Rattle.world_scene.specs.Seeking.{is_sought};

use plasma_base::Hash32;
use world_nodes::{Entry, NodeKind};

/// What is looked for among the nodes, where a wallet is declared.
#[derive(Drop)]
pub enum Sought<'a> {
    /// A node with the account.
    Account { account: u64 },
    /// A wallet with the key.
    Key { key: &'a [u8; 56] },
    /// A wallet with the seed.
    Seed { seed: &'a [u8; 32] },
}

// Whether the node is a wallet.
pub(crate) fn is_wallet<H: Hash32 + Copy>(entry: &Entry<H>) -> bool
    ensures { result ≡ is_wallet_view entry.now }
{
    entry.kind() == NodeKind::Wallet
}

// Whether it is a wallet with this key.
fn has_key<H: Hash32 + Copy>(entry: &Entry<H>, key: &[u8; 56]) -> bool
    ensures { result ≡ has_wallet_key key.now entry.now }
{
    match entry.owner() {
        Some(owner) => owner.key == *key,
        None => false,
    }
}

// Whether it is a wallet with this seed.
fn has_seed<H: Hash32 + Copy>(entry: &Entry<H>, seed: &[u8; 32]) -> bool
    ensures { result ≡ has_wallet_seed seed.now entry.now }
{
    match entry.seed() {
        Some(other) => other == *seed,
        None => false,
    }
}

// Whether the node is what is looked for.
fn is_sought<H: Hash32 + Copy>(entry: &Entry<H>, sought: &Sought<'_>) -> bool
    ensures { result ≡ is_sought sought.now entry.now }
{
    match sought {
        Sought::Account { account } => entry.account() == *account,
        Sought::Key { key } => has_key(entry, key),
        Sought::Seed { seed } => has_seed(entry, seed),
    }
}

// Whether there is a node that is looked for.
pub(crate) fn is_there<H: Hash32 + Copy>(entries: &[Entry<H>], sought: &Sought<'_>) -> bool
    ensures { result ≡ list_any (is_sought sought.now) entries.now }
{
    for entry in entries {
        if is_sought(entry, sought) {
            return true;
        }
    }
    false
}
