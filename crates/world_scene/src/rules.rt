ghost use Rattle.std.specs.Prelude.{◌≡◌, length};
ghost use Rattle.world_rules.specs.Declarations.{is_wallet_account, is_declared_account, is_caller, is_wallet_key, is_wallet_seed, wallet_nodes};
ghost use Rattle.world_scene.specs.Scenes.{world_of};

use super::node_list::is_in;
use super::scene::Scene;
use super::seeking::{Sought, is_there};
use plasma_base::Hash32;

impl<H: Hash32 + Copy> Scene<H> {
    // How many wallets are declared.
    pub(crate) fn count_wallets(&self) -> usize
        ensures { result ≡ length (wallet_nodes (world_of self.now)) }
    {
        self.nodes.count_wallets()
    }

    // Whether the account is a wallet's.
    pub(crate) fn is_wallet_account(&self, account: u64) -> bool
        ensures { result ≡ is_wallet_account (world_of self.now) account }
    {
        self.nodes.is_wallet_account(account)
    }

    // Whether the account is the operator's, or that of a declared name.
    pub(crate) fn is_declared_account(&self, account: u64) -> bool
        ensures { result ≡ is_declared_account (world_of self.now) account }
    {
        is_there(self.nodes.as_slice(), &Sought::Account { account })
            || self.rogues.has_account(account)
    }

    // Whether an earlier `call` line has the account.
    #[tactic(auto, using(crate::proofs::Views::callers_reversed))]
    pub(crate) fn is_caller(&self, account: u64) -> bool
        ensures { result ≡ is_caller (world_of self.now) account }
    {
        is_in(&self.raw_callers, account)
    }

    // Whether a wallet has the key.
    pub(crate) fn is_wallet_key(&self, key: &[u8; 56]) -> bool
        ensures { result ≡ is_wallet_key (world_of self.now) key.now }
    {
        is_there(self.nodes.as_slice(), &Sought::Key { key })
    }

    // Whether a wallet has the seed.
    pub(crate) fn is_wallet_seed(&self, seed: &[u8; 32]) -> bool
        ensures { result ≡ is_wallet_seed (world_of self.now) seed.now }
    {
        is_there(self.nodes.as_slice(), &Sought::Seed { seed })
    }
}
