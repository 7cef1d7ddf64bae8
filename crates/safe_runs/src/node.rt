ghost use Rattle.std.specs.Prelude.{◌≡◌, IfOk};
ghost use Rattle.safe_runs.specs.Runs.{Node};

use super::case::Case;
use super::told::Coins;
use plasma_base::NoMemory;
use plasma_tx::RootLog;
use std::alloc::Global;

/// What a node's records say of its coins.
pub trait Holder {
    /// It is this node.
    ghost is: { Self → Node → Type 0 };

    /// It may be asked for its coins.
    ghost sound: { Self → Type 0 };

    /// The tag of its chain.
    fn tag(&self) -> [u8; 32]
        ensures { (node : Node) → is self.now node → result ≡ node.tag };

    /// Its account.
    fn account(&self) -> u64
        ensures { (node : Node) → is self.now node → result ≡ node.account };

    /// Its coins, of which some are hidden, and what it keeps of each.
    fn cases(&self, alloc: Global, log: &RootLog, hidden: &Coins) -> Result<Vec<Case>, NoMemory>
        requires { sound self.now }
        ensures { (node : Node) → is self.now node
            → IfOk result (λ cases. cases.items ≡ node.cases log.now.log hidden.now) };
}
