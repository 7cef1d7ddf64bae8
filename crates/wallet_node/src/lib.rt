//! A wallet over two disks: it takes coins up by their histories, signs transfers, each with a leaf that it bound
//! before, leaves with coins, takes transfers back, and says which calls are due for its coins.
#![tactic(auto)]

mod change;
mod kept_coins;
mod key;
mod laws;
mod leaf_commands;
mod making;
mod memory;
mod node;
mod note_commands;
mod note_texts;
mod opening;
mod reading;
mod reclaiming;
mod records;
mod role;
mod sending;
mod stops;
mod watching;

pub use key::WalletKey;
pub use laws::{a_device_fault_is_of_one_disk, a_wallets_leaf_has_one_message};
pub use node::WalletNode;
pub use node_rules::{
    Accepted, Reclaimed, Sent, WalletIdentity as Identity, WalletRefusal as NodeRefusal,
};
pub use opening::ReturnedBoth;
