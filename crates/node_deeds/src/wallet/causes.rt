ghost use Rattle.std.specs.Prelude.{◌≡◌};
ghost use Rattle.wallet_node.specs.State.{stop_in};
ghost use Rattle.node_replies.specs.Causes.{wallet_cause};
ghost use Rattle.node_deeds.specs.WalletInside.{HandsOn};

use node_journal::Stop;
use node_replies::{Given, refused, wallet_cause};
use node_rules::WalletRefusal;
use std::alloc::Global;

// What stopped a command that was refused for this.
fn stop_in(why: &WalletRefusal) -> Option<Stop>
    ensures { result ≡ stop_in why.now }
{
    match *why {
        WalletRefusal::Closed => Some(Stop::Closed),
        WalletRefusal::NoMemory => Some(Stop::NoMemory),
        WalletRefusal::DeviceFault => Some(Stop::DeviceFault),
        _ => None,
    }
}

// What comes of a refusal: a stop is handed on, and another cause is given out as its text, or finds no memory.
pub fn refuse(alloc: Global, why: &WalletRefusal) -> Result<Given, Stop>
    ensures { HandsOn (stop_in why.now) (wallet_cause why.now) result }
{
    match stop_in(why) {
        Some(stop) => Err(stop),
        None => match wallet_cause(alloc, why) {
            Ok(cause) => Ok(refused(alloc, cause)),
            Err(_) => Err(Stop::NoMemory),
        },
    }
}
