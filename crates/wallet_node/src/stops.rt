ghost use Rattle.std.specs.Prelude.{◌≡◌, Some};
ghost use Rattle.wallet_node.specs.State.{stop_in};
ghost use Rattle.wallet_node.specs.Inside.{history_refusal};

use coin_history::HistoryRefusal;
use node_journal::Stop;
use node_rules::WalletRefusal;

// What stopped a record, as a refusal.
pub fn stop_refusal(stop: Stop) -> WalletRefusal
    ensures { stop_in result ≡ Some stop }
{
    match stop {
        Stop::Closed => WalletRefusal::Closed,
        Stop::NoMemory => WalletRefusal::NoMemory,
        Stop::DeviceFault => WalletRefusal::DeviceFault,
    }
}

// Why a history is refused, as a refusal.
pub fn history_refusal(why: HistoryRefusal) -> WalletRefusal
    ensures is { result ≡ history_refusal why }
    ensures memory { result ≡ WalletRefusal.NoMemory → why ≡ HistoryRefusal.NoMemory }
{
    match why {
        HistoryRefusal::NoMemory => WalletRefusal::NoMemory,
        _ => WalletRefusal::History { why },
    }
}
