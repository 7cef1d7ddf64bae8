ghost use Rattle.std.specs.Prelude.{◌≡◌, ◌<◌, true, false, length, IfOk, OnOk, IsErrOf, option_map};
ghost use Rattle.line_forms.specs.Tokens.{IsHexOrName};
ghost use Rattle.world_rules.specs.Declarations.{plays, may_command};
ghost use Rattle.world_rules.specs.World.{new_owner_of};
ghost use Rattle.world_rules.specs.Orders.{order_of, operator_order, wallet_order, watch_order, watcher_order};
ghost use Rattle.world_scene.specs.Names.{passes};
ghost use Rattle.world_scene.specs.Scenes.{world_of};
ghost use Rattle.world_scene.specs.Orders.{HasOwner, NamesOwner, OrderAt, IsChosen};
ghost use Rattle.world_nodes.specs.Nodes.{role_of};

use super::names::Roles;
use super::refusal::StepRefusal;
use super::scene::Scene;
use line_forms::HexOrName;
use node_replies::{NodeOrder, OperatorOrder, WalletOrder, WatcherOrder};
use plasma_base::{Hash32, NoMemory};
use schedule_text::{Command, OperatorCommand, WalletCommand, WatcherCommand};
use world_nodes::NodeKind;

// Which nodes have the command.
pub fn roles_of(command: &Command) -> Roles
    ensures { passes result ≡ plays command.now }
{
    match command {
        Command::Wallet { .. } => Roles::Wallets,
        Command::Watcher { .. } => Roles::Watchers,
        Command::Operator { .. } => Roles::Operators,
        Command::Watch { .. } => Roles::Watching,
        Command::Open { .. } => Roles::Any,
    }
}

// The order to watch.
fn watch_order(kind: NodeKind) -> Option<NodeOrder>
    ensures { result ≡ watch_order (role_of kind) }
{
    match kind {
        NodeKind::Wallet => Some(NodeOrder::Wallet(WalletOrder::Watch)),
        NodeKind::Watcher => Some(NodeOrder::Watcher(WatcherOrder::Watch)),
        NodeKind::Operator => None,
    }
}

impl<H: Hash32 + Copy> Scene<H> {
    // The order that a watcher's command stands for.
    fn watcher_order(&self, command: &WatcherCommand) -> Result<WatcherOrder, NoMemory>
        ensures { IfOk result (λ order. order ≡ watcher_order (world_of self.now) command.now) }
    {
        Ok(match command {
            WatcherCommand::Guard { bundle } => WatcherOrder::Guard {
                bundle: self.bytes_of(bundle)?,
            },
            WatcherCommand::Release { coin, tip } => WatcherOrder::Release {
                coin: *coin,
                tip: *tip,
            },
        })
    }

    // The order that a command of the operator stands for.
    fn operator_order(&self, command: &OperatorCommand) -> Result<OperatorOrder, NoMemory>
        ensures { IfOk result (λ order. order ≡ operator_order (world_of self.now) command.now) }
    {
        Ok(match command {
            OperatorCommand::Offer { transfer } => OperatorOrder::Offer {
                transfer: self.bytes_of(transfer)?,
            },
            OperatorCommand::Lay { coin, leaf } => OperatorOrder::Lay {
                coin: *coin,
                leaf: self.bytes_of(leaf)?,
            },
            OperatorCommand::Seal => OperatorOrder::Seal,
            OperatorCommand::Bundle { coin, tip } => OperatorOrder::Bundle {
                coin: *coin,
                tip: *tip,
            },
            OperatorCommand::Prove { coin, block } => OperatorOrder::Prove {
                coin: *coin,
                block: *block,
            },
            OperatorCommand::Absences { coin, after, last } => OperatorOrder::Absences {
                coin: *coin,
                after: *after,
                last: *last,
            },
        })
    }

    // The order to send a coin to the owner of a token; none where nobody declared it.
    fn send_order(
        &self,
        coin: u64,
        to: &HexOrName,
        last: Option<u64>,
    ) -> Result<Option<WalletOrder>, NoMemory>
        requires { IsHexOrName 64 to.now }
        ensures { IfOk result (λ order. order
            ≡ option_map (λ owner. WalletOrder.Send coin owner last) (new_owner_of (world_of self.now) to.now)) }
    {
        match self.new_owner_of(to)? {
            Some(to) => Ok(Some(WalletOrder::Send { coin, to, last })),
            None => Ok(None),
        }
    }

    // The order that a wallet's command stands for; none where it names an owner whom nobody declared.
    fn wallet_order(&self, command: &WalletCommand) -> Result<Option<WalletOrder>, NoMemory>
        requires { HasOwner command.now }
        ensures { IfOk result (λ order. order ≡ wallet_order (world_of self.now) command.now) }
    {
        Ok(match command {
            WalletCommand::Accept { bundle } => Some(WalletOrder::Accept {
                bundle: self.bytes_of(bundle)?,
            }),
            WalletCommand::Send { coin, to, last } => self.send_order(*coin, to, *last)?,
            WalletCommand::Again { coin } => Some(WalletOrder::Again { coin: *coin }),
            WalletCommand::Leave { coin } => Some(WalletOrder::Leave { coin: *coin }),
            WalletCommand::Reclaim { bundle } => Some(WalletOrder::Reclaim {
                bundle: self.bytes_of(bundle)?,
            }),
            WalletCommand::Migrate => Some(WalletOrder::Migrate),
        })
    }

    // The order that a command of a node of this kind stands for.
    #[tactic(auto, unfolding(world_rules::specs::Orders::order_of))]
    pub(crate) fn order_of(
        &self,
        kind: NodeKind,
        command: &Command,
    ) -> Result<Option<NodeOrder>, NoMemory>
        requires { NamesOwner command.now }
        ensures { IfOk result (λ order. order ≡ order_of (world_of self.now) (role_of kind) command.now) }
    {
        Ok(match command {
            Command::Wallet { command, .. } => self.wallet_order(command)?.map(NodeOrder::Wallet),
            Command::Watcher { command, .. } => Some(NodeOrder::Watcher(self.watcher_order(
                command,
            )?)),
            Command::Operator { command } => Some(NodeOrder::Operator(self.operator_order(
                command,
            )?)),
            Command::Watch { .. } => watch_order(kind),
            Command::Open { .. } => Some(NodeOrder::Open),
        })
    }

    // The order that a command stands for at the node with this number.
    pub(crate) fn order_at(
        &self,
        n: usize,
        command: &Command,
    ) -> Result<Option<NodeOrder>, NoMemory>
        requires inside { n < length self.now.nodes }
        requires names { NamesOwner command.now }
        ensures { IfOk result (λ order. OrderAt (world_of self.now) self.now.nodes n command.now order) }
    {
        let kind = self.nodes.at(n).kind();
        self.order_of(kind, command)
    }
}

// A node, by its number, and an order of it.
pub struct Chosen {
    pub n: usize,
    pub order: NodeOrder,
}

// Written by hand, so that each place that lets one go calls it; a derived one is proved anew at each.
impl Drop for Chosen {
    fn drop(self) {
        let Chosen { n: _, order: _ } = self;
    }
}

impl<H: Hash32 + Copy> Scene<H> {
    // The node that a command names, and its order there. `BadLine` comes exactly where a name isn't declared as what
    // the command asks for.
    #[tactic(auto)]
    pub(crate) fn choose(&self, command: &Command) -> Result<Chosen, StepRefusal>
        requires { NamesOwner command.now }
        ensures chosen { IfOk result (λ chosen. IsChosen self.now command.now chosen.n chosen.order) }
        ensures keeps { OnOk result (may_command (world_of self.now) command.now ≡ true) }
        ensures bad { IsErrOf result StepRefusal.BadLine → may_command (world_of self.now) command.now ≡ false }
    {
        let Some(n) = self.number_of(roles_of(command), command.node()) else {
            return Err(StepRefusal::BadLine);
        };
        match self.order_at(n, command)? {
            Some(order) => Ok(Chosen { n, order }),
            None => Err(StepRefusal::BadLine),
        }
    }
}
