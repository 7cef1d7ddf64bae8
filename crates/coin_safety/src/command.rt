ghost use Rattle.std.specs.Prelude.{◌≡◌, is_some};
ghost use Rattle.coin_safety.specs.Advice.{tip, left_by};
ghost use Rattle.coin_safety.specs.Commands.{may_reclaim, reclaim, command_of};

use super::look::Look;
use super::word::Command;

impl Look<'_> {
    /// What the node is told beside the calls.
    pub(crate) fn command(&self, left: bool) -> Option<Command>
        requires { left ≡ is_some (left_by self.now.log.now.log self.now.kept.now.links.coin (tip self.now.kept.now)) }
        ensures { result ≡ command_of self.now.log.now.log self.now.kept.now }
    {
        if self.kept.guarded && left {
            return Some(Command::Release);
        }
        self.reclaim(left)
    }

    /// Whether a wallet may take back the transfer by which it signed the coin away.
    fn reclaim(&self, left: bool) -> Option<Command>
        requires { left ≡ is_some (left_by self.now.log.now.log self.now.kept.now.links.coin (tip self.now.kept.now)) }
        ensures { result ≡ reclaim self.now.log.now.log self.now.kept.now }
    {
        let last = self.kept.sent?.last?;
        if self.may_reclaim(last, left) {
            Some(Command::Reclaim { last })
        } else {
            None
        }
    }

    /// Whether the transfer's last block has come, the coin isn't paid out, no exit of it stands, and no answer shows
    /// that the transfer went through.
    fn may_reclaim(&self, last: u64, left: bool) -> bool
        requires { left ≡ is_some (left_by self.now.log.now.log self.now.kept.now.links.coin (tip self.now.kept.now)) }
        ensures { result ≡ may_reclaim self.now.log.now.log self.now.kept.now last }
    {
        last <= self.log.blocks()
            && !self.log.withdrawn(self.coin())
            && self.exits().is_empty()
            && !left
    }
}
