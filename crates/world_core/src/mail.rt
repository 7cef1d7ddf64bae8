ghost use Rattle.std.specs.Prelude.{◌≡◌, ◌+◌, ◌<◌, ◌≤◌, length, OnOk, IsErrOf};
ghost use Rattle.world_rules.specs.declared.TheConstants.{MOST_MAIL};
ghost use Rattle.world_core.specs.Taking.{with_item};

use super::running::RunningWorld;
use plasma_base::{Bytes, Hash32};
use world_rules::MOST_MAIL;
use world_scene::StepRefusal;

impl<H: Hash32 + Copy> RunningWorld<H> {
    // The bytes that a line made are its mail item.
    pub(crate) fn put_mail(&mut self, made: Bytes) -> Result<(), StepRefusal>
        ensures put { OnOk result (self.new ≡ with_item self.old made) }
        ensures fits { OnOk result (self.old.mail_size + length made ≤ MOST_MAIL) }
        ensures full { IsErrOf result StepRefusal.MailFull → MOST_MAIL < self.old.mail_size + length made }
        ensures kept_rules { IsErrOf result StepRefusal.BadLine → ⊥ }
    {
        let size = made.len() as u64;
        if let Some(scene) = &mut self.scene {
            scene.put_mail(made)?;
        }
        if size > MOST_MAIL - self.mail_size {
            return Err(StepRefusal::MailFull);
        }
        self.mail_size += size;
        Ok(())
    }
}
