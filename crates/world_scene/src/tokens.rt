ghost use Rattle.std.specs.Prelude.{◌≡◌, IfOk};
ghost use Rattle.schedule_text.specs.Grammar.{IsCallForm};
ghost use Rattle.world_rules.specs.World.{bytes_of, call_of};
ghost use Rattle.world_scene.specs.Scenes.{world_of};
ghost use Rattle.world_tokens.specs.Tokens.{IsKeyOf};

use super::scene::Scene;
use line_forms::HexOrItem;
use plasma_base::{Bytes, Hash32, NoMemory};
use plasma_tx::RootCall;
use schedule_text::CallForm;
use world_tokens::{bytes_of, call_of};

impl<H: Hash32 + Copy> Scene<H> {
    // A copy of the bytes of a token.
    pub(crate) fn bytes_of(&self, token: &HexOrItem) -> Result<Bytes, NoMemory>
        ensures { IfOk result (λ bytes. bytes ≡ bytes_of (world_of self.now) token.now) }
    {
        bytes_of(self.alloc, &self.mail, token)
    }

    // The key that a form names, where it is a deposit.
    fn key_in(&self, form: &CallForm) -> Result<Option<[u8; 56]>, NoMemory>
        requires { IsCallForm form.now }
        ensures { IfOk result (IsKeyOf (world_of self.now) form.now) }
    {
        match form {
            CallForm::Deposit { key, .. } => self.key_of(key),
            _ => Ok(None),
        }
    }

    // The call of an account; none where it names a key that nobody declared.
    pub(crate) fn call_of(
        &self,
        account: u64,
        form: &CallForm,
    ) -> Result<Option<RootCall>, NoMemory>
        requires { IsCallForm form.now }
        ensures { IfOk result (λ call. call ≡ call_of (world_of self.now) account form.now) }
    {
        let key = self.key_in(form)?;
        call_of(self.alloc, &self.mail, account, form, key)
    }
}
