ghost use Rattle.std.specs.Prelude.{◌≡◌, ◌++◌, ◌∷◌, [], OnOk};

use super::scene::Scene;
use plasma_base::{Bytes, Hash32, NoMemory};
use plasma_tx::RootLog;

impl<H: Hash32 + Copy> Scene<H> {
    /// The log of the contract, lent.
    pub fn log(&self) -> &RootLog
        ensures { result.now ≡ self.now.chain }
    {
        self.contract.log()
    }

    /// Adds a mail item.
    pub fn put_mail(&mut self, item: Bytes) -> Result<(), NoMemory>
        ensures { OnOk result (self.new ≡ record self.old { mail = self.old.mail ++ item ∷ [] }) }
    {
        self.mail.push(item)?;
        Ok(())
    }
}
