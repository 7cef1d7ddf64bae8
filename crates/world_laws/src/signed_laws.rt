ghost use Rattle.world_laws.specs.Headline.{GivenOutIsBound, LeavesSignOneMessage};

/// A law: what a wallet's node gave out is what its leaf binds, with the key's signature by that leaf, over
/// every run of lines; so no leaf of a wallet's key signs two messages.
pub fn leaves_sign_one_message()
    ensures bound { GivenOutIsBound }
    ensures one { LeavesSignOneMessage }
{}
