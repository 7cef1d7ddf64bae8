ghost use Rattle.world_laws.specs.Bundles.{HonestBundlesAreTaken};

/// A law: suppose that nothing was laid, no commit was raw, each seal's commit joined the log at most once, no
/// two sealed trees with different leaves have one root, and no tree was committed at a block after the last
/// block of a transfer in it. Then a bundle that the operator made, for a tip at which its walk gave the coin to
/// a wallet or at which the wallet deposited it, is accepted by the wallet, where it is up and no call was
/// accepted since; unless the coin was withdrawn, or an exit of it stands, which the answer then says.
pub fn honest_bundles_are_taken()
    ensures { HonestBundlesAreTaken }
{}
