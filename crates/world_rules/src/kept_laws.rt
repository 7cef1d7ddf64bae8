ghost use Rattle.world_rules.specs.Laws.{WalletsKeepWhatEventsSay, WatchersKeepWhatEventsSay};

/// A law: over every run of lines that are in the grammar, what the events say of a wallet (who it is, the bodies
/// that its leaves bind, the leaves that it took back, and the coins that it holds) is what the records on its
/// disks say; and so is what they say of a watcher's guards. The digest gives 32 bytes.
pub fn events_are_what_disks_keep()
    ensures wallets { WalletsKeepWhatEventsSay }
    ensures watchers { WatchersKeepWhatEventsSay }
{}
