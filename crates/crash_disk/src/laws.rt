ghost use Rattle.crash_disk.specs.Laws.{OutcomesMayBeLeft, ContentMayBeLeft, SyncedContentIsLeft, FreshDiskLeavesItself, AfterCalls, NextPassByFuse, PassesByFuse, NoneListed};

/// Each outcome leaves an image that a crash may leave by the disk model.
pub fn outcomes_may_be_left()
    ensures { OutcomesMayBeLeft }
{}

/// What a disk holds may be left.
pub fn content_may_be_left()
    ensures { ContentMayBeLeft }
{}

/// After a sync that succeeded, and as long as nothing is written, what a read gives is what a crash
/// leaves.
pub fn synced_content_is_left()
    ensures { SyncedContentIsLeft }
{}

/// A disk that begins with an image leaves that image alone.
pub fn fresh_disk_leaves_itself()
    ensures { FreshDiskLeavesItself }
{}

/// Which calls a plan lists after so many, and what is left of its fuse.
pub fn after_calls()
    ensures { AfterCalls }
{}

/// With no listed call, as many pass as the fuse lets pass, and all where there is no fuse.
pub fn next_pass_by_fuse()
    ensures { NextPassByFuse }
{}

/// With no listed call, after so many calls as many pass as the fuse still lets pass, and all where there
/// is no fuse.
pub fn passes_by_fuse()
    ensures { PassesByFuse }
{}

/// A disk in memory with an empty list foretells no listed call.
pub fn none_listed()
    ensures { NoneListed }
{}
