ghost use Rattle.wallet_node.specs.Faults.{NotesFaultsAreOfNotes, LeavesFaultsAreOfLeaves, OpeningsFailOnOneDisk, InitsFailOnOneDisk};
ghost use Rattle.wallet_node.specs.Lives.{AWalletsLeafHasOneMessage};

use crash_disk::Disk;
use plasma_base::Hash32;

/// A law, over every list of inits, openings, commands, faults and crashes of a wallet's two disks, whose records
/// may follow those before them: what a leaf is bound to at one time and what it is bound to at a later one is
/// one message.
pub fn a_wallets_leaf_has_one_message()
    ensures { AWalletsLeafHasOneMessage }
{}

/// A law: where a device fault stopped a command, an opening or an init of a wallet, one of its two disks counted
/// one fault, and the other none. Of a command that was to add a note it is the notes' disk, and of one that was
/// to add a leaf's record the leaves' disk.
pub fn a_device_fault_is_of_one_disk<D: Disk, H: Hash32 + Copy>()
    ensures notes { NotesFaultsAreOfNotes H D.told D.plan D.faults }
    ensures leaves { LeavesFaultsAreOfLeaves H D.told D.plan D.faults }
    ensures openings { OpeningsFailOnOneDisk D.told D.plan D.faults }
    ensures inits { InitsFailOnOneDisk D.told D.plan D.faults }
{}
