ghost use Rattle.tag_laws.specs.Tags.{ReadTransfersHaveTheTag, OthersAreRefused, OthersAreNoTransfers, OthersAreNotShown};
ghost use Rattle.tag_laws.specs.Histories.{HistoriesAreOfTheChain, AcceptedAreOfTheChain, GuardedAreOfTheChain, KeptAreOfTheChain};
ghost use Rattle.tag_laws.specs.Calls.{AcceptedCallsAreOfTheChain, LogsAreOfTheChain};
ghost use Rattle.tag_laws.specs.Operators.{OffersAreOfTheChain, OthersAreNotOffered, OfferedAreOfTheChain, WalksAreOfTheChain, HonestBundlesAreOfTheChain, OthersAreNoReceipts, ConvictionsAreOfTheChain, ReceiptsAreOfTheChain, DesksCountLeavesAlone};
ghost use Rattle.tag_laws.specs.Wallets.{SentAreOfTheChain, NewWalletsAreOwn, WalletsStayOwn, AgainGivesItsLeaf, OwnAgainIsOfTheChain, OtherAgainIsRefused, TagsAreNotAsked, MoreLeavesTakeAway, NamedTipsAreSpent};
ghost use Rattle.tag_laws.specs.Worlds.{RunsAreOfTheChain, BoundAreOfTheChain};
ghost use Rattle.tag_laws.specs.Samples.{OthersAreOpened, OthersCount, OthersAreTold};

/// A law: bytes that are read as a transfer name its tag, and a transfer of another tag is refused for its tag. A leaf
/// of another tag is no transfer, of whatever coin and block; so an opening of it shows none to the contract.
pub fn other_tags_are_not_read()
    ensures read { ReadTransfersHaveTheTag }
    ensures refused { OthersAreRefused }
    ensures leaves { OthersAreNoTransfers }
    ensures shown { OthersAreNotShown }
{}

/// A law: each link of a history is a transfer of the chain, in the leaf of one of its openings, and no opening shows
/// anything else but an empty leaf. So it is of what a wallet accepts, and of what a watcher takes as a guard; and
/// each opening of a coin that either keeps shows a transfer of the chain, whatever its records are.
pub fn accepted_histories_have_the_tag()
    ensures history { HistoriesAreOfTheChain }
    ensures accepted { AcceptedAreOfTheChain }
    ensures guarded { GuardedAreOfTheChain }
    ensures kept { KeptAreOfTheChain }
{}

/// A law: each opening of a call that the contract accepts shows a transfer of the contract's tag: the exit and the
/// parent of a start, the spend of an After, a Between and a Respond, and what a Before shows. So it is of a log.
pub fn accepted_calls_have_the_tag()
    ensures calls { AcceptedCallsAreOfTheChain }
    ensures logs { LogsAreOfTheChain }
{}

/// A law: an offer that is taken is of a transfer of the operator's chain; one of another tag is no transfer, and adds
/// no record. So each transfer that the operator's records say was offered is of the chain. The walk of a coin is at
/// the deposit, or at a transfer of the chain in the tree of its block, whatever is laid. An honest operator's bundle
/// for a tip that its walk passed is all of the chain.
pub fn offered_transfers_have_the_tag()
    ensures taken { OffersAreOfTheChain }
    ensures others { OthersAreNotOffered }
    ensures records { OfferedAreOfTheChain }
    ensures walk { WalksAreOfTheChain }
    ensures bundles { HonestBundlesAreOfTheChain }
{}

/// A law: a promise of another tag is no receipt to an audit, whatever key and bundle are shown with it; what convicts
/// is a promise of the chain.
pub fn audited_promises_have_the_tag()
    ensures others { OthersAreNoReceipts }
    ensures convictions { ConvictionsAreOfTheChain }
{}

/// A law: a receipt that an issue gives is of a promise of the operator's chain, for a transfer of it. What a desk's
/// leaves bind is never read: an issue does the same where other promises stand in their place, as many of them.
pub fn given_receipts_have_the_tag()
    ensures given { ReceiptsAreOfTheChain }
    ensures counted { DesksCountLeavesAlone }
{}

/// A law: the bytes that a send gives are a transfer of the wallet's chain, from the tip at which the wallet holds the
/// coin. A wallet that bound nothing has leaves of its chain alone, and keeps so by each command.
pub fn sent_transfers_have_the_tag()
    ensures sent { SentAreOfTheChain }
    ensures new { NewWalletsAreOwn }
    ensures stay { WalletsStayOwn }
{}

/// A law: what is sent again is what a leaf binds, signed by that leaf: a transfer of the coin and of whichever tag the
/// leaf has. So it is of the wallet's chain where all leaves are. Where it isn't, no reader of that chain takes it.
pub fn what_is_sent_again_has_its_leafs_tag()
    ensures again { AgainGivesItsLeaf }
    ensures own { OwnAgainIsOfTheChain }
    ensures others { OtherAgainIsRefused }
{}

/// A law: no command of a wallet asks for the tag of what its leaves bind: with leaves of other tags in their place it
/// does the same, but that again gives what the leaf binds. Leaves of whatever tag take away and never add: a coin
/// that is held, or left with, is so without the last of them. A coin whose tip a leaf names is being sent, so it isn't
/// sent or left with, nothing is offered for it, and where the leaf has no last block it isn't taken back.
pub fn leaves_of_other_tags_only_take_away()
    ensures alike { TagsAreNotAsked }
    ensures fewer { MoreLeavesTakeAway }
    ensures spent { NamedTipsAreSpent }
{}

/// A law: in every run of a world each call that joined the log shows transfers of the world's tag, each bundle that
/// was accepted or is guarded shows nothing else, and what each leaf of a wallet binds has that tag; so what the
/// promise counts as sent.
pub fn worlds_have_one_tag()
    ensures events { RunsAreOfTheChain }
    ensures bound { BoundAreOfTheChain }
{}

/// The premises of these laws can be met, as small samples compute. A journal of leaves with one body of another tag
/// opens as a wallet's, and one with a promise of another tag as a desk's. The body signs the coin away, and again
/// gives it out. A bundle whose leaf has the chain's tag is a history and starts an exit, where all signatures and
/// openings pass; with another tag it is refused.
pub fn premises_can_be_met()
    ensures opened { OthersAreOpened }
    ensures counted { OthersCount }
    ensures told { OthersAreTold }
{}
