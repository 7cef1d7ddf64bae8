ghost use Rattle.receipt_audit.specs.Promises.{PromisesAreReadBack, PromisesHaveOneSpelling};
ghost use Rattle.receipt_audit.specs.Laws.{AuditsHaveTheirCauses, BreachesPass, ConvictionsShowBrokenPromises, GivenReceiptsAreTaken, IssuesGiveReceipts, KeptPromisesAreNotConvicted, KeptReceiptsDoNotConvict, OnlyBreachesPass};

/// A law: the bytes of a promise are read as that promise, whatever signature stands behind it, and bytes
/// that are read as a promise are its own.
pub fn promises_have_one_spelling()
    ensures read_back { PromisesAreReadBack }
    ensures one { PromisesHaveOneSpelling }
{}

/// A law: the test of a bundle passes exactly where it goes to the due block and its openings show that the
/// promise was broken.
pub fn breaches_are_checked()
    ensures found { OnlyBreachesPass }
    ensures pass { BreachesPass }
{}

/// A law: where `convict` convicts, the promise is signed under the key, and of each map whose root a block of
/// its span has, the map doesn't have the promised transfer, or the bundle's opening and the map show two
/// different strings of one digest.
pub fn convictions_show_broken_promises()
    ensures { ConvictionsShowBrokenPromises }
{}

/// A law: an operator that committed the promised transfer in time isn't convicted, but by two different
/// strings of one digest.
pub fn kept_promises_are_not_convicted()
    ensures { KeptPromisesAreNotConvicted }
{}

/// A law: an audit refuses for want of memory only where memory ran out.
pub fn auditors_refuse_by_their_causes()
    ensures { AuditsHaveTheirCauses }
{}

/// A law: a receipt that an issue gives is signed under the desk's key by its next leaf, which is bound to the
/// receipt's promise; an audit takes it, at any later log of the chain; and an operator that committed its
/// transfer in time isn't convicted, but by two different strings of one digest.
pub fn receipts_bind_their_operator()
    ensures given { IssuesGiveReceipts }
    ensures taken { GivenReceiptsAreTaken }
    ensures kept { KeptReceiptsDoNotConvict }
{}
