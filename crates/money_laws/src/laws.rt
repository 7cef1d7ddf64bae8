ghost use Rattle.money_laws.specs.Bonds.{EndsPayBonds};
ghost use Rattle.money_laws.specs.First.{LeadersArePaid, FirstsLead, FirstsArePaid};
ghost use Rattle.money_laws.specs.Keepers.{HoldersKeep, LegalTipsAreNotAnswered, TipsAreNotAnswered, LegalTipsStayOpen, TipsStayOpen};
ghost use Rattle.money_laws.specs.MoneyLaws.{LegalBondsComeBack, BondsComeBack, LegalCancelsNeedNoMoney, CancelsNeedNoMoney, LegalReserveSuffices, ReserveSuffices, LeadersOfRunsArePaid, FirstsOfRunsArePaid, LegalLookedAfterIsInTime, LookedAfterIsInTime, LegalTimelyCoinsAreSafe, TimelyCoinsAreSafe, LegalGuardingCostsNothing, GuardingCostsNothing, LegalGuardiansHaveTheirMoney, GuardiansHaveTheirMoney};
ghost use Rattle.money_laws.specs.Reserve.{ReserveIsNeeded};
ghost use Rattle.money_laws.specs.Worked.{ReserveIsTight, GuardingIsTight, IsGuarded, AttackCostsNothing, LeavingFirstIsTight, AnAfterNeedsNoMoney, ABetweenNeedsNoMoney};

/// A law: no challenge that is due is ever answered. While a wallet keeps a coin at a tip, each challenge at that tip,
/// of whatever exit of the coin and by whomever, is open as long as its exit stands; unless the events show, at this
/// coin, two byte strings with one digest, or a signature that is valid under the wallet's key and that the wallet
/// never made. It keeps the coin while it holds it, and also once the coin is withdrawn. So it is of legal events, and
/// at each line of a run.
pub fn due_challenges_stay_open()
    ensures keeps { HoldersKeep }
    ensures unanswered { LegalTipsAreNotAnswered }
    ensures run_unanswered { TipsAreNotAnswered }
    ensures legal { LegalTipsStayOpen }
    ensures run { TipsStayOpen }
{}

/// A law: bonds come back. By whatever call an exit ends, each account gets 40 for each challenge of it that it made
/// and that is open; the exit's 100 go to who cancels it, and by a Finish to the account whose open challenge stands
/// first, whoever that is, or with none open to the exit's own account, with the coin's amount if it is paid. Each
/// challenge at the tip of a coin that a wallet keeps is among the open ones, so that its bond comes back and the
/// exit isn't paid; unless the events exhibit. An After or a Between that a watch offers needs no money: it is accepted
/// where no call was accepted since, and the events show no clash at its coin.
pub fn bonds_come_back()
    ensures ends { EndsPayBonds }
    ensures legal { LegalBondsComeBack }
    ensures run { BondsComeBack }
    ensures legal_cancels { LegalCancelsNeedNoMoney }
    ensures cancels { CancelsNeedNoMoney }
{}

/// A law: a reserve suffices. Where an account has 40 for each standing exit of the coins that it guards whose parent
/// comes after the tip, which isn't challenged there and whose window is open, each Before on offer is accepted,
/// entered one after the other in whatever order, whatever is entered between them of an After, a Between or a
/// Respond, of an exit that no later one is of. An account whose Befores are accepted, one after the other with no call
/// between them, until none is due at the tips any more, had as much. Nothing is said of one that enters fewer.
pub fn a_reserve_suffices()
    ensures legal { LegalReserveSuffices }
    ensures run { ReserveSuffices }
    ensures needed { ReserveIsNeeded }
{}

/// A law: leaving first needs no reserve. An exit that has led since it began is paid by whoever finishes it at its
/// end. It leads while no other standing exit of the coin is ripe, and each of its own challenges was answered in time;
/// so, with these answered, until its end where it began no later than each other, whether or not anybody challenged
/// those. In one sentence: an exit is paid by whoever finishes it at its end, where its challenges were answered in
/// time, and the clock hasn't reached the end of any other exit of the coin that stood since it began. And a held coin
/// is safe while none of its exits comes too late, as none does where it is looked after; unless the events exhibit.
pub fn leaving_first_needs_no_reserve()
    ensures paid { LeadersArePaid }
    ensures first { FirstsLead }
    ensures run { LeadersOfRunsArePaid }
    ensures finished { FirstsArePaid }
    ensures run_finished { FirstsOfRunsArePaid }
    ensures legal_looked_after { LegalLookedAfterIsInTime }
    ensures looked_after { LookedAfterIsInTime }
    ensures legal_safe { LegalTimelyCoinsAreSafe }
    ensures safe { TimelyCoinsAreSafe }
{}

/// A law: guarding costs nothing. An account that since some time made no Deposit and started no exit, and whose open
/// challenges all were of coins that some wallet keeps there, with nothing exhibited, has at least what it had, and 100
/// more for each exit that it cancelled, or that was finished with its open challenge first; what it has at stake in
/// open challenges counted with what it has. So its balance alone, when no exit that it challenged stands any more.
pub fn guarding_costs_nothing()
    ensures legal { LegalGuardingCostsNothing }
    ensures run { GuardingCostsNothing }
    ensures legal_ended { LegalGuardiansHaveTheirMoney }
    ensures ended { GuardiansHaveTheirMoney }
{}

/// The premises of these laws can be met, and their bounds are tight, as worked lists of legal events show. Two
/// Befores need 80, and with 79 the second is refused. A guardian gets its 40 back and 100, and no more. A stranger
/// whose friend challenges his exit first loses nothing, and the guardian then gets its 40 alone. Who left a second
/// earlier is paid with nobody looking, and a second later the coin is lost. And an After, or a Between, brings 100 to
/// an account without money.
pub fn bounds_are_tight()
    ensures reserve { ReserveIsTight }
    ensures guarding { GuardingIsTight }
    ensures guarded { IsGuarded }
    ensures attack { AttackCostsNothing }
    ensures leaving { LeavingFirstIsTight }
    ensures after { AnAfterNeedsNoMoney }
    ensures between { ABetweenNeedsNoMoney }
{}
