ghost use Rattle.std.specs.Prelude.{◌≡◌, ℕ, ◌+◌, ◌-◌, ◌≤◌, ◌∷◌, [], IsSome, IsTrue, IfSome, option_to_list};
ghost use Rattle.std.specs.Option.{option_map};
ghost use Rattle.exit_game.specs.Slots.{slot_at, without_slot};
ghost use Rattle.exit_game.specs.Games.{slots_in, HasSlots};
ghost use Rattle.bond_ledger.specs.Ledger.{balance_in, held_in, funded_in, is_known, HasSums};
ghost use Rattle.plasma_tx.specs.Money.{moved, share_of, cancel_pays, exit_bonds};
ghost use Rattle.root_contract.specs.Exits.{as_exit};
ghost use Rattle.root_contract.specs.Settling.{open_bonds, first_open, unpaid_amount, finish_paid, finish_released};

use bond_ledger::Ledger;
use exit_game::{Challenge, Game};
use plasma_tx::{CHALLENGE_BOND, EXIT_BOND, Movement};

/// Takes an exit out that is cancelled: its bond goes to the challenger, and each open challenge's bond goes
/// back.
pub fn cancel_exit(game: &mut Game, ledger: &mut Ledger, coin: u64, block: u64, challenger: u64)
    requires stands { IsSome (slot_at block (slots_in game.old coin)) }
    requires known { IsTrue (is_known ledger.old challenger) }
    requires held { (a : ℕ) → share_of a (exit_bonds (option_map as_exit (slot_at block (slots_in game.old coin))))
        ≤ held_in ledger.old a }
    ensures slots { HasSlots game.old game.new coin (without_slot block (slots_in game.old coin)) }
    ensures sums { let exit = option_map as_exit (slot_at block (slots_in game.old coin)) in
        HasSums ledger.old ledger.new
        (λ a. balance_in ledger.old a + share_of a (cancel_pays challenger exit))
        (λ a. held_in ledger.old a - share_of a (exit_bonds exit)) (funded_in ledger.old) }
{
    let slot = game.after(coin, block);
    ledger.pay_held(slot.owner.account, challenger, EXIT_BOND);
    give_back_open(ledger, slot.challenges.as_slice());
}

/// Takes an exit out that is finished. Where a challenge of it is open, its bond goes to the account of the
/// first of them, and each open challenge's bond goes back; else its bond goes back, and its account is
/// paid what is unpaid of the coin.
pub fn finish_exit(
    game: &mut Game,
    ledger: &mut Ledger,
    coin: u64,
    block: u64,
    unpaid: Option<Movement>,
)
    requires stands { IsSome (slot_at block (slots_in game.old coin)) }
    requires known { IfSome unpaid (λ amount. IsTrue (is_known ledger.old amount.account)) }
    requires held { (a : ℕ) → share_of a
        (finish_released unpaid (option_map as_exit (slot_at block (slots_in game.old coin)))) ≤ held_in ledger.old a }
    ensures slots { HasSlots game.old game.new coin (without_slot block (slots_in game.old coin)) }
    ensures sums { let exit = option_map as_exit (slot_at block (slots_in game.old coin)) in
        HasSums ledger.old ledger.new
        (λ a. balance_in ledger.old a + share_of a (finish_paid unpaid exit))
        (λ a. held_in ledger.old a - share_of a (finish_released unpaid exit)) (funded_in ledger.old) }
{
    let slot = game.finish(coin, block);
    let challenges = slot.challenges.as_slice();
    match first_open(challenges) {
        Some(challenger) => {
            ledger.pay_held(slot.owner.account, challenger, EXIT_BOND);
            give_back_open(ledger, challenges);
        }
        None => {
            ledger.give_back(slot.owner.account, EXIT_BOND);
            pay_coin(ledger, unpaid, slot.owner.account);
        }
    }
}

/// Pays what is unpaid of a coin to an account that is known.
fn pay_coin(ledger: &mut Ledger, unpaid: Option<Movement>, to: u64)
    requires to { IsTrue (is_known ledger.old to) }
    requires known { IfSome unpaid (λ amount. IsTrue (is_known ledger.old amount.account)) }
    requires held { (a : ℕ) → share_of a (option_to_list unpaid) ≤ held_in ledger.old a }
    ensures { HasSums ledger.old ledger.new
        (λ a. balance_in ledger.old a + share_of a (moved to (unpaid_amount unpaid) ∷ []))
        (λ a. held_in ledger.old a - share_of a (option_to_list unpaid)) (funded_in ledger.old) }
{
    if let Some(coin) = unpaid {
        ledger.pay_held(coin.account, to, coin.amount);
    }
}

/// The account of the first challenge that is open.
fn first_open(challenges: &[Challenge]) -> Option<u64>
    ensures { result ≡ first_open challenges.now }
{
    challenges
        .iter()
        .find(|challenge| !challenge.answered)
        .map(|challenge| challenge.by)
}

/// Gives the bond of each open challenge back.
fn give_back_open(ledger: &mut Ledger, challenges: &[Challenge])
    requires { (a : ℕ) → share_of a (open_bonds challenges.now) ≤ held_in ledger.old a }
    ensures { HasSums ledger.old ledger.new
        (λ a. balance_in ledger.old a + share_of a (open_bonds challenges.now))
        (λ a. held_in ledger.old a - share_of a (open_bonds challenges.now)) (funded_in ledger.old) }
{
    let mut rest = challenges;
    'challenges: while let Some((challenge, others)) = rest.split_first() {
        give_back_if_open(ledger, challenge);
        rest = others;
    }
}

/// Gives the bond of a challenge back, where it is open.
fn give_back_if_open(ledger: &mut Ledger, challenge: &Challenge)
    requires { (a : ℕ) → share_of a (open_bonds (challenge.now ∷ [])) ≤ held_in ledger.old a }
    ensures { HasSums ledger.old ledger.new
        (λ a. balance_in ledger.old a + share_of a (open_bonds (challenge.now ∷ [])))
        (λ a. held_in ledger.old a - share_of a (open_bonds (challenge.now ∷ []))) (funded_in ledger.old) }
{
    if !challenge.answered {
        ledger.give_back(challenge.by, CHALLENGE_BOND);
    }
}
