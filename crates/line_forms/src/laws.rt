ghost use Rattle.std.specs.Prelude.{◌≡◌, ℕ, Bool, false, List, Option};
ghost use Rattle.line_forms.specs.Tokens.{number, number_within, name, declared_name, hex, hex_of, some_bytes, hex_or_name, bytes, shown, outcome, optional_number};
ghost use Rattle.line_forms.specs.Laws.{IsKind};
ghost use Rattle.line_forms.specs.declared.tokens.HexOrName.{HexOrName};
ghost use Rattle.line_forms.specs.declared.tokens.HexOrItem.{HexOrItem};
ghost use Rattle.line_forms.specs.declared.tokens.ShownToken.{ShownToken};
ghost use Rattle.line_forms.specs.declared.tokens.OutcomeToken.{OutcomeToken};

use super::tokens::{KEY_BYTES, NAME_BYTES, OWNER_BYTES};

/// A law of each kind of token: the words that a value is printed as are taken back as that value,
/// whatever stands after them; what is taken has one spelling; and no blank stands in a word. After a
/// token that may be missing no word may stand.
pub fn the_kinds_are_lawful()
    ensures number { (closed : Bool) → IsKind ℕ number closed }
    ensures number_within { (low high : ℕ) (closed : Bool) → IsKind ℕ (number_within low high) closed }
    ensures name { (closed : Bool) → IsKind (List ℕ) name closed }
    ensures declared_name { (closed : Bool) → IsKind (List ℕ) declared_name closed }
    ensures hex { (closed : Bool) → IsKind (List ℕ) hex closed }
    ensures hex_of { (count : ℕ) (closed : Bool) → IsKind (List ℕ) (hex_of count) closed }
    ensures some_bytes { (closed : Bool) → IsKind (List ℕ) some_bytes closed }
    ensures hex_or_name { (count : ℕ) (closed : Bool) → IsKind HexOrName (hex_or_name count) closed }
    ensures bytes { (closed : Bool) → IsKind HexOrItem bytes closed }
    ensures shown { (closed : Bool) → IsKind ShownToken shown closed }
    ensures outcome { (closed : Bool) → IsKind OutcomeToken outcome closed }
    ensures optional_number { IsKind (Option ℕ) optional_number false }
{}

/// The lengths of tokens: 16 bytes of a name at most, 56 of a key and 64 of an owner.
pub fn the_tokens_have_these_lengths()
    ensures name { NAME_BYTES ≡ 16 }
    ensures key { KEY_BYTES ≡ 56 }
    ensures owner { OWNER_BYTES ≡ 64 }
{}
