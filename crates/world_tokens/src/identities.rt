ghost use Rattle.std.specs.Prelude.{◌≡◌, true, length};
ghost use Rattle.lms_sign.specs.Types.{is_supported};
ghost use Rattle.plasma_tx.specs.Spelling.{owner_in};
ghost use Rattle.world_rules.specs.World.{World, padded};
ghost use Rattle.world_rules.specs.Declarations.{types_or_first, declared_wallet};
ghost use Rattle.world_tokens.specs.Tokens.{AreTypes};

use lms_sign::LmsTypes;
use node_rules::WalletIdentity;
use plasma_tx::Owner;

/// The tag or the seed that a number stands for: 24 zero bytes and the number's eight, the highest first.
pub fn padded(number: u64) -> [u8; 32]
    ensures { result ≡ padded number }
{
    let mut bytes = [0; 32];
    bytes[24..].copy_from_slice(&number.to_be_bytes());
    bytes
}

/// The types of a key whose declaration has these, or the types 5 and 4 where it has none. Those of a line in the
/// grammar are supported.
pub fn types_or_first(types: Option<LmsTypes>) -> LmsTypes
    ensures value { result ≡ types_or_first types }
    ensures supported { AreTypes types → is_supported result ≡ true }
{
    match types {
        Some(types) => types,
        None => LmsTypes { lms: 5, ots: 4 },
    }
}

/// The identity of a wallet that a line declares in the chain with this tag. A rogue's key is made of the same. The
/// types of a line in the grammar are supported.
pub fn declared_wallet(
    tag: &[u8; 32],
    account: u64,
    seed: u64,
    types: Option<LmsTypes>,
) -> WalletIdentity
    ensures value { (world : World) → tag.now ≡ world.chain.tag
        → result ≡ declared_wallet world account seed types }
    ensures supported { AreTypes types → is_supported result.types ≡ true }
{
    WalletIdentity {
        tag: *tag,
        account,
        seed: padded(seed),
        types: types_or_first(types),
    }
}

/// The owner that the 64 bytes of a to token spell.
pub fn owner_of_hex(bytes: &[u8]) -> Owner
    requires { length bytes.now ≡ 64 }
    ensures { result ≡ owner_in bytes.now }
{
    Owner::read(&array_of(bytes))
}

/// The 56 bytes of a key token, as a key.
pub fn key_of_hex(bytes: &[u8]) -> [u8; 56]
    requires { length bytes.now ≡ 56 }
    ensures { result ≡ bytes.now }
{
    array_of(bytes)
}

/// The bytes as an array.
pub fn array_of<const N: usize>(bytes: &[u8]) -> [u8; N]
    requires { length bytes.now ≡ N }
    ensures { result ≡ bytes.now }
{
    let mut array = [0; N];
    array.copy_from_slice(bytes);
    array
}
