use lms_sign::LmsTypes;

/// Who a wallet is: the tag of its chain, its account, the seed of its key, and the key's types, which are
/// a supported pair. The key's identifier is the first 16 bytes of the seed's SHA-256.
#[derive(Clone, Copy, PartialEq, Eq)]
pub struct WalletIdentity {
    pub tag: [u8; 32],
    pub account: u64,
    pub seed: [u8; 32],
    pub types: LmsTypes,
}
