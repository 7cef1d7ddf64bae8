use plasma_base::Bytes;

/// A coin that a node took up, and the tip of the history that it was handed.
#[derive(Clone, Copy, PartialEq, Eq)]
pub struct Accepted {
    pub coin: u64,
    pub tip: u64,
}

/// A transfer that a wallet signed: the leaf that signs it, and its bytes.
#[derive(Drop)]
pub struct Sent {
    pub q: u32,
    pub bytes: Bytes,
}

/// A transfer that a wallet took back: the coin, its tip, and the leaf that signed it.
#[derive(Clone, Copy, PartialEq, Eq)]
pub struct Reclaimed {
    pub coin: u64,
    pub tip: u64,
    pub q: u32,
}
