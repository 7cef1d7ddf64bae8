use plasma_base::Bytes;

/// What a crash leaves of the bytes written since the last sync that succeeded.
#[derive(Drop)]
pub enum Outcome {
    /// The bytes as of that sync.
    Old,
    /// The bytes that the disk holds.
    New,
    /// The bytes as of that sync, longer by the lesser of `extra` and the growth since. The places
    /// written since and those past the old end, from the lowest up, take these bytes in turn.
    Mix { extra: u64, bytes: Bytes },
}
