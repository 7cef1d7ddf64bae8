use plasma_base::Bytes;

/// What a node's command came to.
#[derive(Drop)]
pub enum Said {
    /// It was answered, and its answer was put.
    Answered,
    /// It was refused for this cause, and added nothing.
    Refused { cause: Bytes },
}
