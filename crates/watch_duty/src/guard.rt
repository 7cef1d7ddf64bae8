use plasma_tx::Links;

/// A coin that is guarded, with its links up to the tip that the guardian knows. The blocks of its links
/// rise strictly where they were checked under the log.
#[derive(Drop)]
pub struct Guard {
    pub links: Links,
}
