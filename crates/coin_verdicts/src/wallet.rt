use plasma_base::Bytes;

/// A wallet whose verdicts are asked for: its number among the nodes, and its name.
#[derive(Drop)]
pub struct NamedWallet {
    pub number: u64,
    pub name: Bytes,
}
