use super::types::LmsTypes;

/// What a tree is made from: its types, its identifier I and its seed. A contract sees a secret key
/// as this.
#[derive(Clone, Copy)]
pub struct Secret {
    /// The pair of types.
    pub types: LmsTypes,
    /// The identifier I, 16 bytes.
    pub id: [u8; 16],
    /// The seed, 32 bytes.
    pub seed: [u8; 32],
}
