use lms_sign::LmsTypes;

/// What a two-level key is made from: the types of both levels, and the identifier I and the seed of the top key. A
/// contract sees a two-level secret key as this.
#[derive(Clone, Copy)]
pub struct HssSeed {
    /// The pair of types of the top key.
    pub top: LmsTypes,
    /// The pair of types of each bottom key.
    pub bottom: LmsTypes,
    /// The identifier I of the top key, 16 bytes.
    pub id: [u8; 16],
    /// The seed of the top key, 32 bytes.
    pub seed: [u8; 32],
}
