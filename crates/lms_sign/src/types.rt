ghost use Rattle.std.specs.Prelude.{◌≡◌, ◌+◌, ◌*◌, ◌≤◌, ◌⊎◌};
ghost use Rattle.lms_sign.specs.Types.{chains, height, is_supported, leaf_count, shift, signature_length, width};

/// A pair of type numbers: the LMS type and the one-time type (RFC 8554, sections 4.1 and 5.1).
/// Keys have a pair that is supported: an LMS type 5 or 6, which are LMS_SHA256_M32_H5 and
/// LMS_SHA256_M32_H10, with a one-time type 3 or 4, which are LMOTS_SHA256_N32_W4 and
/// LMOTS_SHA256_N32_W8.
#[derive(Clone, Copy, PartialEq, Eq)]
pub struct LmsTypes {
    /// The LMS type.
    pub lms: u32,
    /// The one-time type.
    pub ots: u32,
}

impl LmsTypes {
    /// Whether keys may have this pair.
    pub fn is_supported(&self) -> bool
        ensures { result ≡ is_supported self.now }
    {
        (self.lms == 5 || self.lms == 6) && (self.ots == 3 || self.ots == 4)
    }

    /// The height h of the tree.
    #[tactic(auto, unfolding(crate::specs::Types::height))]
    pub(crate) fn height(&self) -> u32
        ensures value { result ≡ height self.now }
        ensures bound { result ≤ 10 }
    {
        if self.lms == 6 { 10 } else { 5 }
    }

    /// The bits w of a digit.
    #[tactic(auto, unfolding(crate::specs::Types::width))]
    pub(crate) fn width(&self) -> usize
        ensures value { result ≡ width self.now }
        ensures either { (result ≡ 4) ⊎ (result ≡ 8) }
    {
        if self.ots == 3 { 4 } else { 8 }
    }

    /// The number p of chains.
    #[tactic(auto, unfolding(crate::specs::Types::chains))]
    pub(crate) fn chains(&self) -> u16
        ensures value { result ≡ chains self.now }
        ensures bound { result ≤ 67 }
    {
        if self.ots == 3 { 67 } else { 34 }
    }

    /// By how many bits ls the checksum is shifted left.
    #[tactic(auto, unfolding(crate::specs::Types::shift))]
    pub(crate) fn shift(&self) -> u32
        ensures value { result ≡ shift self.now }
        ensures bound { result ≤ 4 }
    {
        if self.ots == 3 { 4 } else { 0 }
    }

    /// The number of leaves, which is 2^h.
    pub(crate) fn leaf_count(&self) -> u32
        ensures value { result ≡ leaf_count self.now }
        ensures bound { result ≤ 1024 }
    {
        1 << self.height()
    }

    /// The length of a signature in bytes.
    pub(crate) fn signature_len(&self) -> usize
        ensures { result ≡ signature_length self.now }
    {
        44 + 32 * usize::from(self.chains()) + 32 * self.height() as usize
    }
}
