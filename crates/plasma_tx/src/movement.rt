/// A sum of money that comes to an account, or goes from it.
#[derive(Clone, Copy, PartialEq, Eq)]
pub struct Movement {
    pub account: u64,
    pub amount: u64,
}
