use node_rules::KeptCoin;

// What a note changes: a coin is taken up, a coin is left with, or a leaf's transfer is taken back.
#[derive(Drop)]
pub enum Change {
    Accepts { coin: KeptCoin },
    LeavesWith { coin: u64, tip: u64 },
    Reclaims { coin: u64, tip: u64, q: u32 },
}
