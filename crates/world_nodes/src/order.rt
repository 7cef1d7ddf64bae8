use node_replies::Given;
use plasma_base::Bytes;

/// What a node is.
#[derive(Clone, Copy, PartialEq, Eq)]
pub enum NodeKind {
    Wallet,
    Watcher,
    Operator,
}

/// How an order ended of which so many device calls could pass before the node's disks crashed.
#[derive(Drop)]
pub enum CutEnd {
    /// The node was down, and nothing changed.
    Down,
    /// The order needed more calls. The crash left its record, or it didn't.
    Stopped { kept: Option<Bytes> },
    /// The order was done before the crash.
    Done { given: Given },
}
