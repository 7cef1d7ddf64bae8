ghost use Rattle.std.specs.Prelude.{◌≡◌, [], None};
ghost use Rattle.node_replies.specs.declared.reply.Reply.{Reply};

use super::reply::Reply;
use plasma_base::Bytes;
use plasma_tx::RootCall;
use std::alloc::Global;

/// What a node's command gives out: its answer, the bytes that it makes, and the calls that it offers.
#[derive(Drop)]
pub struct Given {
    pub reply: Reply,
    pub made: Bytes,
    pub offers: Vec<RootCall>,
}

/// An answer alone. It takes no memory.
pub fn says(alloc: Global, reply: Reply) -> Given
    ensures reply { result.reply ≡ reply }
    ensures made { result.made ≡ [] }
    ensures offers { result.offers.items ≡ [] }
{
    makes(alloc, reply, Bytes::from_vec(Vec::new(alloc)))
}

/// An answer with the bytes that are made. It takes no memory.
pub fn makes(alloc: Global, reply: Reply, made: Bytes) -> Given
    ensures reply { result.reply ≡ reply }
    ensures made { result.made ≡ made }
    ensures offers { result.offers.items ≡ [] }
{
    Given {
        reply,
        made,
        offers: Vec::new(alloc),
    }
}

/// An answer with the calls that are offered. It takes no memory.
pub fn offers(alloc: Global, reply: Reply, calls: Vec<RootCall>) -> Given
    ensures reply { result.reply ≡ reply }
    ensures made { result.made ≡ [] }
    ensures offers { result.offers.items ≡ calls.items }
{
    Given {
        reply,
        made: Bytes::from_vec(Vec::new(alloc)),
        offers: calls,
    }
}

/// A refusal, by the text of its cause. It takes no memory.
pub fn refused(alloc: Global, cause: Bytes) -> Given
    ensures reply { result.reply ≡ Reply.Refused cause }
    ensures made { result.made ≡ [] }
    ensures offers { result.offers.items ≡ [] }
{
    says(alloc, Reply::Refused { cause })
}
