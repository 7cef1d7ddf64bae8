use super::node_list::Nodes;
use super::rogues::Rogues;
use plasma_base::{Bytes, Hash32};
use root_contract::Contract;
use std::alloc::Global;
use std::marker::Model;

/// The world once the chain has begun: the contract, the nodes with their disks, the strangers that have names,
/// and the mail. The operator is the first node.
#[derive(Drop)]
pub struct Scene<H: Hash32 + Copy> {
    pub(crate) alloc: Global,
    pub(crate) hash: H,
    pub(crate) contract: Contract,
    pub(crate) nodes: Nodes<H>,
    pub(crate) rogues: Rogues,
    // In the order of their lines.
    pub(crate) raw_callers: Vec<u64>,
    pub(crate) mail: Vec<Bytes>,
}

impl<H: Hash32 + Copy> Model for Scene<H> {
    ghost use Rattle.std.specs.Prelude.{reverse};
    ghost use Rattle.world_scene.specs.Scenes.{SceneState};
    ghost use Rattle.world_scene.specs.Steps.{AllHash};

    ghost Value = { SceneState H };

    ghost view = { λ s. record {
      hash = s.hash;
      chain = s.contract;
      nodes = s.nodes;
      rogues = s.rogues;
      raw_callers = reverse s.raw_callers.items;
      mail = s.mail.items;
    } };

    ghost invariant = { λ s. AllHash s.hash s.nodes };
}
