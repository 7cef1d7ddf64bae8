ghost use Rattle.std.specs.Prelude.{◌≡◌, ◌∷◌, [], IfOk};
ghost use Rattle.world_rules.specs.Steps.{new_chain, new_world};
ghost use Rattle.world_scene.specs.Scenes.{world_of};
ghost use Rattle.world_scene.specs.Steps.{AllSpell};

use super::node_list::Nodes;
use super::rogues::Rogues;
use super::scene::Scene;
use plasma_base::{Hash32, NoMemory};
use root_contract::Contract;
use std::alloc::Global;
use world_nodes::Entry;
use world_tokens::padded;

// The nodes of a chain that begins: the operator alone.
fn only<H: Hash32 + Copy>(alloc: Global, operator: Entry<H>) -> Result<Nodes<H>, NoMemory>
    ensures { IfOk result (λ nodes. nodes ≡ operator ∷ []) }
{
    let mut nodes = Nodes::new(alloc);
    nodes.push(operator)?;
    Ok(nodes)
}

impl<H: Hash32 + Copy> Scene<H> {
    // The world that a first line begins.
    pub fn begin(
        alloc: Global,
        hash: H,
        tag: u64,
        operator: u64,
        most: u64,
    ) -> Result<Scene<H>, NoMemory>
        ensures world { IfOk result (λ scene. world_of scene ≡ new_world (new_chain tag operator most)) }
        ensures hash { IfOk result (λ scene. scene.hash ≡ hash) }
        ensures spells { IfOk result AllSpell }
    {
        let tag = padded(tag);
        let node = Entry::operator(alloc, hash, &tag, operator)?;
        let nodes = only(alloc, node)?;
        Ok(Scene {
            alloc,
            hash,
            contract: Contract::make(alloc, tag, operator, most),
            nodes,
            rogues: Rogues::new(alloc),
            raw_callers: Vec::new(alloc),
            mail: Vec::new(alloc),
        })
    }
}
