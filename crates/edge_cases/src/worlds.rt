use plasma_base::NoMemory;
use std::alloc::Global;
use std::test::Fail;
use world_core::World;

// How many verdicts a world has before its first line.
fn verdicts(alloc: Global) -> Result<usize, NoMemory> {
    let world = World::new(alloc);
    Ok(world.verdicts()?.len())
}

#[test]
fn a_world_is_begun(rt: HostRuntime) -> Result<(), Fail> {
    assert!(rt; verdicts(rt.alloc())? == 0);
    Ok(())
}
