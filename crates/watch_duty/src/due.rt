ghost use Rattle.std.specs.Prelude.{◌≡◌, ◌++◌, IfOk, OnOk, OnErr};
ghost use Rattle.watch_duty.specs.Duty.{guard_of, due_of, due_calls};

use super::guard::Guard;
use super::watch::Watch;
use plasma_base::NoMemory;
use plasma_tx::{Link, RootCall, RootLog};
use std::alloc::Global;

/// What is due for the guards, in their order: for each standing exit of a guarded coin the calls of the
/// first rule that speaks of it, where their windows aren't over. The account is the one that enters
/// them.
#[tactic(auto, unfolding(crate::specs::Duty::due_calls))]
pub fn duty(
    alloc: Global,
    log: &RootLog,
    account: u64,
    guards: &[Guard],
) -> Result<Vec<RootCall>, NoMemory>
    ensures { IfOk result (λ calls. calls.items ≡ due_calls log.now.log account guards.now) }
{
    let mut calls = Vec::new(alloc);
    for guard in guards {
        let links = &guard.links;
        let spends = links.spends.as_slice();
        push_due(
            alloc,
            log,
            account,
            links.coin,
            links.deposit,
            spends,
            &mut calls,
        )?;
    }
    Ok(calls)
}

/// Adds what is due for one coin, with this deposit block and these links. Who deposited it doesn't
/// matter. `NoMemory` leaves the calls as they were.
pub fn push_due(
    alloc: Global,
    log: &RootLog,
    account: u64,
    coin: u64,
    deposit: u64,
    spends: &[Link],
    calls: &mut Vec<RootCall>,
) -> Result<(), NoMemory>
    ensures ok { OnOk result
        (calls.new.items ≡ calls.old.items ++ due_of log.now.log account (guard_of coin deposit spends.now)) }
    ensures err { OnErr result (calls.new.items ≡ calls.old.items) }
{
    let watch = Watch {
        log,
        account,
        coin,
        deposit,
        spends,
    };
    let mut due = watch.due(alloc)?;
    calls.append(&mut due)?;
    Ok(())
}
