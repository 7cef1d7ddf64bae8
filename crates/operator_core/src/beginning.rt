ghost use Rattle.std.specs.Prelude.{◌≡◌, ◌∷◌, [], None, Some, OnOk};
ghost use Rattle.plasma_base.specs.Causes.{faults_after};
ghost use Rattle.crash_disk.specs.Calls.{WhereTold};
ghost use Rattle.gate_journal.specs.Journal.{IsSettled};
ghost use Rattle.node_journal.specs.Begin.{init_steps, Inits, is_init_fault, BeginsPair};
ghost use Rattle.operator_rules.specs.Records.{identity_text};

use super::operator::Operator;
use super::records::{Who, identity_record};
use crash_disk::Disk;
use gate_journal::InitRefusal;
use node_journal::{begin, begin_pair};
use std::alloc::Global;

impl<D: Disk> Operator<D> {
    /// Begins an operator without a key: its journal with its identity, as `node_journal`'s `begin`.
    pub fn init(
        alloc: Global,
        notes: D,
        tag: [u8; 32],
        account: u64,
    ) -> (D, Result<(), InitRefusal>)
        ensures inits { Inits D.told D.plan
            (init_steps (identity_text (record { tag = tag; account = account; key_seed = None })))
            notes result.1 result.0 }
        ensures begun { OnOk result.1 (WhereTold (D.told result.0) (λ now.
            IsSettled now (identity_text (record { tag = tag; account = account; key_seed = None }) ∷ []))) }
        ensures cause { D.faults result.0 ≡ faults_after (D.faults notes) (is_init_fault result.1) }
    {
        let who = Who {
            tag,
            account,
            key_seed: None,
        };
        match identity_record(alloc, &who) {
            Ok(identity) => begin(alloc, notes, identity.as_slice()),
            Err(_) => (notes, Err(InitRefusal::NoMemory)),
        }
    }

    /// Begins an operator with a key: the journal of its notes with its identity, which keeps the key's seed,
    /// and that of its leaves, as `node_journal`'s `begin_pair`.
    pub fn init_with_key<E: Disk>(
        alloc: Global,
        notes: D,
        leaves: E,
        tag: [u8; 32],
        account: u64,
        seed: [u8; 32],
    ) -> (D, E, Result<(), InitRefusal>)
        ensures inits { BeginsPair D.told D.plan D.faults E.told E.plan E.faults
            (identity_text (record { tag = tag; account = account; key_seed = Some seed }))
            notes leaves result.2 result.0 result.1 }
        ensures begun { OnOk result.2 (WhereTold (D.told result.0) (λ now.
            IsSettled now (identity_text (record { tag = tag; account = account; key_seed = Some seed }) ∷ []))) }
        ensures empty { OnOk result.2 (WhereTold (E.told result.1) (λ now. IsSettled now [])) }
    {
        let who = Who {
            tag,
            account,
            key_seed: Some(seed),
        };
        match identity_record(alloc, &who) {
            Ok(identity) => begin_pair(alloc, notes, leaves, identity.as_slice()),
            Err(_) => (notes, leaves, Err(InitRefusal::NoMemory)),
        }
    }
}
