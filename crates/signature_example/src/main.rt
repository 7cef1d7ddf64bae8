//! The least use of a library of this repository: a message is signed, and its signature tested.
#![tactic(auto)]

use anyhow::Result;
use lms_sign::{LmsTypes, PublicKey, SecretKey, sign, verify};

fn main(rt: HostRuntime) -> Result<()> {
    let types = LmsTypes { lms: 5, ots: 4 };
    let key = SecretKey::make(rt.alloc(), types, [7; 16], [42; 32])?;
    let public = PublicKey::read(&key.public())?;
    let mut signature = vec![in rt.alloc(); 0u8; key.signature_len()]?;
    sign(&key, 0, b"a message", &mut signature);
    println!(rt; "{}", verify(&public, b"a message", &signature))?;
    Ok(())
}
