ghost use Rattle.std.specs.Prelude.{◌≡◌, IfOk};
ghost use Rattle.plasma_tx.specs.Links.{tip_of, last_owner_of};

use super::opening::RawOpening;
use super::owner::Owner;
use super::signed_tx::SignedTx;
use plasma_base::NoMemory;
use std::marker::Model;

/// A transfer of a coin, the block that holds it, and the opening that shows it there.
#[derive(Drop)]
pub struct Link {
    pub block: u64,
    pub tx: SignedTx,
    pub opening: RawOpening,
}

impl Link {
    /// An equal link, or `NoMemory`.
    pub fn copy(&self) -> Result<Link, NoMemory>
        ensures { IfOk result (λ copied. copied ≡ self.now) }
    {
        Ok(Link {
            block: self.block,
            tx: self.tx.copy()?,
            opening: self.opening.copy()?,
        })
    }
}

/// Links in order, which contracts see as a list.
#[derive(Drop)]
pub struct Spends {
    items: Vec<Link>,
}

impl Model for Spends {
    ghost use Rattle.std.specs.Prelude.{List};
    ghost use Rattle.plasma_tx.specs.declared.links.Link.{Link};

    ghost Value = { List Link };

    ghost view = { λ s. s.items.items };
}

impl Spends {
    /// The links of a vector. It takes no memory.
    pub fn from_vec(items: Vec<Link>) -> Spends
        ensures { result ≡ items.items }
    {
        Spends { items }
    }

    /// The links, lent.
    pub fn as_slice(&self) -> &[Link]
        ensures { result.now ≡ self.now }
    {
        self.items.as_slice()
    }

    /// Equal links, or `NoMemory`.
    pub fn copy(&self) -> Result<Spends, NoMemory>
        ensures { IfOk result (λ copied. copied ≡ self.now) }
    {
        let mut items = Vec::with_capacity(*self.items.allocator(), self.items.len())?;
        for link in &self.items {
            items.push(link.copy()?)?;
        }
        Ok(Spends { items })
    }
}

/// The history of a coin: its deposit and the transfers since, in order.
#[derive(Drop)]
pub struct Links {
    pub coin: u64,
    /// The deposit block.
    pub deposit: u64,
    /// The depositor.
    pub owner: Owner,
    pub spends: Spends,
}

impl Links {
    /// The tip: the block of the last spend, or the deposit block where there is none.
    pub fn tip(&self) -> u64
        ensures { result ≡ tip_of self.now }
    {
        match self.spends.as_slice().last() {
            None => self.deposit,
            Some(link) => link.block,
        }
    }

    /// The last owner: to whom the last spend goes, or the depositor where there is none.
    pub fn last_owner(&self) -> Owner
        ensures { result ≡ last_owner_of self.now }
    {
        match self.spends.as_slice().last() {
            None => self.owner,
            Some(link) => link.tx.body.to,
        }
    }

    /// An equal value, or `NoMemory`.
    pub fn copy(&self) -> Result<Links, NoMemory>
        ensures { IfOk result (λ copied. copied ≡ self.now) }
    {
        Ok(Links {
            coin: self.coin,
            deposit: self.deposit,
            owner: self.owner,
            spends: self.spends.copy()?,
        })
    }
}
