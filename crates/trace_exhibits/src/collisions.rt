ghost use Rattle.std.specs.Prelude.{◌≡◌, ◌<◌, ◌++◌, ◌∷◌, [], ℕ, List, length, if◌then◌else◌, IfOk, OnOk, Some, None};
ghost use Rattle.std.specs.Str.{bytes_eq};
ghost use Rattle.sparse_merkle.specs.Opening.{hashed_string, hashed_strings};
ghost use Rattle.sparse_merkle.specs.TreeDigest.{AreDefaults};
ghost use Rattle.plasma_tx.specs.Openings.{leaf_in};
ghost use Rattle.trace_exhibits.specs.Ways.{strings_in_shown, strings_in_all, AreDigestsUp};
ghost use Rattle.trace_exhibits.specs.Met.{leaf_at, AreStill};
ghost use Rattle.trace_exhibits.specs.Strings.{bytes_of, KeepsStrings, IsAdded};
ghost use Rattle.trace_exhibits.specs.Findings.{FindsClash};

use super::digest_key::DigestKey;
use super::hashed_string::HashedString;
use super::met::MetOpenings;
use super::shown::{Clash, ShownOpening};
use super::way::{Way, string_at, way_of};
use plasma_base::{Hash32, NoMemory};
use sparse_merkle::defaults;
use std::alloc::Global;
use std::collections::HashMap;

/// The strings that were met, by their digests.
type Strings = HashMap<DigestKey, HashedString>;

/// The openings that were met, with the strings on the ways up from them; and the earliest clash among these, in the
/// order of the openings, once there is one: the second is the first string whose digest is that of an earlier,
/// different one, and the first is the earliest such. An opening that was met adds no string, and one whose bytes
/// aren't read has none. Nothing is added behind a clash.
#[derive(Drop)]
pub(crate) struct Collisions {
    alloc: Global,
    /// The defaults of the digest that is found by.
    pub(crate) defaults: [[u8; 32]; 64],
    pub(crate) met: MetOpenings,
    pub(crate) strings: Strings,
    pub(crate) found: Option<Clash>,
}

impl Collisions {
    /// No opening. It makes 64 digests and takes no memory.
    pub(crate) fn new<H: Hash32>(alloc: Global, h: &H) -> Collisions
        ensures defaults { AreDefaults (H.digest_of h.now) result.defaults }
        ensures none { FindsClash (H.digest_of h.now) [] result }
    {
        Collisions {
            alloc,
            defaults: defaults(h),
            met: MetOpenings::new(alloc),
            strings: HashMap::new(alloc),
            found: None,
        }
    }

    // Adds an opening that wasn't met, and the strings on the way up from it.
    fn add<H: Hash32>(&mut self, h: &H, one: &ShownOpening<'_>) -> Result<(), NoMemory>
        requires defaults { AreDefaults (H.digest_of h.now) self.old.defaults }
        requires open { self.old.found ≡ None }
        ensures stay { self.new.defaults ≡ self.old.defaults }
        ensures still { AreStill self.old.met self.new.met }
        ensures finds { (earlier : List (List ℕ)) → FindsClash (H.digest_of h.now) earlier self.old
            → OnOk result (FindsClash (H.digest_of h.now)
            (earlier ++ strings_in_shown (H.digest_of h.now) one.now) self.new) }
    {
        let opening = one.opening().copy()?;
        let place = self.met.add(self.alloc, one.coin(), opening)?;
        let found = add_strings(
            self.alloc,
            h,
            &self.defaults,
            one,
            place,
            &self.met,
            &mut self.strings,
        )?;
        self.found = found;
        Ok(())
    }

    /// Takes an opening. It is digested only where it wasn't met, and no clash was found.
    pub(crate) fn take<H: Hash32>(&mut self, h: &H, one: &ShownOpening<'_>) -> Result<(), NoMemory>
        requires { AreDefaults (H.digest_of h.now) self.old.defaults }
        ensures stay { self.new.defaults ≡ self.old.defaults }
        ensures still { AreStill self.old.met self.new.met }
        ensures finds { (earlier : List (List ℕ)) → FindsClash (H.digest_of h.now) earlier self.old
            → OnOk result (FindsClash (H.digest_of h.now)
            (earlier ++ strings_in_shown (H.digest_of h.now) one.now) self.new) }
    {
        if self.found.is_some() {
            return Ok(());
        }
        match self.met.find(one.coin(), one.opening()) {
            Some(_) => Ok(()),
            None => self.add(h, one),
        }
    }

    /// Takes the openings that a line shows, in their order.
    pub(crate) fn take_all<H: Hash32>(
        &mut self,
        h: &H,
        shown: &[ShownOpening<'_>],
    ) -> Result<(), NoMemory>
        requires { AreDefaults (H.digest_of h.now) self.old.defaults }
        ensures stay { self.new.defaults ≡ self.old.defaults }
        ensures still { AreStill self.old.met self.new.met }
        ensures finds { (earlier : List (List ℕ)) → FindsClash (H.digest_of h.now) earlier self.old
            → OnOk result (FindsClash (H.digest_of h.now)
            (earlier ++ strings_in_all (H.digest_of h.now) shown.now) self.new) }
    {
        for one in shown {
            self.take(h, one)?;
        }
        Ok(())
    }
}

// Adds the strings of the opening that was met last, or finds that one of them clashes with an earlier one.
fn add_strings<H: Hash32>(
    alloc: Global,
    h: &H,
    defaults: &[[u8; 32]; 64],
    one: &ShownOpening<'_>,
    place: usize,
    met: &MetOpenings,
    strings: &mut Strings,
) -> Result<Option<Clash>, NoMemory>
    requires defaults { AreDefaults (H.digest_of h.now) defaults.now }
    requires leaf { leaf_at met.now place ≡ leaf_in one.now.opening.bytes }
    requires place { place < length met.now }
    ensures { (earlier : List (List ℕ)) → KeepsStrings (H.digest_of h.now) met.now strings.old earlier
        → IfOk result (IsAdded (H.digest_of h.now) met.now strings.new
        (earlier ++ strings_in_shown (H.digest_of h.now) one.now)) }
{
    match way_of(alloc, h, defaults, one)? {
        None => Ok(None),
        Some(way) => add_way(alloc, h, &way, place, met, strings),
    }
}

// Adds the strings of a way up.
fn add_way<H: Hash32>(
    alloc: Global,
    h: &H,
    way: &Way<'_>,
    place: usize,
    met: &MetOpenings,
    strings: &mut Strings,
) -> Result<Option<Clash>, NoMemory>
    requires digests { AreDigestsUp (H.digest_of h.now) way.now.coin way.now.leaf.now way.now.path way.now.digests }
    requires leaf { leaf_at met.now place ≡ way.now.leaf.now }
    requires place { place < length met.now }
    ensures { (earlier : List (List ℕ)) → KeepsStrings (H.digest_of h.now) met.now strings.old earlier
        → IfOk result (IsAdded (H.digest_of h.now) met.now strings.new
        (earlier ++ hashed_strings (H.digest_of h.now) way.now.coin way.now.leaf.now way.now.path)) }
{
    for level in 0..65 {
        if let Some(clash) = add_string(alloc, h, way, place, level, met, strings)? {
            return Ok(Some(clash));
        }
    }
    Ok(None)
}

// Adds the string at a level of a way up.
fn add_string<H: Hash32>(
    alloc: Global,
    h: &H,
    way: &Way<'_>,
    place: usize,
    level: usize,
    met: &MetOpenings,
    strings: &mut Strings,
) -> Result<Option<Clash>, NoMemory>
    requires digests { AreDigestsUp (H.digest_of h.now) way.now.coin way.now.leaf.now way.now.path way.now.digests }
    requires leaf { leaf_at met.now place ≡ way.now.leaf.now }
    requires place { place < length met.now }
    requires within { level < 65 }
    ensures { (earlier : List (List ℕ)) → KeepsStrings (H.digest_of h.now) met.now strings.old earlier
        → IfOk result (IsAdded (H.digest_of h.now) met.now strings.new (earlier
        ++ hashed_string (H.digest_of h.now) way.now.coin way.now.leaf.now way.now.path level ∷ [])) }
{
    let string = string_at(h, way, place, level);
    let key = DigestKey {
        bytes: way.digests[level],
    };
    match strings.get(&key).copied() {
        None => {
            strings.insert(key, string)?;
            Ok(None)
        }
        Some(first) => clash_of(alloc, met, &first, &string),
    }
}

// The clash of two strings with one digest, where they differ.
fn clash_of(
    alloc: Global,
    met: &MetOpenings,
    first: &HashedString,
    second: &HashedString,
) -> Result<Option<Clash>, NoMemory>
    ensures { let one = bytes_of met.now first.now in let other = bytes_of met.now second.now in
        IfOk result (λ found. found ≡ (if bytes_eq one other then None
        else Some (record { first = one; second = other }))) }
{
    if first.is_same(second, met) {
        return Ok(None);
    }
    Ok(Some(Clash {
        first: first.to_bytes(alloc, met)?,
        second: second.to_bytes(alloc, met)?,
    }))
}
