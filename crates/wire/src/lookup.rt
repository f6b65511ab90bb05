// Lookup of an export by a name that is never stored. The set of those that still fit is a number whose binary digit k is record k's; only this
// file knows that.
ghost use Rattle.std.specs.Prelude.{◌≡◌, ◌^◌, ◌<◌, length};
ghost use Rattle.wire.specs.Table.{records};
ghost use Rattle.wire.specs.Lookup.{started, narrowed_by, chosen, set_of};
ghost use Rattle.wire.specs.Walk.{seen, has_all, sieve, share, passed};

use crate::records::{Entry, Records};

// A set that is made record by record: the digits of the old one that are left, the next one's weight, and what is known of the new one.
#[derive(Clone, Copy)]
struct Sieve {
    left: u32,
    weight: u64,
    done: u32,
}

impl Sieve {
    fn new(set: u32) -> Sieve
        ensures { result ≡ sieve set }
    {
        Sieve {
            left: set,
            weight: 1,
            done: 0,
        }
    }

    // What the next record adds: its weight, if it was in the old set and fits.
    fn share(self, fits: bool) -> u32
        requires { self.weight < 2 ^ 32 }
        ensures { result ≡ share self fits }
    {
        if self.left % 2 == 1 && fits {
            self.weight as u32
        } else {
            0
        }
    }

    // After the next record.
    fn pass(self, fits: bool) -> Sieve
        requires { (self.weight < 2 ^ 32) × ((passed self fits).done < 2 ^ 32) }
        ensures { result ≡ passed self fits }
    {
        Sieve {
            left: self.left / 2,
            weight: self.weight * 2,
            done: self.done + self.share(fits),
        }
    }
}

// Whether a record's name has these bytes from the place `at` on.
fn agrees(e: Entry<'_>, at: usize, part: &[u8]) -> bool
    requires { 0 < length part.now }
    ensures { result ≡ has_all (seen e.entry) at part.now }
{
    e.name.len() >= at && e.name[at..].starts_with(part)
}

// The exports whose names are that long.
pub fn started(table: &[u8], len: usize) -> u32
    ensures { set_of result ≡ started (records table.now) len }
{
    let mut s = Sieve::new(u32::MAX);
    for e in Records::of(table) {
        s = s.pass(e.name.len() == len);
    }
    s.done
}

// The exports of the set that have these bytes in their names, from the place `at` on.
pub fn narrowed(set: u32, table: &[u8], at: usize, part: &[u8]) -> u32
    ensures { set_of result ≡ narrowed_by (records table.now) at part.now (set_of set) }
{
    if part.is_empty() {
        return set;
    }
    let mut s = Sieve::new(set);
    for e in Records::of(table) {
        s = s.pass(agrees(e, at, part));
    }
    s.done
}

// The number of the lowest export of the set.
#[tactic(auto, using(crate::proofs::Words::chosen_bits, crate::proofs::Words::chosen_none))]
pub fn lowest(set: u32) -> Option<usize>
    ensures { result ≡ chosen (set_of set) }
{
    if set == 0 {
        None
    } else {
        Some(set.trailing_zeros() as usize)
    }
}
