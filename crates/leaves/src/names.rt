// Names, looked up in a table: each whole, then a byte at a time; and with a table that changes inside the name.
ghost use Rattle.std.specs.Prelude.{◌≡◌};
ghost use Rattle.wire.specs.Table.{records};
ghost use Rattle.leaves.specs.Names.{found, changed};

use crate::say;
use wire::{lookup, table};

fn whole(t: &[u8], name: &[u8]) -> Option<usize>
    ensures { result ≡ found (records t.now) name.now }
{
    let set = lookup::started(t, name.len());
    lookup::lowest(lookup::narrowed(set, t, 0, name))
}

fn singly(t: &[u8], name: &[u8]) -> Option<usize>
    ensures { result ≡ found (records t.now) name.now }
{
    let mut set = lookup::started(t, name.len());
    for (i, b) in name.iter().enumerate() {
        set = lookup::narrowed(set, t, i, &[*b]);
    }
    lookup::lowest(set)
}

// The name "ab": begun, and its first byte taken, with the table t; its second byte taken with u.
fn in_both(t: &[u8], u: &[u8]) -> Option<usize>
    ensures { result ≡ changed (records t.now) (records u.now) }
{
    let a = lookup::narrowed(lookup::started(t, 2), t, 0, b"a");
    lookup::lowest(lookup::narrowed(a, u, 1, b"b"))
}

// An export's number, and the start of its window in the table t.
fn shown(x: Option<usize>, t: &[u8]) {
    match x {
        Some(k) => {
            let e = table::export_at(t, k);
            say::number(k as u64);
            say::number(e.start);
        }
        None => say::text(b" none"),
    }
}

fn looked_up(t: &[u8], name: &[u8]) {
    shown(whole(t, name), t);
    shown(singly(t, name), t);
}

// The table of x bytes at the front, and what stands behind it.
fn cut(x: u64, both: &[u8]) -> Option<(&[u8], &[u8])> {
    both.split_at_checked(x as usize)
}

// A table of x bytes, and a name that is looked up in it.
pub fn name(x: u64, both: &[u8]) {
    match cut(x, both) {
        Some((t, name)) => looked_up(t, name),
        None => say::letter(b'?'),
    }
}

// A table of x bytes, and the table that it changes to inside the name.
pub fn tables(x: u64, both: &[u8]) {
    match cut(x, both) {
        Some((t, u)) => shown(in_both(t, u), u),
        None => say::letter(b'?'),
    }
}
