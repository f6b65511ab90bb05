// Parts of what is lent: a header's bytes gathered, a reply's bytes given, bytes that are 0.
ghost use Rattle.std.specs.Prelude.{◌≡◌, ◌≤◌, length, drop};
ghost use Rattle.machine.specs.Parts.{blank};
ghost use Rattle.machine.specs.Inner.{Gathered, Given};

use crate::copy;

// The first `have` bytes of a header are there: takes those that come next, until there are `to`, and answers how many.
pub fn gather(head: &mut [u8], have: usize, to: usize, input: &[u8]) -> usize
    requires { (have ≤ to) × (to ≤ length head.old) }
    ensures { Gathered head.old have to input.now head.new result }
{
    let n = (to - have).min(input.len());
    copy::copy_part(input, 0, head, have, n);
    n
}

// Gives those of the last `left` bytes that the room has space for, and answers how many.
pub fn give(bytes: &[u8], left: usize, room: &mut [u8]) -> usize
    requires { left ≤ length bytes.now }
    ensures { Given bytes.now left room.old result room.new }
{
    let n = left.min(room.len());
    let from = bytes.len() - left;
    copy::copy_part(bytes, from, room, 0, n);
    n
}

// Whether the bytes from `from` on are 0.
pub fn blank(l: &[u8], from: usize) -> bool
    ensures { result ≡ blank (drop from l.now) }
{
    let rest = &l[from.min(l.len())..];
    rest.iter().all(|b| *b == 0)
}
