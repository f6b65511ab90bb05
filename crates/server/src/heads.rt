// Headers: bytes that are gathered in the state, and judged where their magic ends and where they end. The client's are arrays of another length, and
// no bound on a closure names a length; over slices a second closure would have to make the state: so each has its own.
// A judge is given the array and a count, since the phase that it answers is read with the array.
ghost use Rattle.std.specs.Prelude.{◌≡◌, ◌+◌, ◌<◌, ◌≤◌, List, ℕ, ltb};
ghost use Rattle.machine.specs.Choice.{pick};
ghost use Rattle.machine.specs.Inner.{Gathered};

use crate::state::{Phase, Server};
use machine::ends::Took;
use machine::parts;

// How many bytes there are when the next is judged.
fn until(have: usize, magic: usize, all: usize) -> usize
    ensures { result ≡ pick (ltb have magic) magic all }
{
    if have < magic { magic } else { all }
}

// Takes the bytes that come next, up to a place where they are judged, and judges those that are then there: the first so many of 28.
pub fn take<F: FnOnce([u8; 28], usize) -> Phase>(
    head: [u8; 28],
    have: usize,
    magic: usize,
    all: usize,
    input: &[u8],
    judge: F,
) -> Took<Server>
    requires places { (have < all) × (magic ≤ all) × (all ≤ 28) }
    requires judges { (bytes : List ℕ) (k : ℕ) → k ≤ all → F.pre judge bytes k }
    ensures gathers { Gathered head have (pick (ltb have magic) magic all) input.now result.state.head result.taken }
    ensures judged { F.post judge result.state.head (have + result.taken) result.state.phase }
{
    let mut bytes = head;
    let n = parts::gather(&mut bytes, have, until(have, magic, all), input);
    Took {
        state: Server {
            phase: judge(bytes, have + n),
            head: bytes,
        },
        taken: n,
    }
}
