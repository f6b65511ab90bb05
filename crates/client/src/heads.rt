// Headers: bytes that are gathered in the state, and judged when all are there. The server's are arrays of another length, and
// no bound on a closure names a length; over slices a second closure would have to make the state: so each has its own.
// A judge is given the array and a count, since the phase that it answers is read with the array.
ghost use Rattle.std.specs.Prelude.{List, ℕ, ◌+◌, ◌≤◌};
ghost use Rattle.machine.specs.Inner.{Gathered};

use crate::state::{Client, Phase};
use machine::ends::Took;
use machine::parts;

// Takes the bytes that come next, until there are `to`, and judges those that are then there: the first so many of 16.
pub fn take<F: FnOnce([u8; 16], usize) -> Phase>(
    head: [u8; 16],
    have: usize,
    to: usize,
    input: &[u8],
    judge: F,
) -> Took<Client>
    requires places { (have ≤ to) × (to ≤ 16) }
    requires judges { (bytes : List ℕ) (k : ℕ) → k ≤ to → F.pre judge bytes k }
    ensures gathers { Gathered head have to input.now result.state.head result.taken }
    ensures judged { F.post judge result.state.head (have + result.taken) result.state.phase }
{
    let mut bytes = head;
    let n = parts::gather(&mut bytes, have, to, input);
    Took {
        state: Client {
            phase: judge(bytes, have + n),
            head: bytes,
        },
        taken: n,
    }
}
