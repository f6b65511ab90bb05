// A step: it takes and gives, phase by phase, as far as the input and the room go.
ghost use Rattle.std.specs.Prelude.{◌≡◌, List, ℕ, ◌≤◌, length};
ghost use Rattle.client.specs.Session.{State, turn};
ghost use Rattle.client.specs.View.{view, view_of, code, used};
ghost use Rattle.client.specs.Inner.{Good, Absorbed, Emitted};
ghost use Rattle.client.specs.Contract.{after, outcome_of};

use crate::handshake::Shake;
use crate::ranges;
use crate::state::{Client, Outcome, Phase};
use crate::transmission::Exchange;
use machine::ends::{End, Gave, Took};

// Takes what the phase takes of the input.
fn absorb(s: Client, input: &[u8], lent: &mut [u8]) -> Took<Client>
    requires { Good (length lent.old) (view s) }
    ensures { Absorbed (view s) lent.old input.now result lent.new }
{
    // no part needs it: but a step where nothing comes is often made, and then nothing is gathered and judged again
    if input.is_empty() {
        return Took::none(s);
    }
    let head = s.head;
    // a match on the phase: a function that a phase held could not be handed in by a host
    match s.phase {
        Phase::Shaking(name, h) => Shake { head, name }.absorb(h, input),
        Phase::Calling(device, call, p) => Exchange { head, device, call }.absorb(p, input, lent),
        _ => Took::none(s),
    }
}

// Gives what the phase owes into the room.
fn emit(s: Client, room: &mut [u8], lent: &[u8]) -> Gave<Client>
    requires { Good (length lent.now) (view s) }
    ensures { Emitted (view s) lent.now room.old result room.new }
{
    let head = s.head;
    match s.phase {
        Phase::Shaking(name, h) => Shake { head, name }.emit(h, lent, room),
        Phase::Calling(device, call, p) => Exchange { head, device, call }.emit(p, lent, room),
        _ => Gave::none(s),
    }
}

// A client within a step. No other crate can name it: so none can make it go by a phase alone, past what a step refuses.
#[derive(Clone, Copy)]
pub struct Stepping {
    pub client: Client,
}

impl End for Stepping {
    ghost Place = { State };

    ghost view = { λ s. view s.client };

    ghost machine = { λ _. turn };

    ghost Good = { λ _. Good };

    fn absorb(self, input: &[u8], _still: &[u8], lent: &mut [u8]) -> Took<Stepping> {
        let took = absorb(self.client, input, lent);
        Took {
            state: Stepping { client: took.state },
            taken: took.taken,
        }
    }

    fn emit(self, room: &mut [u8], _still: &[u8], lent: &[u8]) -> Gave<Stepping> {
        let gave = emit(self.client, room, lent);
        Gave {
            state: Stepping { client: gave.state },
            given: gave.given,
        }
    }
}

// ---- the end of a step

// Where a client stands after it.
fn after(p: Phase) -> Phase
    ensures { (used result ≡ used p) × ((h : List ℕ) → view_of h result ≡ after (view_of h p)) }
{
    match p {
        Phase::Closed(_, d) => Phase::Ready(d),
        _ => p,
    }
}

// What a step ends with.
pub fn outcome_of(p: Phase) -> Outcome
    ensures { (h : List ℕ) → result ≡ outcome_of (view_of h p) }
{
    match p {
        Phase::Closed(o, _) => o,
        Phase::Over(n) => Outcome::Ended(n),
        _ => Outcome::Open,
    }
}

// The client as it is handed back, with 0 in the bytes of `head` that are not in use. The server has the like over its own phases and
// its own array.
pub fn canonical(s: Client) -> Client
    requires { used s.phase ≤ 16 }
    ensures { result ≡ code (after (view s)) }
{
    let phase = after(s.phase);
    let k = ranges::used(phase);
    let mut head = [0u8; 16];
    head[..k].copy_from_slice(&s.head[..k]);
    Client { phase, head }
}
