// A step: it takes and gives, phase by phase, as far as the input and the room go (machine::ends::advance).
ghost use Rattle.std.specs.Prelude.{◌≡◌, ◌≤◌, length};
ghost use Rattle.server.specs.Session.{State, turn};
ghost use Rattle.server.specs.View.{view, code, used};
ghost use Rattle.server.specs.Inner.{Good, Absorbed, Emitted};
ghost use Rattle.server.specs.Contract.{outcome_of};

use crate::state::{Outcome, Phase, Server};
use crate::transmission::Service;
use crate::{handshake, ranges};
use machine::ends::{End, Gave, Took};

// Takes what the phase takes of the input.
fn absorb(s: Server, input: &[u8], table: &[u8], image: &mut [u8]) -> Took<Server>
    requires { Good table.now (length image.old) (view s) }
    ensures { Absorbed table.now (view s) image.old input.now result image.new }
{
    // A header would be judged again where nothing comes: so the parts ask for some input, by a `requires` each. A struct that holds one slice to
    // say so, made here alone, would be no plainer.
    if input.is_empty() {
        return Took::none(s);
    }
    // a match on the phase: a function that a phase held could not be handed in by a host
    match s.phase {
        Phase::Shaking(h) => handshake::absorb(s.head, h, table, input),
        Phase::Serving(export, t) => {
            let head = s.head;
            Service { head, export }.absorb(t, input, image)
        }
        Phase::Over(_) => Took::none(s),
    }
}

// Gives what the phase owes into the room.
fn emit(s: Server, room: &mut [u8], table: &[u8], image: &[u8]) -> Gave<Server>
    requires { Good table.now (length image.now) (view s) }
    ensures { Emitted table.now (view s) image.now room.old result room.new }
{
    match s.phase {
        Phase::Shaking(h) => handshake::emit(s.head, h, room),
        Phase::Serving(export, t) => {
            let head = s.head;
            Service { head, export }.emit(t, room, image)
        }
        Phase::Over(_) => Gave::none(s),
    }
}

// A server within a step. No other crate can name it: so none can make it go by a phase alone, past what a step refuses.
#[derive(Clone, Copy)]
pub struct Stepping {
    pub server: Server,
}

impl End for Stepping {
    ghost Place = { State };

    ghost view = { λ s. view s.server };

    ghost machine = { turn };

    ghost Good = { Good };

    // What is lent to be read is the table, and the rest the image.
    fn absorb(self, input: &[u8], table: &[u8], image: &mut [u8]) -> Took<Stepping> {
        let took = absorb(self.server, input, table, image);
        Took {
            state: Stepping { server: took.state },
            taken: took.taken,
        }
    }

    fn emit(self, room: &mut [u8], table: &[u8], image: &[u8]) -> Gave<Stepping> {
        let gave = emit(self.server, room, table, image);
        Gave {
            state: Stepping { server: gave.state },
            given: gave.given,
        }
    }
}

// ---- the end of a step

// What a step ends with.
pub fn outcome_of(s: Server) -> Outcome
    ensures { result ≡ outcome_of (view s) }
{
    match s.phase {
        Phase::Over(n) => Outcome::Ended(n),
        _ => Outcome::GoingOn,
    }
}

// The same, with 0 in the bytes of `head` that are not in use. The client has the like over its own phases and its own array.
pub fn canonical(s: Server) -> Server
    requires { used s.phase ≤ 28 }
    ensures { result ≡ code (view s) }
{
    let k = ranges::used(s.phase);
    let mut head = [0u8; 28];
    head[..k].copy_from_slice(&s.head[..k]);
    Server { head, ..s }
}
