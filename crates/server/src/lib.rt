// An NBD server without sockets: the host keeps the wire, lends slices, and hands a state in and gets it back.
#![tactic(auto)]

mod ending;
mod handshake;
mod heads;
pub mod oldstyle;
mod options;
mod ranges;
mod refusal;
mod request;
pub mod state;
mod step;
mod transmission;

ghost use Rattle.std.specs.Prelude.{◌≡◌, []};
ghost use Rattle.server.specs.Session.{Greeting, Shaking};
ghost use Rattle.server.specs.View.{code, padded};
ghost use Rattle.server.specs.Contract.{cut_off, Serves, Closes};

use ending::Ending;
use machine::ends;
use refusal::Refusal;
use state::{Handshake, Outcome, Phase, Server};
use step::Stepping;

pub type Stepped = ends::Stepped<Server, Outcome>;

pub type InputEnded = ends::Answered<Server, Outcome>;

// The end of input, while output is owed or not.
fn cut_off(s: Server, owed: bool) -> InputEnded
    ensures { result ≡ cut_off s owed }
{
    if owed {
        InputEnded {
            state: s,
            outcome: Outcome::Refused(Refusal::OutputOwed.number()),
        }
    } else {
        InputEnded {
            state: Server::at(Phase::Over(Ending::InputEnded as u8)),
            outcome: Outcome::Ended(Ending::InputEnded as u8),
        }
    }
}

impl Server {
    // With no bytes gathered.
    fn at(phase: Phase) -> Server
        ensures { result ≡ record { phase = phase; head = padded [] } }
    {
        Server {
            phase,
            head: [0u8; 28],
        }
    }

    // A server at the start of a session: the greeting is owed.
    pub fn new() -> Server
        ensures { result ≡ code (Shaking (Greeting 18)) }
    {
        Server::at(Phase::Shaking(Handshake::Greeting { left: 18 }))
    }

    // Takes input and gives output as far as both go.
    pub fn step(self, input: &[u8], room: &mut [u8], table: &[u8], image: &mut [u8]) -> Stepped
        ensures { Serves self table.now image.old input.now room.old
            result image.new room.new }
    {
        if let Err(why) = ranges::refusal(self, table, image.len()) {
            return Stepped {
                state: self,
                taken: 0,
                given: 0,
                outcome: Outcome::Refused(why.number()),
            };
        }
        let r = ends::advance(Stepping { server: self }, input, room, table, image);
        let state = step::canonical(r.state.server);
        let outcome = step::outcome_of(state);
        Stepped {
            state,
            taken: r.taken,
            given: r.given,
            outcome,
        }
    }

    // The host reports that no more input will come.
    pub fn end_of_input(self) -> InputEnded
        ensures { Closes self result }
    {
        if !ranges::in_range(self) {
            return InputEnded {
                state: self,
                outcome: Outcome::Refused(Refusal::OutOfRange.number()),
            };
        }
        match self.phase {
            Phase::Shaking(h) => cut_off(self, handshake::owes(h)),
            Phase::Serving(_, t) => cut_off(self, transmission::owes(t)),
            Phase::Over(n) => InputEnded {
                state: self,
                outcome: Outcome::Ended(n),
            },
        }
    }
}
