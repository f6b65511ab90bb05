// What `trace` does with a server.
#![tactic(auto)]

pub mod asked;

ghost use Rattle.std.specs.Prelude.{◌≡◌, ◌≤◌, length};
ghost use Rattle.server.specs.Session.{Greeting, Shaking};
ghost use Rattle.server.specs.View.{code};
ghost use Rattle.serving.specs.Text.{line_of};

use asked::{Head, Serve};
use lines::answer::Answer;
use lines::buffers::{Buffers, Driven, Moved, ROOM};
use lines::places::Lent;
use lines::{answer, buffers};
use server::oldstyle;
use server::state::{Outcome, Server};

// The server that a script drives.
#[derive(Clone, Copy)]
pub struct Served {
    pub server: Server,
}

// What a line says of an outcome. No `From`: that stands beside one of its two types, and both are of crates below.
fn shown(o: Outcome) -> Answer
    ensures { result ≡ line_of o }
{
    match o {
        Outcome::GoingOn => Answer::On,
        Outcome::Ended(n) => Answer::End(n),
        Outcome::Refused(n) => Answer::No(n),
    }
}

impl Driven for Served {
    fn lent(&self) -> Lent {
        Lent::Image
    }

    fn step(&mut self, input: &[u8], room: &mut [u8], table: &[u8], lent: &mut [u8]) -> Moved {
        let r = self.server.step(input, room, table, lent);
        self.server = r.state;
        Moved {
            answer: shown(r.outcome),
            taken: r.taken,
            given: r.given,
        }
    }
}

impl Served {
    pub fn new() -> Served
        ensures { result.server ≡ code (Shaking (Greeting 18)) }
    {
        Served {
            server: Server::new(),
        }
    }

    // The end of input, and its line.
    fn end(&mut self) {
        let r = self.server.end_of_input();
        answer::line(shown(r.outcome), 0, b"", false);
        self.server = r.state;
    }

    // Does what a record says of the server.
    pub fn obey(&mut self, c: Serve, buffers: &mut Buffers) {
        match c {
            Serve::Fresh => self.server = Server::new(),
            Serve::Step(k) => buffers::drive(self, k, buffers),
            Serve::End => self.end(),
        }
    }
}

fn header(size: u64, flags: u32, room: &mut [u8]) -> Moved
    ensures { result.given ≤ length room.old }
{
    match oldstyle::oldstyle_header(room, size, flags) {
        Ok(()) => Moved {
            answer: Answer::On,
            taken: 0,
            given: 152,
        },
        Err(_) => Moved {
            answer: Answer::No(13),
            taken: 0,
            given: 0,
        },
    }
}

// The old-style header, and its line.
pub fn head(k: Head, room: &mut [u8; ROOM]) {
    buffers::clean(k.room, room);
    let m = header(k.size, k.flags, &mut room[..k.room.bytes]);
    buffers::show(m, true, k.room, room);
}
