// A client on standard input and output: a call is driven until it is closed.
ghost use Rattle.std.specs.Prelude.{◌≡◌};
ghost use Rattle.ask.specs.Talk.{Steps};

use client::state::{Client, Outcome};
use client::{Called, Stepped};
use host::input::Input;
use std::io::Stdin;

const STDOUT: i32 = 1;

const PIECE: usize = 262144;

// The client, how its last call stands, what was read and not taken yet, and room for what it gives.
// A `Vec` in place of an array could fail for want of memory.
#[derive(Drop)]
pub struct Talk {
    pub client: Client,
    pub outcome: Outcome,
    stdin: Stdin,
    input: Input,
    room: [u8; PIECE],
}

// The client's step.
fn step(c: Client, input: &[u8], room: &mut [u8], lent: &mut [u8]) -> Stepped
    ensures { Steps c lent.old input.now room.old result lent.new room.new }
{
    c.step(input, room, lent)
}

impl Talk {
    pub fn new(stdin: Stdin) -> Talk
        ensures { result.input.have ≡ 0 }
    {
        Talk {
            client: Client::new(),
            outcome: Outcome::Open,
            stdin,
            input: Input::new(),
            room: [0u8; PIECE],
        }
    }

    // After a call: what was read and not taken yet stays.
    fn called(&mut self, c: Called)
        ensures { self.new.input ≡ self.old.input }
    {
        self.client = c.state;
        self.outcome = c.outcome;
    }

    // Reads what is there; at its end, the client is told so.
    fn read(&mut self) {
        if matches!(self.input.read(&mut self.stdin), Ok(0) | Err(_)) {
            self.called(self.client.end_of_input());
        }
    }

    // Takes and gives as far as both go, and sends what was given. Where nothing moves, input is awaited.
    fn turn(&mut self, lent: &mut [u8]) {
        let Talk {
            client,
            input,
            room,
            ..
        } = self;
        let s = step(*client, input.rest(), room, lent);
        io::write_all(STDOUT, &room[..s.given]);
        self.client = s.state;
        self.outcome = s.outcome;
        self.input.take(s.taken);
        if self.is_open() && self.input.rest().is_empty() && s.given == 0 {
            self.read();
        }
    }

    fn is_open(&self) -> bool {
        matches!(self.outcome, Outcome::Open)
    }

    // Makes a call and drives it until it is closed.
    // A proved loop has to end, and nothing says that a server answers: its turns are more than any run uses up.
    pub fn drive(&mut self, c: Called, lent: &mut [u8]) {
        self.called(c);
        for _ in 0..u64::MAX {
            if !self.is_open() {
                break;
            }
            self.turn(lent);
        }
    }
}
