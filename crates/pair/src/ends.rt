// The two ends and the wires between them.
use crate::print;
use crate::schedule::{Choice, Order, Schedule};
use crate::script::{Call, LONGEST};
use client::state::{Client, Outcome};
use joined::Offer;
use server::state::Server;

// A wire's bytes, how many of them stand on it, and how many were put on it and taken off it. They are lent: with an array inside, each size of it
// would have moves of its own.
#[derive(Drop)]
struct Wire<'a> {
    bytes: &'a mut [u8],
    count: usize,
    gave: u64,
    took: u64,
}

#[derive(Drop)]
pub struct Ends<'u, 'd> {
    client: Client,
    server: Server,
    schedule: Schedule,
    image: [u8; 64],
    up: Wire<'u>,
    down: Wire<'d>,
}

impl<'a> Wire<'a> {
    fn new(bytes: &'a mut [u8]) -> Wire<'a> {
        Wire {
            bytes,
            count: 0,
            gave: 0,
            took: 0,
        }
    }

    fn put(&mut self, given: usize, count: usize) {
        self.gave = self.gave.wrapping_add(given as u64);
        self.count = count;
    }

    fn take(&mut self, taken: usize, count: usize) {
        self.took = self.took.wrapping_add(taken as u64);
        self.count = count;
    }
}

// Adler-32
fn checksum(bytes: &[u8]) -> u64 {
    let mut a = 1u64;
    let mut b = 0u64;
    for &byte in bytes {
        a = (a + u64::from(byte)) % 65521;
        b = (b + a) % 65521;
    }
    b * 65536 + a
}

impl<'u, 'd> Ends<'u, 'd> {
    pub fn new(order: Order, up: &'u mut [u8], down: &'d mut [u8]) -> Ends<'u, 'd> {
        Ends {
            client: Client::new(),
            server: Server::new(),
            schedule: Schedule::new(order),
            image: *b"<before>ASPIRIN HEPARIN INSULIN DIGOXIN <24 bytes stand behind.>",
            up: Wire::new(up),
            down: Wire::new(down),
        }
    }

    fn offer(&self, c: Choice) -> Offer {
        Offer {
            ups: self.up.count,
            downs: self.down.count,
            piece: c.piece,
            room: c.room,
        }
    }

    fn client_moves(&mut self, o: Offer, lent: &mut [u8]) -> Outcome {
        let Ends {
            client,
            up,
            down,
            ..
        } = self;
        let r = joined::client_move(*client, o, lent, up.bytes, down.bytes);
        *client = r.step.state;
        up.put(r.step.given, r.ups);
        down.take(r.step.taken, r.downs);
        r.step.outcome
    }

    fn server_moves(&mut self, o: Offer) {
        // version 1; start 8, size 32, flags 0, `labels`
        let table =
            b"\x01\x00\x17\x00\x00\x00\x00\x00\x00\x00\x08\x00\x00\x00\x00\x00\x00\x00\x20\x00labels";
        let Ends {
            server,
            image,
            up,
            down,
            ..
        } = self;
        let r = joined::server_move(*server, o, table, image, up.bytes, down.bytes);
        *server = r.step.state;
        up.take(r.step.taken, r.ups);
        down.put(r.step.given, r.downs);
    }

    // One move, as the schedule says, and how the client's call stands then.
    fn moves(&mut self, lent: &mut [u8]) -> Outcome {
        let c = self.schedule.choose();
        let o = self.offer(c);
        if c.client {
            self.client_moves(o, lent)
        } else {
            self.server_moves(o);
            Outcome::Open
        }
    }

    // Makes the call with what is lent, moves until it is closed, at most 100,000 times, and says how it went.
    fn closes(&mut self, k: Call, lent: &mut [u8]) -> Outcome {
        let r = k.make(self.client, lent);
        self.client = r.state;
        let mut outcome = r.outcome;
        for _ in 0..100000 {
            if !matches!(outcome, Outcome::Open) {
                break;
            }
            outcome = self.moves(lent);
        }
        outcome
    }

    // A call, and its line.
    pub fn call(&mut self, k: Call) {
        let mut buffer = [0u8; LONGEST];
        k.fill(&mut buffer);
        let lent = &mut buffer[..k.lends()];
        let outcome = self.closes(k, lent);
        print::call(k, outcome, lent);
    }

    // The image after a run, and the bytes carried.
    pub fn show(&self) {
        print::tell("image [");
        print::bytes(&self.image);
        print::tell(format_args!("] {}\n", checksum(&self.image)));
        let Wire { gave, took, .. } = &self.up;
        print::tell(format_args!("up {gave} {took} "));
        let Wire { gave, took, .. } = &self.down;
        print::tell(format_args!("down {gave} {took}\n"));
    }
}
