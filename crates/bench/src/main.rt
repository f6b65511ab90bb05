// Moves 64 KiB pieces over an image of 7 MiB (a program's stack has 8), by the server's WRITEs and READs or by the plain copy loop.
// Standard input: `r` (requests) or `c` (copies), and the number of rounds (4 bytes, big-endian). A round writes and reads each piece once.
// It writes how many bytes moved. It has no clock: bench/run.py times it.
#![tactic(auto)]

ghost use Rattle.std.specs.Prelude.{◌≤◌};

use server::state::Server;
use wire::fields;

// Standard input and output.
const STDIN: i32 = 0;

const STDOUT: i32 = 1;

const IMAGE: usize = 7340032;

const PIECE: usize = 65536;

const PIECES: usize = 112;
// a request of 28 bytes and its payload; a reply of 16 and its data
const INPUT: usize = 65564;

const ROOM: usize = 65552;

fn move_pieces(image: &mut [u8], input: &[u8; INPUT], room: &mut [u8; ROOM]) {
    for piece in image.chunks_exact_mut(PIECE) {
        piece.copy_from_slice(&input[28..]);
        room[16..].copy_from_slice(piece);
    }
}

// What bytes are moved between. The image is lent: a program's stack has no room for it twice.
#[derive(Drop)]
struct Arrays<'a> {
    image: &'a mut [u8; IMAGE],
    input: [u8; INPUT],
    room: [u8; ROOM],
}

// Where a run stands, and the bytes taken and given so far.
#[derive(Clone, Copy)]
struct Run {
    server: Server,
    moved: u64,
}

impl Arrays<'_> {
    // The request's fixed fields: magic and length.
    fn prepare(&mut self) {
        fields::write(&mut self.input, 0, 0x25609513u32);
        fields::write(&mut self.input, 24, 65536u32);
    }

    // The request's type and offset.
    fn aim(&mut self, kind: u16, offset: usize) {
        fields::write(&mut self.input, 6, kind);
        fields::write(&mut self.input, 16, offset as u64);
    }

    // The same bytes to and from the same places, without a server.
    fn copies(&mut self) {
        let Arrays { image, input, room } = self;
        move_pieces(&mut image[..], input, room);
    }

    // Standard input is at its end, so nothing is read here; but a compiler cannot know that, and leaves no round out.
    fn read(&mut self) {
        io::read_full(STDIN, self.image);
        io::read_full(STDIN, &mut self.input);
        io::read_full(STDIN, &mut self.room);
    }
}

impl Run {
    // A step, counted.
    fn step(&mut self, table: &[u8], image: &mut [u8], input: &[u8], room: &mut [u8]) {
        let a = self.server.step(input, room, table, image);
        self.server = a.state;
        self.moved = self
            .moved
            .wrapping_add(a.taken as u64)
            .wrapping_add(a.given as u64);
    }

    // The handshake: one export, the whole image. It does not count.
    fn open(a: &mut Arrays) -> Run {
        let table =
            b"\x01\x00\x12\x00\x00\x00\x00\x00\x00\x00\x00\x00\x00\x00\x00\x00\x70\x00\x00\x00a";
        let client = b"\x00\x00\x00\x03IHAVEOPT\x00\x00\x00\x01\x00\x00\x00\x01a";
        let mut run = Run {
            server: Server::new(),
            moved: 0,
        };
        let Arrays { image, room, .. } = a;
        run.step(table, &mut image[..], client, room);
        Run { moved: 0, ..run }
    }

    // A step on so many bytes of the input.
    fn send(&mut self, size: usize, a: &mut Arrays)
        requires { size ≤ 65564 }
    {
        let Arrays { image, input, room } = a;
        self.step(b"", &mut image[..], &input[..size], room);
    }

    // A WRITE of the input's payload at this offset, and a READ of as much.
    fn write_and_read(&mut self, offset: usize, a: &mut Arrays) {
        a.aim(1, offset);
        self.send(INPUT, a);
        a.aim(0, offset);
        self.send(28, a);
    }

    fn requests(&mut self, a: &mut Arrays) {
        for k in 0..PIECES {
            self.write_and_read(k * PIECE, a);
        }
    }
}

// So many rounds of requests, or of copies. A flag says which: as a closure the requests would hold the run, whose count is the
// answer.
fn rounds(requested: bool, n: u32, a: &mut Arrays) -> u64 {
    let mut run = Run::open(a);
    for _ in 0..n {
        a.read();
        if requested {
            run.requests(a);
        } else {
            a.copies();
        }
    }
    run.moved
}

// Shows the last byte of the room, so that what was moved is used.
fn show(moved: u64, room: &[u8; ROOM]) {
    io::print_decimal(STDOUT, moved);
    io::write_all(STDOUT, b" ");
    io::print_decimal(STDOUT, u64::from(room[ROOM - 1]));
    io::write_all(STDOUT, b"\n");
}

fn bench(image: &mut [u8; IMAGE]) {
    let mut order = [0u8; 5];
    io::read_full(STDIN, &mut order);
    let mut a = Arrays {
        image,
        input: [7u8; INPUT],
        room: [0u8; ROOM],
    };
    a.prepare();
    let n = fields::read::<u32>(&order, 1);
    let moved = rounds(order[0] == b'r', n, &mut a);
    show(moved, &a.room);
}

fn main() {
    let mut image = [0u8; IMAGE];
    bench(&mut image);
}
