// One session on standard input and output. Each turn does one thing: it sends what is owed, or takes input that is at hand, or reads more.
ghost use Rattle.std.specs.Prelude.{◌≡◌, ◌+◌, ◌≤◌, length};

use crate::stepping;
use crate::stepping::Part;
use host::files;
use host::input::Input;
use server::state::{Outcome, Server};
use std::fs::File;
use std::io::Stdin;

const STDOUT: i32 = 1;

const PIECE: usize = 262144;

// Why a session stops.
#[derive(Clone, Copy)]
pub enum Stop {
    // 01's numbers, as the server's outcomes have them
    Ended(u8),
    Refused(u8),
    // the client does not read any more
    NotSent,
    // standard input fails
    NotRead,
    // the image file cannot be written
    NotKept,
    // a proved loop has to end
    OutOfTurns,
}

// The image, its file, and whether the file has bytes that may not have reached its device.
#[derive(Drop)]
pub struct Image<'a> {
    file: &'a File,
    bytes: &'a mut [u8],
    dirty: bool,
    ghost fits: { length bytes.now ≤ 4194304 },
}

#[derive(Drop)]
pub struct Session<'a> {
    server: Server,
    table: &'a [u8],
    image: Image<'a>,
    stdin: Stdin,
    input: Input,
    room: [u8; PIECE],
}

// Whether a session goes on, by what its server says. No `From`: a session that goes on is no error.
fn going_on(o: Outcome) -> Result<(), Stop> {
    match o {
        Outcome::GoingOn => Ok(()),
        Outcome::Ended(n) => Err(Stop::Ended(n)),
        Outcome::Refused(n) => Err(Stop::Refused(n)),
    }
}

impl<'a> Image<'a> {
    pub fn new(file: &'a File, bytes: &'a mut [u8]) -> Image<'a>
        requires { length bytes.old ≤ 4194304 }
    {
        Image {
            file,
            bytes,
            dirty: false,
        }
    }

    // Writes what was stored to the file: no byte outside the part that a step changed.
    fn keep(&mut self, p: Part) -> Result<(), Stop>
        requires { p.from + p.len ≤ length self.old.bytes.now }
    {
        self.dirty |= 0 < p.len;
        files::write(self.file, &self.bytes[p.from..p.from + p.len], p.from).map_err(
            |_| Stop::NotKept,
        )
    }

    // Sees that what was stored has reached the file's device.
    fn sync(&mut self) -> Result<(), Stop> {
        if self.dirty && self.file.sync_data().is_err() {
            return Err(Stop::NotKept);
        }
        self.dirty = false;
        Ok(())
    }
}

impl<'a> Session<'a> {
    pub fn new(stdin: Stdin, table: &'a [u8], image: Image<'a>) -> Session<'a>
        ensures { result.input.have ≡ 0 }
    {
        Session {
            server: Server::new(),
            table,
            image,
            stdin,
            input: Input::new(),
            room: [0u8; PIECE],
        }
    }

    // The end of the input.
    fn close(&self) -> Result<(), Stop> {
        going_on(self.server.end_of_input().outcome)
    }

    // Reads what is there.
    fn read(&mut self) -> Result<(), Stop> {
        let n = self.input.read(&mut self.stdin).map_err(|_| Stop::NotRead)?;
        if n == 0 {
            return self.close();
        }
        Ok(())
    }

    // Takes input that is at hand, and writes what was stored.
    fn take(&mut self) -> Result<(), Stop> {
        let Session {
            server,
            table,
            image,
            input,
            ..
        } = self;
        let t = stepping::take(*server, table, image.bytes, input.rest());
        *server = t.step.state;
        input.take(t.step.taken);
        image.keep(t.part)
    }

    // Sends what a step gave. What was stored before it has reached the file's device by then; what was read and not taken yet stays.
    fn send(&mut self, n: usize) -> Result<(), Stop>
        requires { n ≤ 262144 }
        ensures { self.new.input ≡ self.old.input }
    {
        self.image.sync()?;
        if io::write_all(STDOUT, &self.room[..n]) {
            Ok(())
        } else {
            Err(Stop::NotSent)
        }
    }

    fn turn(&mut self) -> Result<(), Stop> {
        let Session {
            server,
            table,
            image,
            room,
            ..
        } = self;
        let g = stepping::give(*server, table, image.bytes, room);
        if 0 < g.given {
            *server = g.state;
            return self.send(g.given);
        }
        going_on(g.outcome)?;
        if self.input.rest().is_empty() {
            self.read()
        } else {
            self.take()
        }
    }

    // Turns to the end. Nothing says that a session ends: it has more turns than any run uses up.
    pub fn serve(&mut self) -> Stop {
        for _ in 0..u64::MAX {
            if let Err(stop) = self.turn() {
                return stop;
            }
        }
        Stop::OutOfTurns
    }
}
