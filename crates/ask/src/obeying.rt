// The calls that the orders name.
ghost use Rattle.std.specs.Prelude.{◌≡◌, ◌≤◌, length};
ghost use Rattle.std.specs.Io.{ReadsAtMost};

use crate::orders::Order;
use crate::talk::Talk;
use crate::words::Told;
use client::Called;
use client::state::{Outcome, Value};
use host::files;
use host::words::{fail, say, tell};
use std::io::{Result, Write};

// A talk, and the buffer for what its calls move.
#[derive(Drop)]
pub struct Session<'r, 'b> {
    rt: &'r HostRuntime,
    talk: Talk,
    buffer: &'b mut [u8],
}

// Writes what was read to the file.
fn save(rt: &HostRuntime, name: &[u8], bytes: &[u8]) -> Result<()> {
    files::open_overwrite(rt, name)?.write_all(bytes)
}

// What the file of this name holds.
fn load(rt: &HostRuntime, name: &[u8], buffer: &mut [u8]) -> Result<usize>
    ensures { ReadsAtMost result buffer.new }
{
    files::fill(&mut files::open_read(rt, name)?, buffer)
}

impl<'r, 'b> Session<'r, 'b> {
    pub fn new(rt: &'r HostRuntime, buffer: &'b mut [u8]) -> Session<'r, 'b> {
        Session {
            rt,
            talk: Talk::new(rt.stdin()),
            buffer,
        }
    }

    // The handshake. The session stands where it stays: a talk is half a megabyte, which is not moved.
    pub fn open(&mut self, name: &mut [u8]) {
        let c = self.talk.client.handshake(name);
        self.talk.drive(c, name);
        tell(format_args!("ask: {}\n", Told(self.talk.outcome)));
    }

    // Whether no call can be made any more.
    pub fn is_over(&self) -> bool {
        matches!(self.talk.outcome, Outcome::Open | Outcome::Ended(_))
    }

    // Makes a call that is lent the first bytes of the buffer, and says how that went.
    fn call(&mut self, c: Called, lent: usize)
        requires { lent ≤ length self.old.buffer.now }
        ensures { length self.new.buffer.now ≡ length self.old.buffer.now }
    {
        self.talk.drive(c, &mut self.buffer[..lent]);
        tell(format_args!("{}\n", Told(self.talk.outcome)));
    }

    fn read(&mut self, n: u64, name: &[u8]) {
        let n = n as usize;
        let most = self.buffer.len();
        if most < n {
            say(b"only its first bytes: ");
        }
        let lent = n.min(most);
        let c = self.talk.client.read(&self.buffer[..lent]);
        self.call(c, lent);
        if let Outcome::Succeeded(Value::Bytes(got)) = self.talk.outcome {
            let got = lent.min(got as usize);
            if let Err(e) = save(self.rt, name, &self.buffer[..got]) {
                fail(b"the file cannot be written", e);
            }
        }
    }

    // The bytes of the file. Where they fill the buffer, it may have more, and nothing is sent.
    fn write(&mut self, name: &[u8]) {
        match load(self.rt, name, self.buffer) {
            Ok(n) if n == self.buffer.len() => {
                say(b"the file is too large, one call moves at most 4194304 bytes\n")
            }
            Ok(n) => {
                let c = self.talk.client.write(&self.buffer[..n]);
                self.call(c, n);
            }
            Err(e) => fail(b"the file cannot be read", e),
        }
    }

    pub fn obey(&mut self, order: Order) {
        let client = self.talk.client;
        match order {
            Order::Read { n, file } => self.read(n, file),
            Order::Write { file } => self.write(file),
            Order::Seek(from) => self.call(client.seek(from), 0),
            Order::Flush => self.call(client.flush(), 0),
            Order::Trim(n) => self.call(client.trim(n), 0),
            Order::Resize(n) => self.call(client.resize(n), 0),
        }
    }
}
