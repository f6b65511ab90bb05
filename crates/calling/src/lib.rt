// What `trace` does with a client.
#![tactic(auto)]

pub mod asked;

ghost use Rattle.std.specs.Prelude.{◌≡◌};
ghost use Rattle.machine.specs.Choice.{pick};
ghost use Rattle.client.specs.Contract.{known, fresh};
ghost use Rattle.calling.specs.Text.{value_shown, called_of, resizing, size_of};

use asked::{Call, Made};
use client::state::{Client, Device, Outcome, Phase, Value};
use client::{Called, state};
use lines::answer::Answer;
use lines::buffers::{Buffers, Driven, Moved};
use lines::places::Lent;
use lines::{answer, buffers};

// ---- answers

// The value that a line shows; `none` stands where a call gives none.
fn value(v: Value, none: u64) -> u64
    ensures { result ≡ value_shown none v }
{
    match v {
        Value::Opened(size, _) => size,
        Value::Bytes(n) => n as u64,
        Value::Position(p) => p,
        Value::Nothing => none,
    }
}

// What a line says of an outcome. No `From`: `none` comes with it, and both types are of crates below.
fn outcome(o: Outcome, none: u64) -> Answer
    ensures { result ≡ called_of none o }
{
    match o {
        Outcome::Open => Answer::On,
        Outcome::Succeeded(v) => Answer::Done(value(v, none)),
        Outcome::Failed(e) => Answer::Fail(e),
        Outcome::Ended(n) => Answer::End(n),
        Outcome::Refused(n) => Answer::No(n),
    }
}

// Whether the open call is a resize.
fn resizing(s: Client) -> bool
    ensures { result ≡ resizing s.phase }
{
    matches!(s.phase, Phase::Calling(_, state::Call::Resize { .. }, _))
}

// The client's size. Where it has none the line shows 0.
fn size(s: Client) -> u64
    ensures { result ≡ size_of (known s) }
{
    s.info().map_or(0, |d| d.size)
}

// What a step's line shows where the call gives no value: after a resize, the client's size.
fn shown(before: Client, after: Client) -> u64
    ensures { result ≡ pick (resizing before.phase) (size_of (known after)) 0 }
{
    if resizing(before) { size(after) } else { 0 }
}

// ---- `q`

fn show_device(d: Device) {
    let f = d.fields;
    lines::number(d.size);
    lines::number(d.position);
    lines::bit(f.readonly);
    lines::bit(f.resizeable);
    lines::bit(f.rotational);
    lines::bit(f.send_trim);
    lines::bit(f.send_flush);
}

fn show(s: Client) {
    lines::text(b"client");
    match s.info() {
        Some(d) => show_device(d),
        None => lines::text(b" -"),
    }
    answer::close(false);
}

// ---- calls

fn make(c: Client, k: Made, slice: &[u8]) -> Called {
    match k {
        Made::Handshake => c.handshake(slice),
        Made::End => c.end_of_input(),
        Made::Read => c.read(slice),
        Made::Write => c.write(slice),
        Made::Flush => c.flush(),
        Made::Seek(from) => c.seek(from),
        Made::Trim(n) => c.trim(n),
        Made::Resize(n) => c.resize(n),
    }
}

// The client that a script drives.
#[derive(Clone, Copy)]
pub struct Calling {
    pub client: Client,
}

impl Driven for Calling {
    fn lent(&self) -> Lent {
        Lent::Slice
    }

    fn step(&mut self, input: &[u8], room: &mut [u8], _table: &[u8], lent: &mut [u8]) -> Moved {
        let before = self.client;
        let r = before.step(input, room, lent);
        self.client = r.state;
        Moved {
            answer: outcome(r.outcome, shown(before, r.state)),
            taken: r.taken,
            given: r.given,
        }
    }
}

impl Calling {
    pub fn new() -> Calling
        ensures { result.client ≡ fresh }
    {
        Calling {
            client: Client::new(),
        }
    }

    // A call with the client's slice, and its line.
    fn call(&mut self, k: Made, buffers: &Buffers) {
        let slice = buffers.lent(buffers.sizes.part(Lent::Slice));
        let r = make(self.client, k, slice);
        self.client = r.state;
        answer::line(outcome(r.outcome, 0), 0, b"", false);
    }

    // Does what a record says of the client.
    pub fn obey(&mut self, c: Call, buffers: &mut Buffers) {
        match c {
            Call::Fresh => self.client = Client::new(),
            Call::Step(k) => buffers::drive(self, k, buffers),
            Call::Show => show(self.client),
            Call::Make(k) => self.call(k, buffers),
        }
    }
}
