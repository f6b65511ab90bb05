// An NBD client without sockets: the host lends slices, and hands a state in and gets it back.
#![tactic(auto)]

mod calls;
mod ending;
mod handshake;
mod heads;
mod ranges;
mod refusal;
pub mod state;
mod step;
mod transmission;

ghost use Rattle.std.specs.Prelude.{◌≡◌, List, ℕ, length, replicate};
ghost use Rattle.client.specs.Session.{Blank, Ready};
ghost use Rattle.client.specs.Ranges.{number};
ghost use Rattle.client.specs.Contract.{
  fresh,
  answer,
  refused,
  call_check,
  called,
  opened,
  granted,
  moving,
  begun,
  reading,
  writing,
  trimming,
  flushing,
  resizing,
  seeking,
  shaken_at,
  shaken,
  end_of_input,
  known,
  Drives,
};
ghost use Rattle.client.specs.declared.state.Device.{Device};
ghost use Rattle.client.specs.Answers.{Called};
ghost use Rattle.client.specs.declared.state.Outcome.TheVariants as outcome;
ghost use Rattle.client.specs.declared.state.Call.{Call};

use ending::Ending;
use machine::ends;
use refusal::Refusal;
use state::{Call, Client, Device, Handshake, Outcome, Phase, Progress, SeekFrom, Value};
use step::Stepping;

pub type Called = ends::Answered<Client, Outcome>;

pub type Stepped = ends::Stepped<Client, Outcome>;

// What a read, a write or a trim may move: so many bytes of this device.
#[derive(Clone, Copy)]
pub struct Transfer {
    pub device: Device,
    pub n: u32,
}

// ---- answers of calls

fn refused(s: Client, why: Refusal) -> Called
    ensures { result ≡ refused (number why) s }
{
    Called {
        state: s,
        outcome: Outcome::Refused(why.number()),
    }
}

// A call that succeeds at once.
fn ready(d: Device, value: Value) -> Called
    ensures { result ≡ answer (Ready d) (outcome.Succeeded value) }
{
    Called {
        state: Client::at(Phase::Ready(d)),
        outcome: Outcome::Succeeded(value),
    }
}

// A call that goes out.
fn opened(d: Device, c: Call) -> Called
    ensures { result ≡ opened d c }
{
    Called {
        state: Client::at(Phase::Calling(d, c, Progress::Asking { left: 28 })),
        outcome: Outcome::Open,
    }
}

// A read, a write or a trim, which goes out unless it moves no bytes.
fn begun(d: Device, c: Call) -> Called
    ensures { result ≡ begun d c }
{
    if c.amount() == 0 {
        ready(d, c.value_of())
    } else {
        opened(d, c)
    }
}

impl Client {
    // At a phase, with what is gathered.
    fn from_parts(phase: Phase, head: [u8; 16]) -> Client
        ensures { result ≡ record { phase = phase; head = head } }
    {
        Client { phase, head }
    }

    // At a phase that uses no byte of `head`.
    fn at(phase: Phase) -> Client
        ensures { result ≡ record { phase = phase; head = replicate 16 0 } }
    {
        Client::from_parts(phase, [0u8; 16])
    }

    // A client before its handshake.
    pub fn new() -> Client
        ensures { result ≡ fresh }
    {
        Client::at(Phase::Blank)
    }

    // ---- calls

    // The device, if a call may be made on it.
    fn call_check(self) -> Result<Device, Refusal>
        ensures { result ≡ call_check self }
    {
        if !ranges::in_range(self) {
            return Err(Refusal::OutOfRange);
        }
        match self.phase {
            Phase::Ready(d) => Ok(d),
            _ => Err(Refusal::NotNow),
        }
    }

    // A call on the device, if one may be made.
    fn called<F: FnOnce(Device) -> Called>(self, call: F) -> Called
        requires { F.IsAlwaysCallable call }
        ensures { (f : Device → Called) → ((d : Device) (r : Called) → F.post call d r → r ≡ f d) → result ≡ called self f (call_check self) }
    {
        match self.call_check() {
            Ok(d) => call(d),
            Err(why) => refused(self, why),
        }
    }

    // How many bytes a call may move that is asked to move k.
    fn granted(self, k: u64) -> Result<Transfer, Refusal>
        ensures { result ≡ granted k self }
    {
        let device = self.call_check()?;
        let n = device.transfer(k).ok_or(Refusal::PastSize)?;
        Ok(Transfer { device, n })
    }

    // A call that moves bytes, if it may: `call` makes it of as many as it moves, where it is asked to move k.
    fn moving<F: FnOnce(u32) -> Call>(self, k: u64, call: F) -> Called
        requires { F.IsAlwaysCallable call }
        ensures { (f : ℕ → Call) → ((n : ℕ) (c : Call) → F.post call n c → c ≡ f n) → result ≡ moving self f (granted k self) }
    {
        match self.granted(k) {
            Ok(t) => begun(t.device, call(t.n)),
            Err(why) => refused(self, why),
        }
    }

    // Opens the handshake with a name of n bytes.
    fn shake(self, n: usize) -> Called
        ensures { result ≡ shaken_at n self Blank }
    {
        if n <= 4096 {
            Called {
                state: Client::at(Phase::Shaking(n, Handshake::Magic { have: 0 })),
                outcome: Outcome::Open,
            }
        } else {
            refused(self, Refusal::LongName)
        }
    }

    // Opens the handshake. The name is lent at each step until it is closed.
    pub fn handshake(self, name: &[u8]) -> Called
        ensures { result ≡ shaken (length name.now) self }
    {
        if !ranges::in_range(self) {
            return refused(self, Refusal::OutOfRange);
        }
        match self.phase {
            Phase::Blank => self.shake(name.len()),
            _ => refused(self, Refusal::NotNow),
        }
    }

    // Opens a read into the buffer, which is lent at each step until it is closed.
    pub fn read(self, buffer: &[u8]) -> Called
        ensures { result ≡ reading (length buffer.now) self }
    {
        let len = buffer.len();
        self.moving(len as u64, |n| Call::Read { n, len })
    }

    // Opens a write of the buffer, which is lent at each step until it is closed.
    pub fn write(self, buffer: &[u8]) -> Called
        ensures { result ≡ writing (length buffer.now) self }
    {
        let len = buffer.len();
        self.moving(len as u64, |n| Call::Write { n, len })
    }

    pub fn trim(self, length: u64) -> Called
        ensures { result ≡ trimming length self }
    {
        self.moving(length, |n| Call::Trim { n })
    }

    pub fn flush(self) -> Called
        ensures { result ≡ flushing self }
    {
        self.called(|d| opened(d, Call::Flush))
    }

    pub fn resize(self, size: u64) -> Called
        ensures { result ≡ resizing size self }
    {
        self.called(|d| opened(d, Call::Resize { size }))
    }

    pub fn seek(self, from: SeekFrom) -> Called
        ensures { result ≡ seeking from self }
    {
        self.called(|d| match d.sought(from) {
            Some(p) => ready(d.positioned(p), Value::Position(p)),
            None => refused(self, Refusal::SeekOutside),
        })
    }

    // The host reports the end of input.
    pub fn end_of_input(self) -> Called
        ensures { result ≡ end_of_input self }
    {
        if !ranges::in_range(self) {
            return refused(self, Refusal::OutOfRange);
        }
        match self.phase {
            Phase::Over(n) => Called {
                state: self,
                outcome: Outcome::Ended(n),
            },
            _ => Called {
                state: Client::at(Phase::Over(Ending::InputEnded as u8)),
                outcome: Outcome::Ended(Ending::InputEnded as u8),
            },
        }
    }

    // What a user asks: size, position and the five fields. None before the handshake is closed, and after an end.
    pub fn info(self) -> Option<Device>
        ensures { result ≡ known self }
    {
        if !ranges::in_range(self) {
            return None;
        }
        match self.phase {
            Phase::Ready(d) | Phase::Calling(d, _, _) | Phase::Closed(_, d) => Some(d),
            _ => None,
        }
    }

    // ---- a step

    // Takes input and gives output as far as both go. What is lent is the name or the open call's buffer.
    pub fn step(self, input: &[u8], room: &mut [u8], lent: &mut [u8]) -> Stepped
        ensures { Drives self lent.old input.now room.old
            result lent.new room.new }
    {
        if let Err(why) = ranges::refusal(self, lent.len()) {
            return Stepped {
                state: self,
                taken: 0,
                given: 0,
                outcome: Outcome::Refused(why.number()),
            };
        }
        let r = ends::advance(Stepping { client: self }, input, room, &[], lent);
        let client = r.state.client;
        Stepped {
            state: step::canonical(client),
            taken: r.taken,
            given: r.given,
            outcome: step::outcome_of(client.phase),
        }
    }
}
