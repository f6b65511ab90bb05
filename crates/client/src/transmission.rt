// The transmission: an open call's request, payload, reply and data.
ghost use Rattle.std.specs.Prelude.{◌≡◌, true, List, ℕ, ◌<◌, ◌≤◌, length, take};
ghost use Rattle.client.specs.Calls.{payload, wanted};
ghost use Rattle.client.specs.Session.{
  Asking,
  Paying,
  Hearing,
  Filling,
  Calling,
  done,
  filling,
  paying,
  after_request,
  replied,
  heard,
};
ghost use Rattle.client.specs.View.{view_of, progress_of};
ghost use Rattle.client.specs.Ranges.{lent_to, ranged_call};
ghost use Rattle.client.specs.Inner.{Some, GoodProgress, Absorbed, Emitted};

use crate::ending::Ending;
use crate::heads;
use crate::state::{Call, Client, Device, Outcome, Phase, Progress};
use machine::ends::{Gave, Took};
use machine::{copy, parts};
use wire::{consts, fields};

// An open call on its device, which has the bytes that it moves, and what is gathered in `head`.
#[derive(Clone, Copy)]
pub struct Exchange {
    pub head: [u8; 16],
    pub device: Device,
    pub call: Call,
    ghost within: { ranged_call device call ≡ true },
}

impl Exchange {
    // ---- the phases that follow where nothing may be left. Each is one test: a closure for what follows would say no less.

    fn calling(self, progress: Progress) -> Phase
        ensures { (h : List ℕ) → view_of h result ≡ Calling self.device self.call (progress_of h progress) }
    {
        Phase::Calling(self.device, self.call, progress)
    }

    fn done(self) -> Phase
        ensures { (h : List ℕ) → view_of h result ≡ done self.device self.call }
    {
        let value = self.call.value_of();
        Phase::Closed(Outcome::Succeeded(value), self.device.moved(self.call))
    }

    fn filling(self, left: usize) -> Phase
        ensures { (h : List ℕ) → view_of h result ≡ filling self.device self.call left }
    {
        if left == 0 {
            self.done()
        } else {
            self.calling(Progress::Filling { left })
        }
    }

    fn paying(self, left: usize) -> Phase
        ensures { (h : List ℕ) → view_of h result ≡ paying self.device self.call left }
    {
        if left == 0 {
            self.calling(Progress::Hearing { have: 0 })
        } else {
            self.calling(Progress::Paying { left })
        }
    }

    fn after_request(self, left: usize) -> Phase
        ensures { (h : List ℕ) → view_of h result ≡ after_request self.device self.call left }
    {
        if left == 0 {
            self.paying(self.call.payload() as usize)
        } else {
            self.calling(Progress::Asking { left })
        }
    }

    // ---- what is judged

    // A reply's 16 bytes are there.
    #[tactic(auto, unfolding(crate::specs::Session::replied))]
    fn replied(self, bytes: [u8; 16]) -> Phase
        ensures { (h : List ℕ) → view_of h result ≡ replied self.device self.call bytes }
    {
        let signature = fields::read::<u32>(&bytes, 0);
        let error = fields::read::<u32>(&bytes, 4);
        let handle = fields::read::<u64>(&bytes, 8);
        if signature != consts::NBD_REPLY_MAGIC {
            return Phase::Over(Ending::Signature as u8);
        }
        if handle != 0 {
            return Phase::Over(Ending::Handle as u8);
        }
        if error == 0 {
            self.filling(self.call.wanted() as usize)
        } else {
            Phase::Closed(Outcome::Failed(error), self.device)
        }
    }

    // The first k bytes of a reply are there.
    fn heard(self, bytes: [u8; 16], k: usize) -> Phase
        requires { k ≤ 16 }
        ensures { view_of bytes result ≡ heard self.device self.call (take k bytes) }
    {
        if k < 16 {
            self.calling(Progress::Hearing { have: k })
        } else {
            self.replied(bytes)
        }
    }

    // ---- one leaf for each phase

    fn send_request(self, left: usize, room: &mut [u8]) -> Gave<Client>
        requires { Some 28 left }
        ensures { (m : List ℕ) → Emitted (Calling self.device self.call (Asking left)) m room.old result room.new }
    {
        let bytes = self.call.request_bytes(self.device);
        let n = parts::give(&bytes, left, room);
        Gave {
            state: Client::from_parts(self.after_request(left - n), self.head),
            given: n,
        }
    }

    // The payload is the first bytes of what is lent.
    fn pay(self, left: usize, lent: &[u8], room: &mut [u8]) -> Gave<Client>
        requires { (payload self.call ≤ length lent.now) × Some (payload self.call) left }
        ensures { Emitted (Calling self.device self.call (Paying left)) lent.now room.old result room.new }
    {
        let all = self.call.payload() as usize;
        let n = parts::give(&lent[..all], left, room);
        Gave {
            state: Client::from_parts(self.paying(left - n), self.head),
            given: n,
        }
    }

    fn hear(self, have: usize, input: &[u8]) -> Took<Client>
        requires { have < 16 }
        ensures { (m : List ℕ) → Absorbed (Calling self.device self.call (Hearing (take have self.head))) m input.now result m }
    {
        heads::take(
            self.head,
            have,
            16,
            input,
            |bytes, k|
                requires { k ≤ 16 }
                ensures { view_of bytes result ≡ heard self.device self.call (take k bytes) }
            { self.heard(bytes, k) },
        )
    }

    // A read's data into what is lent.
    fn fill(self, left: usize, input: &[u8], lent: &mut [u8]) -> Took<Client>
        requires { (wanted self.call ≤ length lent.old) × Some (wanted self.call) left }
        ensures { Absorbed (Calling self.device self.call (Filling left)) lent.old input.now result lent.new }
    {
        let all = self.call.wanted() as usize;
        let n = left.min(input.len());
        copy::copy_part(input, 0, lent, all - left, n);
        Took {
            state: Client::from_parts(self.filling(left - n), self.head),
            taken: n,
        }
    }

    // ---- the phases put together

    // Takes what the phase takes of the input.
    pub fn absorb(self, p: Progress, input: &[u8], lent: &mut [u8]) -> Took<Client>
        requires { (lent_to self.call ≡ length lent.old) × GoodProgress self.call (progress_of self.head p) }
        ensures { Absorbed (Calling self.device self.call (progress_of self.head p)) lent.old input.now result lent.new }
    {
        match p {
            Progress::Hearing { have } => self.hear(have, input),
            Progress::Filling { left } => self.fill(left, input, lent),
            _ => Took::none(Client::from_parts(self.calling(p), self.head)),
        }
    }

    // Gives what the phase owes into the room.
    pub fn emit(self, p: Progress, lent: &[u8], room: &mut [u8]) -> Gave<Client>
        requires { (lent_to self.call ≡ length lent.now) × GoodProgress self.call (progress_of self.head p) }
        ensures { Emitted (Calling self.device self.call (progress_of self.head p)) lent.now room.old result room.new }
    {
        match p {
            Progress::Asking { left } => self.send_request(left, room),
            Progress::Paying { left } => self.pay(left, lent, room),
            _ => Gave::none(Client::from_parts(self.calling(p), self.head)),
        }
    }
}
