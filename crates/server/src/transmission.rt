// The transmission: requests, one after the other, on the window of the export that was chosen.
ghost use Rattle.std.specs.Prelude.{◌≡◌, true, List, ℕ, ◌+◌, ◌-◌, ◌<◌, ◌≤◌, length, take};
ghost use Rattle.wire.specs.Layouts.{simple_reply};
ghost use Rattle.server.specs.Session.{
  Header,
  Serving,
  sending,
  replying,
  storing,
  dropping,
  begun,
  requested,
};
ghost use Rattle.server.specs.View.{view, view_of, transmission_of};
ghost use Rattle.server.specs.Ranges.{ranged_serving};
ghost use Rattle.server.specs.Contract.{owes_output};
ghost use Rattle.server.specs.Inner.{Stored, Sent, Absorbed, Emitted};

use crate::ending::Ending;
use crate::heads;
use crate::request::{Answer, Request};
use crate::state::{Dropping, Phase, Replying, Sending, Server, Storing, Transmission};
use machine::ends::{Gave, Took};
use machine::parts;
use wire::table::Export;
use wire::{consts, fields};

// ---- what is sent

#[tactic(auto, unfolding(wire::specs::Fields::be, wire::specs::Layouts::simple_reply))]
fn simple_reply(error: u32, handle: u64) -> [u8; 16]
    ensures { result ≡ simple_reply error handle }
{
    let mut bytes = [0u8; 16];
    fields::write(&mut bytes, 0, consts::NBD_REPLY_MAGIC);
    fields::write(&mut bytes, 4, error);
    fields::write(&mut bytes, 8, handle);
    bytes
}

impl Replying {
    // A reply with no data.
    fn new(error: u32, handle: u64) -> Replying
        ensures { result ≡ record { error = error; handle = handle; left = 16; off = 0; len = 0 } }
    {
        Replying {
            error,
            handle,
            left: 16,
            off: 0,
            len: 0,
        }
    }

    fn phase(self) -> Transmission
        ensures { result ≡ Transmission.Replying self.error self.handle self.left self.off self.len }
    {
        Transmission::Replying {
            error: self.error,
            handle: self.handle,
            left: self.left,
            off: self.off,
            len: self.len,
        }
    }
}

// A session that serves an export, and what is gathered in `head`.
#[derive(Clone, Copy)]
pub struct Service {
    pub head: [u8; 28],
    pub export: Export,
}

impl Service {
    fn at(self, phase: Phase) -> Server
        ensures { result ≡ record { phase = phase; head = self.head } }
    {
        let head = self.head;
        Server { phase, head }
    }

    // ---- the phases that follow where nothing may be left. Each is one test: a closure for what follows would say no less.

    fn sending(self, part: Sending) -> Phase
        ensures { (h : List ℕ) → view_of h result ≡ sending self.export part.off part.left }
    {
        if part.left == 0 {
            Phase::Serving(self.export, Transmission::Header { have: 0 })
        } else {
            Phase::Serving(self.export, Transmission::Sending(part))
        }
    }

    fn replying(self, reply: Replying) -> Phase
        ensures { (h : List ℕ) → view_of h result ≡ replying self.export reply.error reply.handle reply.left reply.off reply.len }
    {
        if reply.left == 0 {
            self.sending(Sending {
                off: reply.off,
                left: reply.len,
            })
        } else {
            Phase::Serving(self.export, reply.phase())
        }
    }

    fn storing(self, payload: Storing) -> Phase
        ensures { (h : List ℕ) → view_of h result ≡ storing self.export payload.handle payload.off payload.left }
    {
        if payload.left == 0 {
            self.replying(Replying::new(0, payload.handle))
        } else {
            Phase::Serving(self.export, Transmission::Storing(payload))
        }
    }

    fn dropping(self, payload: Dropping) -> Phase
        ensures { (h : List ℕ) → view_of h result ≡ dropping self.export payload.error payload.handle payload.left }
    {
        if payload.left == 0 {
            self.replying(Replying::new(payload.error, payload.handle))
        } else {
            Phase::Serving(self.export, Transmission::Dropping(payload))
        }
    }

    // ---- what is judged

    // What a request that is owed o sets off.
    fn begun(self, r: Request, o: Answer) -> Phase
        ensures { (h : List ℕ) → view_of h result ≡ begun self.export r o }
    {
        let handle = r.handle;
        let off = r.offset as usize;
        let len = r.len as usize;
        match o {
            Answer::Silence => self.sending(Sending { off: 0, left: 0 }),
            Answer::Reply(error) => self.replying(Replying::new(error, handle)),
            Answer::Data => self.replying(Replying {
                off,
                len,
                ..Replying::new(0, handle)
            }),
            Answer::Store => self.storing(Storing {
                handle,
                off,
                left: len,
            }),
            Answer::Swallow(error) => self.dropping(Dropping {
                error,
                handle,
                left: len,
            }),
            Answer::End(why) => Phase::Over(why as u8),
        }
    }

    // A request's first k bytes are there.
    fn requested(self, bytes: [u8; 28], k: usize) -> Phase
        requires { k ≤ 28 }
        ensures { view_of bytes result ≡ requested self.export (take k bytes) }
    {
        if k == 4 {
            if fields::read::<u32>(&bytes, 0) == consts::NBD_REQUEST_MAGIC {
                return Phase::Serving(self.export, Transmission::Header { have: 4 });
            }
            return Phase::Over(Ending::RequestMagic as u8);
        }
        if k < 28 {
            return Phase::Serving(self.export, Transmission::Header { have: k });
        }
        let r = Request::from(&bytes);
        self.begun(r, r.owed(self.export))
    }

    // ---- one leaf for each phase

    fn take_header(self, have: usize, input: &[u8]) -> Took<Server>
        requires { (have < 28) × (0 < length input.now) }
        ensures { (t m : List ℕ) → Absorbed t (Serving self.export (Header (take have self.head))) m input.now result m }
    {
        heads::take(
            self.head,
            have,
            4,
            28,
            input,
            |bytes, k|
                requires { k ≤ 28 }
                ensures { view_of bytes result ≡ requested self.export (take k bytes) }
            { self.requested(bytes, k) },
        )
    }

    // Payload into the window.
    fn store(self, payload: Storing, input: &[u8], window: &mut [u8]) -> Took<Server>
        requires { (0 < payload.left) × (payload.off + payload.left ≤ length window.old) }
        ensures { Stored self.export payload.handle payload.off payload.left input.now window.old result.taken (view result.state) window.new }
    {
        let n = payload.left.min(input.len());
        let off = payload.off + n;
        window[payload.off..off].copy_from_slice(&input[..n]);
        let left = payload.left - n;
        let phase = self.storing(Storing {
            off,
            left,
            ..payload
        });
        Took {
            state: self.at(phase),
            taken: n,
        }
    }

    // Of a payload that is refused as many of `count` bytes as are left.
    fn discard(self, payload: Dropping, count: usize) -> Took<Server>
        requires { 0 < payload.left }
        ensures { (t m input : List ℕ) → length input ≡ count
            → Absorbed t (Serving self.export (transmission_of self.head (Transmission.Dropping payload))) m input result m }
    {
        let n = payload.left.min(count);
        let left = payload.left - n;
        Took {
            state: self.at(self.dropping(Dropping { left, ..payload })),
            taken: n,
        }
    }

    fn reply(self, reply: Replying, room: &mut [u8]) -> Gave<Server>
        requires { (0 < reply.left) × (reply.left ≤ 16) }
        ensures { (t m : List ℕ)
            → Emitted t (Serving self.export (transmission_of self.head (Transmission.Replying reply.error reply.handle reply.left reply.off reply.len)))
            m room.old result room.new }
    {
        let bytes = simple_reply(reply.error, reply.handle);
        let n = parts::give(&bytes, reply.left, room);
        let left = reply.left - n;
        Gave {
            state: self.at(self.replying(Replying { left, ..reply })),
            given: n,
        }
    }

    // Bytes of the window.
    fn send(self, part: Sending, window: &[u8], room: &mut [u8]) -> Gave<Server>
        requires { (0 < part.left) × (part.off + part.left ≤ length window.now) }
        ensures { Sent self.export part.off part.left window.now room.old result.given (view result.state) room.new }
    {
        let n = part.left.min(room.len());
        let off = part.off + n;
        room[..n].copy_from_slice(&window[part.off..off]);
        let left = part.left - n;
        Gave {
            state: self.at(self.sending(Sending { off, left })),
            given: n,
        }
    }

    // ---- the phases put together

    // Takes what the phase takes of the input.
    pub fn absorb(self, p: Transmission, input: &[u8], image: &mut [u8]) -> Took<Server>
        requires { (0 < length input.now) × (ranged_serving self.export (transmission_of self.head p) ≡ true)
            × (self.export.start + self.export.size ≤ length image.old) }
        ensures { (t : List ℕ) → Absorbed t (Serving self.export (transmission_of self.head p)) image.old input.now result image.new }
    {
        match p {
            Transmission::Header { have } => self.take_header(have, input),
            Transmission::Storing(payload) => {
                let a = self.export.start as usize;
                let b = a + self.export.size as usize;
                self.store(payload, input, &mut image[a..b])
            }
            Transmission::Dropping(payload) => self.discard(payload, input.len()),
            _ => Took::none(self.at(Phase::Serving(self.export, p))),
        }
    }

    // Gives what the phase owes into the room.
    pub fn emit(self, p: Transmission, room: &mut [u8], image: &[u8]) -> Gave<Server>
        requires { (ranged_serving self.export (transmission_of self.head p) ≡ true) × (self.export.start + self.export.size ≤ length image.now) }
        ensures { (t : List ℕ) → Emitted t (Serving self.export (transmission_of self.head p)) image.now room.old result room.new }
    {
        match p {
            Transmission::Replying {
                error,
                handle,
                left,
                off,
                len,
            } => self.reply(
                Replying {
                    error,
                    handle,
                    left,
                    off,
                    len,
                },
                room,
            ),
            Transmission::Sending(part) => {
                let a = self.export.start as usize;
                let b = a + self.export.size as usize;
                self.send(part, &image[a..b], room)
            }
            _ => Gave::none(self.at(Phase::Serving(self.export, p))),
        }
    }
}

// Whether output is owed.
pub fn owes(p: Transmission) -> bool
    ensures { (h : List ℕ) (e : Export) → result ≡ owes_output (Serving e (transmission_of h p)) }
{
    matches!(p, Transmission::Replying { .. } | Transmission::Sending(_))
}
