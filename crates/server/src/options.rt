// The options: each is taken whole, then judged, then answered; one of them chooses an export.
ghost use Rattle.std.specs.Prelude.{◌≡◌, true, List, ℕ, ◌+◌, ◌<◌, ◌≤◌, length, take};
ghost use Rattle.wire.specs.Layouts.{option_reply_head};
ghost use Rattle.wire.specs.Lookup.{set_of};
ghost use Rattle.server.specs.Session.{
  OptionHead,
  Shaking,
  listing,
  declining,
  aborting,
  exporting,
  answered,
  passing,
  named,
  naming,
  payload,
  judge_option,
  list_replies,
  exported,
};
ghost use Rattle.server.specs.View.{view_of, handshake_of};
ghost use Rattle.server.specs.Inner.{Absorbed};

use crate::ending::Ending;
use crate::state::{Declining, Exporting, Handshake, Naming, Passing, Phase, Server, Transmission};
use crate::{heads, ranges};
use machine::copy;
use machine::ends::Took;
use wire::table::Export;
use wire::utf8::Utf8;
use wire::{consts, fields, lookup, table};

// ---- the phases that follow where nothing may be left. Each is one test: a closure for what follows would say no less.

pub fn listing(zeroes: bool, left: usize) -> Phase
    ensures { (h : List ℕ) → view_of h result ≡ listing zeroes left }
{
    if left == 0 {
        Phase::Shaking(Handshake::OptionHead { zeroes, have: 0 })
    } else {
        Phase::Shaking(Handshake::Listing { zeroes, left })
    }
}

pub fn aborting(left: usize) -> Phase
    ensures { (h : List ℕ) → view_of h result ≡ aborting left }
{
    if left == 0 {
        Phase::Over(Ending::Aborted as u8)
    } else {
        Phase::Shaking(Handshake::Aborting { left })
    }
}

impl Declining {
    pub(crate) fn phase(self) -> Phase
        ensures { (h : List ℕ) → view_of h result ≡ declining self.zeroes self.option self.left }
    {
        if self.left == 0 {
            Phase::Shaking(Handshake::OptionHead {
                zeroes: self.zeroes,
                have: 0,
            })
        } else {
            Phase::Shaking(Handshake::Declining(self))
        }
    }
}

impl Exporting {
    pub(crate) fn phase(self) -> Phase
        ensures { (h : List ℕ) → view_of h result ≡ exporting self.zeroes self.export self.left }
    {
        if self.left == 0 {
            Phase::Serving(self.export, Transmission::Header { have: 0 })
        } else {
            Phase::Shaking(Handshake::Exporting(self))
        }
    }
}

// ---- a payload that is passed over

impl Passing {
    // What the option is answered, once all of its payload has been taken.
    #[tactic(auto, unfolding(crate::specs::Session::answered))]
    fn answered(self) -> Phase
        ensures { (h : List ℕ) → view_of h result ≡ answered self.zeroes self.option self.len }
    {
        match self.option {
            consts::NBD_OPT_ABORT => Phase::Shaking(Handshake::Aborting { left: 20 }),
            consts::NBD_OPT_LIST if self.len == 0 => listing(self.zeroes, 51),
            consts::NBD_OPT_LIST => Phase::Over(Ending::ListPayload as u8),
            consts::NBD_OPT_STARTTLS => Phase::Over(Ending::StartTls as u8),
            consts::NBD_OPT_INFO
            | consts::NBD_OPT_GO
            | consts::NBD_OPT_STRUCTURED_REPLY
            | consts::NBD_OPT_EXTENDED_HEADERS => Phase::Shaking(Handshake::Declining(Declining {
                zeroes: self.zeroes,
                option: self.option,
                left: 20,
            })),
            _ => Phase::Over(Ending::UnknownOption as u8),
        }
    }

    fn phase(self) -> Phase
        ensures { (h : List ℕ) → view_of h result ≡ passing self.zeroes self.option self.len self.left }
    {
        if self.left == 0 {
            self.answered()
        } else {
            Phase::Shaking(Handshake::Passing(self))
        }
    }

    // Takes of `count` bytes as many as are left.
    pub(crate) fn take(self, head: [u8; 28], count: usize) -> Took<Server>
        requires { 0 < self.left }
        ensures { (t m input : List ℕ) → length input ≡ count → Absorbed t (Shaking (handshake_of head (Handshake.Passing self))) m input result m }
    {
        let n = self.left.min(count);
        let left = self.left - n;
        let phase = Passing { left, ..self }.phase();
        Took {
            state: Server { phase, head },
            taken: n,
        }
    }
}

// ---- a name

impl Naming {
    // The export with that name, once all of it has been taken.
    #[tactic(auto, unfolding(crate::specs::Session::named))]
    fn named(self, table: &[u8]) -> Phase
        ensures { (h : List ℕ) → view_of h result ≡ named self.zeroes table.now (set_of self.fits) self.text }
    {
        if !self.text.whole() {
            return Phase::Over(Ending::NameText as u8);
        }
        match lookup::lowest(self.fits) {
            Some(k) => Phase::Shaking(Handshake::Exporting(Exporting {
                zeroes: self.zeroes,
                export: table::export_at(table, k),
                left: ranges::reply_length(self.zeroes),
            })),
            None => Phase::Over(Ending::UnknownName as u8),
        }
    }

    fn phase(self, table: &[u8]) -> Phase
        ensures { (h : List ℕ) → view_of h result ≡ naming self.zeroes table.now (set_of self.fits) self.text self.at self.left }
    {
        if self.left == 0 {
            self.named(table)
        } else {
            Phase::Shaking(Handshake::Naming(self))
        }
    }

    // Takes of the input as many bytes as are left.
    pub(crate) fn take(self, head: [u8; 28], table: &[u8], input: &[u8]) -> Took<Server>
        requires { (0 < self.left) × (self.at + self.left ≤ 100000) }
        ensures { (m : List ℕ) → Absorbed table.now (Shaking (handshake_of head (Handshake.Naming self))) m input.now result m }
    {
        let n = self.left.min(input.len());
        let part = &input[..n];
        let name = Naming {
            zeroes: self.zeroes,
            fits: lookup::narrowed(self.fits, table, self.at, part),
            text: self.text.run(part),
            at: self.at + n,
            left: self.left - n,
        };
        let phase = name.phase(table);
        Took {
            state: Server { phase, head },
            taken: n,
        }
    }
}

// ---- an option's head

// An option's type and length are there.
#[tactic(auto, unfolding(crate::specs::Session::payload))]
fn payload(zeroes: bool, table: &[u8], option: u32, len: usize) -> Phase
    ensures { (h : List ℕ) → view_of h result ≡ payload zeroes table.now option len }
{
    if 100000 < len {
        return Phase::Over(Ending::OptionLength as u8);
    }
    if option == consts::NBD_OPT_EXPORT_NAME {
        let name = Naming {
            zeroes,
            fits: lookup::started(table, len),
            text: Utf8::new(),
            at: 0,
            left: len,
        };
        name.phase(table)
    } else {
        let other = Passing {
            zeroes,
            option,
            len,
            left: len,
        };
        other.phase()
    }
}

// An option's first k bytes are there.
fn judge_option(zeroes: bool, table: &[u8], head: [u8; 28], k: usize) -> Phase
    requires { k ≤ 16 }
    ensures { view_of head result ≡ judge_option zeroes table.now (take k head) }
{
    if k == 8 {
        if fields::same_bytes(&head, 0, &consts::IHAVEOPT) {
            return Phase::Shaking(Handshake::OptionHead { zeroes, have: 8 });
        }
        return Phase::Over(Ending::OptionMagic as u8);
    }
    if k < 16 {
        return Phase::Shaking(Handshake::OptionHead { zeroes, have: k });
    }
    let option = fields::read::<u32>(&head, 8);
    let len = fields::read::<u32>(&head, 12) as usize;
    payload(zeroes, table, option, len)
}

// ---- what is sent: each reply in front of zeros, in as many bytes as the longest has

// An option reply's fields before its data, which has len bytes.
#[tactic(auto, unfolding(wire::specs::Fields::be, wire::specs::Layouts::option_reply_head))]
pub fn option_reply(option: u32, typ: u32, len: u32) -> [u8; 134]
    ensures { take 20 result ≡ option_reply_head option typ len }
{
    let mut bytes = [0u8; 134];
    fields::write(&mut bytes, 0, consts::NBD_OPT_REPLY_MAGIC);
    fields::write(&mut bytes, 8, option);
    fields::write(&mut bytes, 12, typ);
    fields::write(&mut bytes, 16, len);
    bytes
}

// The server's name between two heads, each a part of a longer array: so parts are copied by their places.
pub fn list_replies() -> [u8; 134]
    ensures { take 51 result ≡ list_replies }
{
    let server = option_reply(consts::NBD_OPT_LIST, consts::NBD_REP_SERVER, 11);
    let ack = option_reply(consts::NBD_OPT_LIST, consts::NBD_REP_ACK, 0);
    let mut bytes = [0u8; 134];
    copy::copy_part(&server, 0, &mut bytes, 0, 20);
    fields::write(&mut bytes, 20, 7u32);
    copy::copy_part(&consts::RUSTNBD, 0, &mut bytes, 24, 7);
    copy::copy_part(&ack, 0, &mut bytes, 31, 20);
    bytes
}

// The reply to EXPORT_NAME, with its 124 zeros.
#[tactic(auto, unfolding(wire::specs::Fields::be, wire::specs::Layouts::export_reply))]
pub fn export_reply(export: Export) -> [u8; 134]
    ensures { result ≡ exported true export }
{
    let mut bytes = [0u8; 134];
    fields::write(&mut bytes, 0, export.size);
    fields::write(&mut bytes, 8, table::wire_flags(export.flags));
    bytes
}

// ---- one leaf for the phase that takes a head

pub fn take_option(
    head: [u8; 28],
    zeroes: bool,
    have: usize,
    table: &[u8],
    input: &[u8],
) -> Took<Server>
    requires { (have < 16) × (0 < length input.now) }
    ensures { (m : List ℕ) → Absorbed table.now (Shaking (OptionHead zeroes (take have head))) m input.now result m }
{
    heads::take(
        head,
        have,
        8,
        16,
        input,
        |bytes, k|
            requires { k ≤ 16 }
            ensures { view_of bytes result ≡ judge_option zeroes table.entry.now (take k bytes) }
        { judge_option(zeroes, table, bytes, k) },
    )
}
