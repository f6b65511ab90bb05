// The handshake: the greeting, the client's flags, and the options (options.rt) until one of them chooses an export.
ghost use Rattle.std.specs.Prelude.{◌≡◌, true, List, [], ℕ, ◌<◌, ◌≤◌, length, take};
ghost use Rattle.wire.specs.Layouts.{greeting};
ghost use Rattle.server.specs.Session.{ClientFlags, Shaking, greeted, judge_flags};
ghost use Rattle.server.specs.View.{view_of, handshake_of};
ghost use Rattle.server.specs.Ranges.{ranged_shaking};
ghost use Rattle.server.specs.Contract.{owes_output};
ghost use Rattle.server.specs.Inner.{reply_of, left_of, with_left, Owes, Absorbed, Emitted};

use crate::ending::Ending;
use crate::state::{Declining, Exporting, Handshake, Phase, Server};
use crate::{heads, options, ranges};
use machine::ends::{Gave, Took};
use machine::parts;
use wire::{consts, fields};

// ---- the phases that follow where nothing may be left. Each is one test: a closure for what follows would say no less.

fn greeted(left: usize) -> Phase
    ensures { (h : List ℕ) → view_of h result ≡ greeted left }
{
    if left == 0 {
        Phase::Shaking(Handshake::ClientFlags { have: 0 })
    } else {
        Phase::Shaking(Handshake::Greeting { left })
    }
}

// ---- what is judged

// The client's flags, of which k bytes are there.
fn judge_flags(head: [u8; 28], k: usize) -> Phase
    requires { k ≤ 4 }
    ensures { view_of head result ≡ judge_flags (take k head) }
{
    if k < 4 {
        return Phase::Shaking(Handshake::ClientFlags { have: k });
    }
    let flags = fields::read::<u32>(&head, 0);
    if flags == consts::NBD_FLAG_C_FIXED_NEWSTYLE {
        Phase::Shaking(Handshake::OptionHead {
            zeroes: true,
            have: 0,
        })
    } else if flags == consts::NBD_FLAG_C_FIXED_NEWSTYLE + consts::NBD_FLAG_C_NO_ZEROES {
        Phase::Shaking(Handshake::OptionHead {
            zeroes: false,
            have: 0,
        })
    } else {
        Phase::Over(Ending::ClientFlags as u8)
    }
}

// ---- what is sent

#[tactic(auto, unfolding(wire::specs::Fields::be, wire::specs::Layouts::greeting))]
fn greeting() -> [u8; 134]
    ensures { take 18 result ≡ greeting }
{
    let mut bytes = [0u8; 134];
    bytes[..8].copy_from_slice(&consts::NBDMAGIC);
    bytes[8..16].copy_from_slice(&consts::IHAVEOPT);
    fields::write(
        &mut bytes,
        16,
        consts::NBD_FLAG_FIXED_NEWSTYLE + consts::NBD_FLAG_NO_ZEROES,
    );
    bytes
}

// ---- one leaf for the phase that takes

fn take_flags(head: [u8; 28], have: usize, input: &[u8]) -> Took<Server>
    requires { (have < 4) × (0 < length input.now) }
    ensures { (t m : List ℕ) → Absorbed t (Shaking (ClientFlags (take have head))) m input.now result m }
{
    heads::take(head, have, 4, 4, input, judge_flags)
}

// ---- what each phase owes, and where it goes

// A reply: the first `len` of these bytes, and its last `left` bytes are owed. There is no heap: the array has room for the longest reply.
#[derive(Clone, Copy)]
pub struct Reply {
    pub bytes: [u8; 134],
    pub len: usize,
    pub left: usize,
}

fn owed(p: Handshake) -> Reply
    ensures { (h : List ℕ) → Owes (reply_of (handshake_of h p)) (left_of (handshake_of h p)) result.bytes result.len result.left }
{
    match p {
        Handshake::Greeting { left } => Reply {
            bytes: greeting(),
            len: 18,
            left,
        },
        Handshake::Listing { left, .. } => Reply {
            bytes: options::list_replies(),
            len: 51,
            left,
        },
        Handshake::Declining(d) => Reply {
            bytes: options::option_reply(d.option, consts::NBD_REP_ERR_UNSUP, 0),
            len: 20,
            left: d.left,
        },
        Handshake::Aborting { left } => Reply {
            bytes: options::option_reply(consts::NBD_OPT_ABORT, consts::NBD_REP_ACK, 0),
            len: 20,
            left,
        },
        Handshake::Exporting(x) => Reply {
            bytes: options::export_reply(x.export),
            len: ranges::reply_length(x.zeroes),
            left: x.left,
        },
        _ => Reply {
            bytes: [0u8; 134],
            len: 0,
            left: 0,
        },
    }
}

// The phase with so many bytes left to give.
fn with_left(p: Handshake, left: usize) -> Phase
    ensures { (h : List ℕ) → view_of h result ≡ with_left (handshake_of h p) left }
{
    match p {
        Handshake::Greeting { .. } => greeted(left),
        Handshake::Listing { zeroes, .. } => options::listing(zeroes, left),
        Handshake::Declining(d) => Declining { left, ..d }.phase(),
        Handshake::Aborting { .. } => options::aborting(left),
        Handshake::Exporting(x) => Exporting { left, ..x }.phase(),
        _ => Phase::Shaking(p),
    }
}

// Whether output is owed.
pub fn owes(p: Handshake) -> bool
    ensures { (h : List ℕ) → result ≡ owes_output (Shaking (handshake_of h p)) }
{
    matches!(
        p,
        Handshake::Greeting { .. }
            | Handshake::Listing { .. }
            | Handshake::Declining(_)
            | Handshake::Aborting { .. }
            | Handshake::Exporting(_)
    )
}

// ---- the phases put together

// Takes what the phase takes of the input.
pub fn absorb(head: [u8; 28], p: Handshake, table: &[u8], input: &[u8]) -> Took<Server>
    requires { (0 < length input.now) × (ranged_shaking (handshake_of head p) ≡ true) }
    ensures { (m : List ℕ) → Absorbed table.now (Shaking (handshake_of head p)) m input.now result m }
{
    match p {
        Handshake::ClientFlags { have } => take_flags(head, have, input),
        Handshake::OptionHead { zeroes, have } => options::take_option(
            head, zeroes, have, table, input,
        ),
        Handshake::Naming(name) => name.take(head, table, input),
        Handshake::Passing(payload) => payload.take(head, input.len()),
        _ => Took::none(Server {
            phase: Phase::Shaking(p),
            head,
        }),
    }
}

// Gives what the phase owes into the room.
pub fn emit(head: [u8; 28], p: Handshake, room: &mut [u8]) -> Gave<Server>
    requires { ranged_shaking (handshake_of head p) ≡ true }
    ensures { (t m : List ℕ) → Emitted t (Shaking (handshake_of head p)) m room.old result room.new }
{
    let owed = owed(p);
    let n = parts::give(&owed.bytes[..owed.len], owed.left, room);
    let phase = with_left(p, owed.left - n);
    Gave {
        state: Server { phase, head },
        given: n,
    }
}
