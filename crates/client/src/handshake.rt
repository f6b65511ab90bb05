// The handshake: both styles, up to the 152nd byte.
ghost use Rattle.std.specs.Prelude.{◌≡◌, List, ℕ, ◌<◌, ◌≤◌, length, take};
ghost use Rattle.client.specs.Calls.{has, fields_of};
ghost use Rattle.client.specs.Session.{
  Magic,
  Style,
  Newstyle,
  Hello,
  Naming,
  SizeAndFlags,
  Shaking,
  hello,
  judge_magic,
  oldstyle,
  judge_style,
  naming,
  greeting,
  newstyle,
  size_and_flags_length,
  flags_of,
  judge_size_and_flags,
  judged,
  filler,
};
ghost use Rattle.client.specs.View.{view_of, filler_of, handshake_of};
ghost use Rattle.client.specs.Inner.{Some, GoodShaking, Absorbed, Emitted};

use crate::ending::Ending;
use crate::heads;
use crate::state::{Client, Device, Fields, Filler, Handshake, Outcome, Phase, Value};
use machine::ends::{Gave, Took};
use machine::parts;
use wire::{consts, fields};

// ---- the flags

// Whether the flags have this bit and the one that says that they count.
fn has(flags: u16, bit: u16) -> bool
    requires { 0 < bit }
    ensures { result ≡ has flags bit }
{
    flags % 2 == 1 && flags / bit % 2 == 1
}

// No `From`: that a u16 is an export's flags is for its caller to know.
fn fields_of(flags: u16) -> Fields
    ensures { result ≡ fields_of flags }
{
    Fields {
        readonly: has(flags, consts::NBD_FLAG_READ_ONLY),
        resizeable: has(flags, consts::NBD_FLAG_SEND_RESIZE),
        rotational: has(flags, consts::NBD_FLAG_ROTATIONAL),
        send_trim: has(flags, consts::NBD_FLAG_SEND_TRIM),
        send_flush: has(flags, consts::NBD_FLAG_SEND_FLUSH),
    }
}

// ---- the phases that follow where nothing may be left. Each is one test: a closure for what follows would say no less.

fn naming(name: usize, left: usize) -> Phase
    ensures { (h : List ℕ) → view_of h result ≡ naming name left }
{
    if left == 0 {
        Phase::Shaking(
            name,
            Handshake::SizeAndFlags {
                old: false,
                have: 0,
            },
        )
    } else {
        Phase::Shaking(name, Handshake::Naming { left })
    }
}

fn greeting(name: usize, left: usize) -> Phase
    ensures { (h : List ℕ) → view_of h result ≡ greeting name left }
{
    if left == 0 {
        naming(name, name)
    } else {
        Phase::Shaking(name, Handshake::Hello { left })
    }
}

fn newstyle(name: usize, left: usize) -> Phase
    ensures { (h : List ℕ) → view_of h result ≡ newstyle name left }
{
    if left == 0 {
        Phase::Shaking(name, Handshake::Hello { left: 20 })
    } else {
        Phase::Shaking(name, Handshake::Newstyle { left })
    }
}

// All 124 bytes are there.
fn judged(size: u64, flags: u16, clean: bool) -> Phase
    ensures { (h : List ℕ) → view_of h result ≡ judged size flags clean }
{
    if clean {
        let fields = fields_of(flags);
        let device = Device {
            size,
            position: 0,
            fields,
        };
        Phase::Closed(Outcome::Succeeded(Value::Opened(size, fields)), device)
    } else {
        Phase::Over(Ending::Filler as u8)
    }
}

fn filler(name: usize, f: Filler) -> Phase
    ensures { (h : List ℕ) → view_of h result ≡ filler name f.size f.flags f.clean f.left }
{
    if f.left == 0 {
        judged(f.size, f.flags, f.clean)
    } else {
        Phase::Shaking(name, Handshake::Filler(f))
    }
}

// ---- what is judged

// The first k bytes of the first magic are there.
fn judge_magic(name: usize, head: [u8; 16], k: usize) -> Phase
    requires { k ≤ 8 }
    ensures { view_of head result ≡ judge_magic name (take k head) }
{
    if k < 8 {
        return Phase::Shaking(name, Handshake::Magic { have: k });
    }
    if fields::same_bytes(&head, 0, &consts::NBDMAGIC) {
        Phase::Shaking(name, Handshake::Style { have: 0 })
    } else {
        Phase::Over(Ending::NoServer as u8)
    }
}

fn oldstyle(name: usize) -> Phase
    ensures { (h : List ℕ) → view_of h result ≡ oldstyle name }
{
    if name == 0 {
        Phase::Shaking(name, Handshake::SizeAndFlags { old: true, have: 0 })
    } else {
        Phase::Over(Ending::OldStyleName as u8)
    }
}

// The first k bytes of the second magic are there.
fn judge_style(name: usize, head: [u8; 16], k: usize) -> Phase
    requires { k ≤ 8 }
    ensures { view_of head result ≡ judge_style name (take k head) }
{
    if k < 8 {
        return Phase::Shaking(name, Handshake::Style { have: k });
    }
    if fields::same_bytes(&head, 0, &consts::IHAVEOPT) {
        return Phase::Shaking(name, Handshake::Newstyle { left: 2 });
    }
    if fields::same_bytes(&head, 0, &consts::OLDSTYLE) {
        oldstyle(name)
    } else {
        Phase::Over(Ending::UnknownStyle as u8)
    }
}

// How long the size and the flags are.
pub fn size_and_flags_length(old: bool) -> usize
    ensures { result ≡ size_and_flags_length old }
{
    if old { 12 } else { 10 }
}

fn flags_of(old: bool, head: [u8; 16]) -> u16
    ensures { result ≡ flags_of old head }
{
    if old {
        (fields::read::<u32>(&head, 8) % 65536) as u16
    } else {
        fields::read::<u16>(&head, 8)
    }
}

// The first k bytes of the size and the flags are there.
fn judge_size_and_flags(name: usize, old: bool, head: [u8; 16], k: usize) -> Phase
    requires { k ≤ size_and_flags_length old }
    ensures { view_of head result ≡ judge_size_and_flags name old (take k head) }
{
    if k < size_and_flags_length(old) {
        return Phase::Shaking(name, Handshake::SizeAndFlags { old, have: k });
    }
    Phase::Shaking(
        name,
        Handshake::Filler(Filler {
            size: fields::read(&head, 0),
            flags: flags_of(old, head),
            clean: true,
            left: 124,
        }),
    )
}

// ---- what is sent

// What stands before a name of n bytes.
#[tactic(auto, unfolding(crate::specs::Session::hello, wire::specs::Fields::be))]
fn hello(n: u32) -> [u8; 20]
    ensures { result ≡ hello n }
{
    let mut bytes = [0u8; 20];
    fields::write(&mut bytes, 0, consts::NBD_FLAG_C_FIXED_NEWSTYLE);
    bytes[4..12].copy_from_slice(&consts::IHAVEOPT);
    fields::write(&mut bytes, 12, consts::NBD_OPT_EXPORT_NAME);
    fields::write(&mut bytes, 16, n);
    bytes
}

// A handshake under way: the bytes gathered in `head`, and how long the name is.
#[derive(Clone, Copy)]
pub struct Shake {
    pub head: [u8; 16],
    pub name: usize,
}

impl Shake {
    // ---- one leaf for each phase

    fn take_magic(self, have: usize, input: &[u8]) -> Took<Client>
        requires { have < 8 }
        ensures { (m : List ℕ) → Absorbed (Shaking self.name (Magic (take have self.head))) m input.now result m }
    {
        heads::take(
            self.head,
            have,
            8,
            input,
            |bytes, k|
                requires { k ≤ 8 }
                ensures { view_of bytes result ≡ judge_magic self.name (take k bytes) }
            { judge_magic(self.name, bytes, k) },
        )
    }

    fn take_style(self, have: usize, input: &[u8]) -> Took<Client>
        requires { have < 8 }
        ensures { (m : List ℕ) → Absorbed (Shaking self.name (Style (take have self.head))) m input.now result m }
    {
        heads::take(
            self.head,
            have,
            8,
            input,
            |bytes, k|
                requires { k ≤ 8 }
                ensures { view_of bytes result ≡ judge_style self.name (take k bytes) }
            { judge_style(self.name, bytes, k) },
        )
    }

    // A new-style server's flags, of `count` bytes of input.
    fn skip_flags(self, left: usize, count: usize) -> Took<Client>
        requires { 0 < left }
        ensures { (m input : List ℕ) → length input ≡ count → Absorbed (Shaking self.name (Newstyle left)) m input result m }
    {
        let n = left.min(count);
        Took {
            state: Client::from_parts(newstyle(self.name, left - n), self.head),
            taken: n,
        }
    }

    fn send_hello(self, left: usize, room: &mut [u8]) -> Gave<Client>
        requires { (self.name ≤ 4096) × Some 20 left }
        ensures { (m : List ℕ) → Emitted (Shaking self.name (Hello left)) m room.old result room.new }
    {
        let n = parts::give(&hello(self.name as u32), left, room);
        Gave {
            state: Client::from_parts(greeting(self.name, left - n), self.head),
            given: n,
        }
    }

    fn send_name(self, left: usize, lent: &[u8], room: &mut [u8]) -> Gave<Client>
        requires { (self.name ≡ length lent.now) × Some self.name left }
        ensures { Emitted (Shaking self.name (Naming left)) lent.now room.old result room.new }
    {
        let n = parts::give(lent, left, room);
        Gave {
            state: Client::from_parts(naming(self.name, left - n), self.head),
            given: n,
        }
    }

    fn take_size_and_flags(self, old: bool, have: usize, input: &[u8]) -> Took<Client>
        requires { have < size_and_flags_length old }
        ensures { (m : List ℕ) → Absorbed (Shaking self.name (SizeAndFlags old (take have self.head))) m input.now result m }
    {
        heads::take(
            self.head,
            have,
            size_and_flags_length(old),
            input,
            |bytes, k|
                requires { k ≤ size_and_flags_length old }
                ensures { view_of bytes result ≡ judge_size_and_flags self.name old (take k bytes) }
            { judge_size_and_flags(self.name, old, bytes, k) },
        )
    }

    fn take_filler(self, f: Filler, input: &[u8]) -> Took<Client>
        requires { 0 < f.left }
        ensures { (m : List ℕ) → Absorbed (Shaking self.name (filler_of f)) m input.now result m }
    {
        let n = f.left.min(input.len());
        let after = Filler {
            clean: f.clean && parts::blank(&input[..n], 0),
            left: f.left - n,
            ..f
        };
        Took {
            state: Client::from_parts(filler(self.name, after), self.head),
            taken: n,
        }
    }

    // ---- the phases put together

    // Takes what the phase takes of the input.
    pub fn absorb(self, p: Handshake, input: &[u8]) -> Took<Client>
        requires { GoodShaking self.name (handshake_of self.head p) }
        ensures { (m : List ℕ) → Absorbed (Shaking self.name (handshake_of self.head p)) m input.now result m }
    {
        match p {
            Handshake::Magic { have } => self.take_magic(have, input),
            Handshake::Style { have } => self.take_style(have, input),
            Handshake::Newstyle { left } => self.skip_flags(left, input.len()),
            Handshake::SizeAndFlags { old, have } => self.take_size_and_flags(old, have, input),
            Handshake::Filler(f) => self.take_filler(f, input),
            _ => Took::none(Client::from_parts(Phase::Shaking(self.name, p), self.head)),
        }
    }

    // Gives what the phase owes into the room.
    pub fn emit(self, p: Handshake, lent: &[u8], room: &mut [u8]) -> Gave<Client>
        requires { (self.name ≡ length lent.now) × (self.name ≤ 4096) × GoodShaking self.name (handshake_of self.head p) }
        ensures { Emitted (Shaking self.name (handshake_of self.head p)) lent.now room.old result room.new }
    {
        match p {
            Handshake::Hello { left } => self.send_hello(left, room),
            Handshake::Naming { left } => self.send_name(left, lent, room),
            _ => Gave::none(Client::from_parts(Phase::Shaking(self.name, p), self.head)),
        }
    }
}
