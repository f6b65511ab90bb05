// What is refused: a state outside the ranges of docs/STATES.md, and another length of what is lent.
ghost use Rattle.std.specs.Prelude.{◌≡◌, List, ℕ};
ghost use Rattle.client.specs.View.{view, view_of, handshake_of, progress_of, used_shaking, used_calling, used};
ghost use Rattle.client.specs.Ranges.{
  ranged_shaking,
  part,
  ranged_call,
  ranged_progress,
  ends,
  ranged,
  in_range,
  lent_to,
  same_loan,
  refusal,
  refusal_of,
};

use crate::handshake;
use crate::refusal::Refusal;
use crate::state::{Call, Client, Device, Handshake, Phase, Progress};
use machine::parts;
use machine::tests::within;

// ---- the ranges

fn ranged_shaking(head: [u8; 16], name: usize, p: Handshake) -> bool
    ensures { result ≡ ranged_shaking name (handshake_of head p) }
{
    match p {
        Handshake::Magic { have } | Handshake::Style { have } => have < 8,
        Handshake::Newstyle { left } => (1..=2).contains(&left),
        Handshake::Hello { left } => (1..=20).contains(&left),
        Handshake::Naming { left } => (1..=name).contains(&left),
        Handshake::SizeAndFlags { old, have } => have < handshake::size_and_flags_length(old),
        Handshake::Filler(f) => (1..=124).contains(&f.left),
    }
}

// Whether there are some bytes from the position on, and none past the size.
fn part(d: Device, n: u32) -> bool
    ensures { result ≡ part d n }
{
    0 < n && within(d.position as usize, n as usize, d.size as usize)
}

fn ranged_call(d: Device, c: Call) -> bool
    ensures { result ≡ ranged_call d c }
{
    match c {
        Call::Read { n, len } | Call::Write { n, len } => n as usize <= len && part(d, n),
        Call::Trim { n } => part(d, n),
        _ => true,
    }
}

fn ranged_progress(head: [u8; 16], c: Call, p: Progress) -> bool
    ensures { result ≡ ranged_progress c (progress_of head p) }
{
    match p {
        Progress::Asking { left } => (1..=28).contains(&left),
        Progress::Paying { left } => (1..=c.payload() as usize).contains(&left),
        Progress::Hearing { have } => have < 16,
        Progress::Filling { left } => (1..=c.wanted() as usize).contains(&left),
    }
}

// The numbers that end a session.
fn ends(n: u8) -> bool
    ensures { result ≡ ends n }
{
    matches!(n, 40..=43 | 45..=46 | 50)
}

fn ranged(s: Client) -> bool
    ensures { result ≡ ranged (view s) }
{
    match s.phase {
        Phase::Shaking(name, h) => name <= 4096 && ranged_shaking(s.head, name, h),
        Phase::Calling(d, c, g) => ranged_call(d, c) && ranged_progress(s.head, c, g),
        Phase::Over(n) => ends(n),
        Phase::Closed(_, _) => false,
        _ => true,
    }
}

// ---- zeros in what is not used

fn used_shaking(p: Handshake) -> usize
    ensures { result ≡ used_shaking p }
{
    match p {
        Handshake::Magic { have }
        | Handshake::Style { have }
        | Handshake::SizeAndFlags { have, .. } => have,
        _ => 0,
    }
}

fn used_calling(p: Progress) -> usize
    ensures { result ≡ used_calling p }
{
    match p {
        Progress::Hearing { have } => have,
        _ => 0,
    }
}

// How many bytes of `head` the phase uses.
pub fn used(p: Phase) -> usize
    ensures { result ≡ used p }
{
    match p {
        Phase::Shaking(_, h) => used_shaking(h),
        Phase::Calling(_, _, g) => used_calling(g),
        _ => 0,
    }
}

// Whether a client is within its ranges. The server has the like over its own phases; what they share is `parts::blank`.
pub fn in_range(s: Client) -> bool
    ensures { result ≡ in_range s }
{
    parts::blank(&s.head, used(s.phase)) && ranged(s)
}

// ---- what a step refuses

fn lent_to(c: Call) -> usize
    ensures { result ≡ lent_to c }
{
    match c {
        Call::Read { len, .. } | Call::Write { len, .. } => len,
        _ => 0,
    }
}

// Whether what is lent, k bytes, has the length that it had at the start.
fn same_loan(p: Phase, k: usize) -> bool
    ensures { (h : List ℕ) → result ≡ same_loan k (view_of h p) }
{
    match p {
        Phase::Shaking(name, _) => name == k,
        Phase::Calling(_, c, _) => lent_to(c) == k,
        _ => true,
    }
}

// Why a step with k bytes lent is refused, if it is.
pub fn refusal(s: Client, k: usize) -> Result<(), Refusal>
    ensures { refusal_of result ≡ refusal k s }
{
    if !in_range(s) {
        Err(Refusal::OutOfRange)
    } else if !same_loan(s.phase, k) {
        Err(Refusal::OtherLength)
    } else {
        Ok(())
    }
}
