// What is refused: a state outside the ranges of docs/STATES.md, and a table or an image that will not do.
ghost use Rattle.std.specs.Prelude.{◌≡◌, not, List, ℕ, eqb, ltb, leb};
ghost use Rattle.machine.specs.Choice.{pick, both, between};
ghost use Rattle.wire.specs.Constants.{NBD_OPT_EXPORT_NAME, NBD_EPERM, NBD_ENOSPC};
ghost use Rattle.wire.specs.Table.{read_only};
ghost use Rattle.server.specs.Session.{reply_length};
ghost use Rattle.server.specs.View.{view, handshake_of, transmission_of, used_shaking, used_serving, used};
ghost use Rattle.server.specs.Ranges.{
  unsupported,
  ranged_shaking,
  part,
  replied,
  behind,
  ranged_serving,
  ranged,
  in_range,
  window_fault,
  window_fault_shaking,
  loan_fault,
  refusal,
  refusal_of,
};

use crate::refusal::Refusal;
use crate::request;
use crate::state::{Handshake, Phase, Server, Transmission};
use machine::parts;
use machine::tests::within;
use wire::table::Export;
use wire::{consts, table};

// ---- the phases

fn unsupported(option: u32) -> bool
    ensures { result ≡ unsupported option }
{
    matches!(
        option,
        consts::NBD_OPT_INFO
            | consts::NBD_OPT_GO
            | consts::NBD_OPT_STRUCTURED_REPLY
            | consts::NBD_OPT_EXTENDED_HEADERS
    )
}

// How many bytes the reply to EXPORT_NAME has.
pub fn reply_length(zeroes: bool) -> usize
    ensures { result ≡ reply_length zeroes }
{
    if zeroes { 134 } else { 10 }
}

fn ranged_shaking(head: [u8; 28], p: Handshake) -> bool
    ensures { result ≡ ranged_shaking (handshake_of head p) }
{
    match p {
        Handshake::Greeting { left } => (1..=18).contains(&left),
        Handshake::ClientFlags { have } => have < 4,
        Handshake::OptionHead { have, .. } => have < 16,
        Handshake::Naming(n) => 0 < n.left && within(n.at, n.left, 100000),
        Handshake::Passing(p) => p.option != consts::NBD_OPT_EXPORT_NAME
            && (1..=p.len).contains(&p.left)
            && p.len <= 100000,
        Handshake::Listing { left, .. } => (1..=51).contains(&left),
        Handshake::Declining(d) => unsupported(d.option) && (1..=20).contains(&d.left),
        Handshake::Aborting { left } => (1..=20).contains(&left),
        Handshake::Exporting(x) => x.export.flags < 16
            && (1..=reply_length(x.zeroes)).contains(&x.left),
    }
}

fn part(e: Export, off: usize, left: usize) -> bool
    ensures { result ≡ part e off left }
{
    0 < left && within(off, left, e.size as usize)
}

fn replied(error: u32) -> bool
    ensures { result ≡ replied error }
{
    matches!(
        error,
        0 | consts::NBD_EPERM | consts::NBD_EINVAL | consts::NBD_ENOSPC | consts::NBD_ENOSYS
    )
}

fn behind(e: Export, error: u32, off: usize, len: usize) -> bool
    ensures { result ≡ behind e error off len }
{
    if len == 0 {
        off == 0 && replied(error)
    } else {
        error == 0 && within(off, len, e.size as usize)
    }
}

// The error that refuses a payload.
fn refused(e: Export) -> u32
    ensures { result ≡ pick (read_only e.flags) NBD_EPERM NBD_ENOSPC }
{
    if request::read_only(e) {
        consts::NBD_EPERM
    } else {
        consts::NBD_ENOSPC
    }
}

fn ranged_serving(head: [u8; 28], e: Export, p: Transmission) -> bool
    ensures { result ≡ ranged_serving e (transmission_of head p) }
{
    match p {
        Transmission::Header { have } => have < 28,
        Transmission::Storing(s) => !request::read_only(e) && part(e, s.off, s.left),
        Transmission::Dropping(d) => d.error == refused(e) && 0 < d.left,
        Transmission::Replying {
            error,
            left,
            off,
            len,
            ..
        } => (1..=16).contains(&left) && behind(e, error, off, len),
        Transmission::Sending(s) => part(e, s.off, s.left),
    }
}

fn ranged(s: Server) -> bool
    ensures { result ≡ ranged (view s) }
{
    match s.phase {
        Phase::Shaking(h) => ranged_shaking(s.head, h),
        Phase::Serving(e, t) => e.flags < 16 && ranged_serving(s.head, e, t),
        Phase::Over(n) => n <= 12,
    }
}

// ---- zeros in what is not used

fn used_shaking(p: Handshake) -> usize
    ensures { result ≡ used_shaking p }
{
    match p {
        Handshake::ClientFlags { have } | Handshake::OptionHead { have, .. } => have,
        _ => 0,
    }
}

fn used_serving(p: Transmission) -> usize
    ensures { result ≡ used_serving p }
{
    match p {
        Transmission::Header { have } => have,
        _ => 0,
    }
}

// How many bytes of `head` are in use.
pub fn used(p: Phase) -> usize
    ensures { result ≡ used p }
{
    match p {
        Phase::Shaking(h) => used_shaking(h),
        Phase::Serving(_, t) => used_serving(t),
        Phase::Over(_) => 0,
    }
}

// Whether a server is within its ranges. The client has the like over its own phases; what they share is `parts::blank`.
pub fn in_range(s: Server) -> bool
    ensures { result ≡ in_range s }
{
    parts::blank(&s.head, used(s.phase)) && ranged(s)
}

// ---- what a step refuses

// Whether the export's window lies in an image of n bytes.
fn window_fault(e: Export, n: usize) -> Result<(), Refusal>
    ensures { refusal_of result ≡ window_fault n e }
{
    if table::window_fits(e, n) {
        Ok(())
    } else {
        Err(Refusal::Window)
    }
}

fn window_fault_shaking(p: Handshake, n: usize) -> Result<(), Refusal>
    ensures { (h : List ℕ) → refusal_of result ≡ window_fault_shaking n (handshake_of h p) }
{
    match p {
        Handshake::Exporting(x) => window_fault(x.export, n),
        _ => Ok(()),
    }
}

// What is wrong with what is lent, if anything is.
fn loan_fault(s: Server, table: &[u8], n: usize) -> Result<(), Refusal>
    ensures { refusal_of result ≡ loan_fault table.now n (view s) }
{
    match s.phase {
        Phase::Shaking(h) => {
            table::check(table, n)?;
            window_fault_shaking(h, n)
        }
        Phase::Serving(e, _) => window_fault(e, n),
        Phase::Over(_) => Ok(()),
    }
}

// Why a step is refused, if it is.
pub fn refusal(s: Server, table: &[u8], n: usize) -> Result<(), Refusal>
    ensures { refusal_of result ≡ refusal table.now n s }
{
    if !in_range(s) {
        return Err(Refusal::OutOfRange);
    }
    loan_fault(s, table, n)
}
