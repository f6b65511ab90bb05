// The export table.
ghost use Rattle.std.specs.Prelude.{◌≡◌, ◌+◌, ◌≤◌, get_or, eqb, leb};
ghost use Rattle.machine.specs.Choice.{pick};
ghost use Rattle.wire.specs.Table.{records, no_record, record_fault, fault, fault_of, number_of, wire_flags, export_of};
ghost use Rattle.wire.specs.Walk.{seen};
ghost use Rattle.wire.specs.declared.table.Fault.TheVariants.{Length};

use crate::consts::{
    NBD_FLAG_HAS_FLAGS, NBD_FLAG_READ_ONLY, NBD_FLAG_ROTATIONAL, NBD_FLAG_SEND_FLUSH,
    NBD_FLAG_SEND_RESIZE, NBD_FLAG_SEND_TRIM,
};
use crate::records;
use crate::records::{Broken, Entry, Records};
use crate::utf8::Utf8;
use machine::tests::within;

// A table has at most so many records.
pub const MAX_RECORDS: usize = 32;

// What is wrong with a table first, by 01's numbers.
#[derive(Clone, Copy, Debug, PartialEq, Eq)]
pub enum Fault {
    // the version byte
    Version = 20,
    // a record's length
    Length = 21,
    // a 33rd record
    Count = 22,
    // a window past the image
    Window = 23,
    // an unknown flag bit
    Flags = 24,
    // a name that is not UTF-8
    Name = 25,
}

impl Fault {
    pub fn number(self) -> u8
        ensures { result ≡ number_of self }
    {
        self as u8
    }
}

impl From<Broken> for Fault {
    ghost from_gives = { λ _ f. f ≡ Length };

    fn from(_broken: Broken) -> Fault {
        Fault::Length
    }
}

// An export's window and its table flags.
#[derive(Clone, Copy)]
pub struct Export {
    pub start: u64,
    pub size: u64,
    pub flags: u8,
}

// Whether a window lies in an image of so many bytes.
pub fn window_fits(x: Export, image: usize) -> bool
    ensures { result ≡ leb (x.start + x.size) image }
{
    within(x.start as usize, x.size as usize, image)
}

// A record's first fault, for an image of so many bytes.
pub fn record_fault(e: Entry<'_>, image: usize) -> Result<(), Fault>
    ensures { fault_of result ≡ record_fault image (seen e.entry) }
{
    if 16 <= e.export.flags {
        return Err(Fault::Flags);
    }
    if !Utf8::Start.run(e.name).whole() {
        return Err(Fault::Name);
    }
    if !window_fits(e.export, image) {
        return Err(Fault::Window);
    }
    Ok(())
}

// The first fault of a table, for an image of so many bytes.
pub fn check(table: &[u8], image: usize) -> Result<(), Fault>
    ensures { fault_of result ≡ fault image table.now }
{
    let Some((version, behind)) = table.split_first() else {
        return Err(Fault::Version);
    };
    if *version != 1 {
        return Err(Fault::Version);
    }
    let mut rest = behind;
    for _ in 0..MAX_RECORDS {
        let Some((e, behind)) = records::front(rest)? else {
            return Ok(());
        };
        record_fault(e, image)?;
        rest = behind;
    }
    if rest.is_empty() {
        Ok(())
    } else {
        Err(Fault::Count)
    }
}

// Window and flags of record k, all 0 where there is none.
#[tactic(auto, using(crate::proofs::Iterations::passed_all))]
pub fn export_at(table: &[u8], k: usize) -> Export
    ensures { result ≡ export_of (get_or (records table.now) k no_record) }
{
    match Records::of(table).nth(k) {
        Some(e) => e.export,
        None => Export {
            start: 0,
            size: 0,
            flags: 0,
        },
    }
}

// One of two numbers, by a binary digit.
fn by_digit(digit: u8, one: u16, zero: u16) -> u16
    ensures { (result ≡ pick (eqb digit 1) one zero) × (result ≤ one + zero) }
{
    if digit == 1 { one } else { zero }
}

// The flags that the server sends for an export with these table flags.
#[tactic(auto, unfolding(crate::specs::Table::wire_flags))]
pub fn wire_flags(flags: u8) -> u16
    ensures { result ≡ wire_flags flags }
{
    let access = by_digit(flags % 2, NBD_FLAG_READ_ONLY, NBD_FLAG_SEND_FLUSH);
    let resize = by_digit(flags / 2 % 2, NBD_FLAG_SEND_RESIZE, 0);
    let rotational = by_digit(flags / 4 % 2, NBD_FLAG_ROTATIONAL, 0);
    let trim = by_digit(flags / 8 % 2, NBD_FLAG_SEND_TRIM, 0);
    NBD_FLAG_HAS_FLAGS + access + resize + rotational + trim
}
