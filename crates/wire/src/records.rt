// The records of a table, one after the other.
ghost use Rattle.std.specs.Prelude.{◌≡◌, ◌≤◌, length};
ghost use Rattle.std.specs.Iterator.{YieldsFirstBy, item_count};
ghost use Rattle.wire.specs.Table.{record_of, front, records};
ghost use Rattle.wire.specs.Walk.{seen, front_of, due, Begun};

use crate::fields;
use crate::table::{Export, MAX_RECORDS};

// A record, as it stands in the table.
#[derive(Clone, Copy)]
pub struct Entry<'a> {
    pub export: Export,
    pub name: &'a [u8],
}

// A length field that is cut, out of range or past the end.
#[derive(Clone, Copy, Debug, PartialEq, Eq)]
pub struct Broken;

// The record with these bytes behind its length.
fn entry_of(body: &[u8]) -> Entry<'_>
    requires { 17 ≤ length body.now }
    ensures { seen result ≡ record_of body.now }
{
    Entry {
        export: Export {
            start: fields::read(body, 0),
            size: fields::read(body, 8),
            flags: body[16],
        },
        name: &body[17..],
    }
}

// The record at the front of the bytes, and what is behind it; no record where there are no bytes.
#[tactic(auto, using(crate::proofs::Fronts::front_none, crate::proofs::Fronts::front_broken, crate::proofs::Fronts::front_fits))]
pub fn front(bytes: &[u8]) -> Result<Option<(Entry<'_>, &[u8])>, Broken>
    ensures { front_of result ≡ front bytes.now }
{
    if bytes.is_empty() {
        return Ok(None);
    }
    if bytes.len() < 2 {
        return Err(Broken);
    }
    let n = fields::read::<u16>(bytes, 0) as usize;
    let (_, behind) = bytes.split_at(2);
    if n < 17 || 4113 < n || behind.len() < n {
        return Err(Broken);
    }
    let (body, rest) = behind.split_at(n);
    Ok(Some((entry_of(body), rest)))
}

// A walk over the records: the bytes that are left, and how many records more there may be.
#[derive(Clone, Copy)]
pub struct Records<'a> {
    bytes: &'a [u8],
    left: usize,
}

impl<'a> Records<'a> {
    // The records of a table, up to the first place where none stands.
    pub fn of(table: &'a [u8]) -> Records<'a>
        ensures all { due result ≡ records table.now }
        ensures few { length (due result) ≤ 32 }
        ensures begun { Begun result table.now }
    {
        Records {
            bytes: table.get(1..).unwrap_or(&[]),
            left: MAX_RECORDS,
        }
    }
}

impl<'a> Iterator for Records<'a> {
    type Item = Entry<'a>;

    ghost next_gives = { YieldsFirstBy seen due };

    ghost remaining = { item_count due };

    fn next(&mut self) -> Option<Entry<'a>> {
        if self.left == 0 {
            return None;
        }
        let (e, behind) = front(self.bytes).ok().flatten()?;
        self.bytes = behind;
        self.left -= 1;
        Some(e)
    }
}
