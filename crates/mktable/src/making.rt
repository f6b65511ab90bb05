// From lines of text to a table.
ghost use Rattle.std.specs.Prelude.{◌≡◌, ◌+◌, ◌≤◌, length, IfOk};
ghost use Rattle.wire.specs.Table.{fault};
ghost use Rattle.mktable.specs.Making.{ParsedIn};

use crate::{STDOUT, flags};
use host::text::Mistake;
use host::words::{say, tell};
use host::{faults, text};
use std::fmt;
use wire::records::Entry;
use wire::table::{Export, Fault};
use wire::{fields, table};

// Why a line adds no record.
#[derive(Clone, Copy)]
enum Wrong {
    Mistake(Mistake),
    // with it the table would have this fault
    Fault(Fault),
}

impl fmt::Display for Wrong {
    fn fmt<W: fmt::Write>(&self, f: &mut fmt::Formatter<W>) -> fmt::Result {
        match self {
            Wrong::Mistake(m) => write!(f, "{m}"),
            Wrong::Fault(fault) => f.write_str(faults::text(fault.number())),
        }
    }
}

impl From<Mistake> for Wrong {
    fn from(m: Mistake) -> Wrong {
        Wrong::Mistake(m)
    }
}

impl From<Fault> for Wrong {
    fn from(fault: Fault) -> Wrong {
        Wrong::Fault(fault)
    }
}

// ---- a line

// The next word, which is a number.
fn number(line: &[u8]) -> Result<(u64, &[u8]), Mistake> {
    text::number(text::skip(line)).ok_or(Mistake::NoNumber)
}

// The record that a line asks for. The name is put into the buffer.
fn parse<'a>(line: &[u8], buffer: &'a mut [u8]) -> Result<Option<Entry<'a>>, Mistake>
    ensures { ParsedIn (length buffer.old) result }
{
    let line = text::skip(line);
    if text::is_end(line) {
        return Ok(None);
    }
    let (name, rest) = text::name(line, buffer)?;
    let (start, rest) = number(rest)?;
    let (size, rest) = number(rest)?;
    let flags = flags::in_words(rest)?;
    let export = Export { start, size, flags };
    Ok(Some(Entry { export, name }))
}

// ---- the table

// A record's fields in front of its name, which has so many bytes.
fn head(x: Export, len: usize) -> [u8; 19]
    requires { len ≤ 4096 }
{
    let mut h = [0u8; 19];
    let n = 17 + len;
    fields::write(&mut h, 0, n as u16);
    fields::write(&mut h, 2, x.start);
    fields::write(&mut h, 10, x.size);
    h[18] = x.flags;
    h
}

// The only place that writes a table: it passes the check for that image.
fn write_table(table: &[u8], image: usize)
    requires { fault image table.now ≡ 0 }
{
    let written = io::write_all(STDOUT, table);
    if !written {
        say(b"mktable: the table cannot be written\n");
    }
}

// A table that is being made for an image of so many bytes: the first bytes of the buffer. A `Vec` could fail for want of memory.
#[derive(Drop)]
struct Draft<'a> {
    buffer: &'a mut [u8],
    len: usize,
    image: usize,
    ghost fits: { len ≤ length buffer.now },
}

impl<'a> Draft<'a> {
    // The version byte: a table with no record.
    fn new(buffer: &'a mut [u8], image: usize) -> Draft<'a>
        requires { 1 ≤ length buffer.now }
    {
        buffer[0] = 1;
        Draft {
            buffer,
            len: 1,
            image,
        }
    }

    // Adds a record if the table stays sound.
    fn add(&mut self, r: Entry<'_>) -> Result<(), Fault>
        requires { length r.name.now ≤ 4096 }
        ensures { IfOk result (λ _. self.new.len ≡ self.old.len + 19 + length r.entry.name.now) }
    {
        let name = r.name;
        if self.buffer.len() - self.len < 19 + name.len() {
            return Err(Fault::Count);
        }
        let start = self.len + 19;
        let end = start + name.len();
        self.buffer[self.len..start].copy_from_slice(&head(r.export, name.len()));
        self.buffer[start..end].copy_from_slice(name);
        table::check(&self.buffer[..end], self.image)?;
        self.len = end;
        Ok(())
    }

    // Adds what a line says.
    fn add_line(&mut self, line: &[u8]) -> Result<(), Wrong> {
        let mut buffer = io::buffer();
        if let Some(record) = parse(line, &mut buffer)? {
            self.add(record)?;
        }
        Ok(())
    }

    fn finish(&self) {
        let table = &self.buffer[..self.len];
        let image = self.image;
        match table::check(table, image) {
            Ok(()) => write_table(table, image),
            Err(fault) => faults::say_bad_table("mktable", fault.number(), table, image),
        }
    }
}

// Every line is read, so that every mistake is named; after one, nothing is written.
pub fn make(text: &[u8], image: usize, buffer: &mut [u8])
    requires { 1 ≤ length buffer.old }
{
    let mut draft = Draft::new(buffer, image);
    let mut good = true;
    for (k, line) in (1u64..).zip(text.split(|b| *b == b'\n')) {
        if let Err(wrong) = draft.add_line(line) {
            tell(format_args!("mktable: line {k}: {wrong}\n"));
            good = false;
        }
    }
    if good {
        draft.finish();
    }
}
