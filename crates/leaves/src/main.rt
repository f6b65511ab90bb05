// Reads cases on standard input, makes the leaf call of `wire` that each names, and writes a line for each: the case, and what was answered.
// The cases of document 01 and the vectors of RFC 3629 are the file stdin beside src/, and the expected lines the file stdout. compare/leaves.py
// writes both without this code, from Python's own numbers and UTF-8 decoder and from 01's text.
#![tactic(auto)]

mod names;
mod numbers;
mod say;
mod texts;

use wire::table::Fault;
use wire::{fields, table};

// Standard input.
const STDIN: i32 = 0;

// The longest payload.
const LONGEST: usize = 4200;

// The number of a table's first fault, or 0.
fn judge(image: u64, t: &[u8]) {
    let fault = table::check(t, image as usize).map_or_else(Fault::number, |()| 0);
    say::number(fault as u64);
}

// The flags that the server sends.
fn sent(flags: u8) {
    say::number(table::wire_flags(flags) as u64);
}

// A record is cut or too long.
#[derive(Clone, Copy, Debug, PartialEq, Eq)]
struct BadRecord;

// A case: its letter says which call it is, with the numbers x and y and the payload. It stays a letter, as standard input has it: an enum would be
// read by the match of `answer`, and the line has the letter again.
#[derive(Clone, Copy)]
struct Case<'a> {
    letter: u8,
    x: u64,
    y: u64,
    payload: &'a [u8],
}

// What a case answers.
fn answer(c: Case) {
    let Case {
        letter,
        x,
        y,
        payload,
    } = c;
    match letter {
        // a number x, or its low bits, in a field of 2, 4 or 8 bytes at the place y
        b'2' => numbers::field(y, (x % 0x1_0000) as u16),
        b'4' => numbers::field(y, (x % 0x1_0000_0000) as u32),
        b'8' => numbers::field(y, x),
        b'c' => numbers::clamp(x),
        // x and the signed number whose two's complement is y
        b'a' => numbers::add(x, y),
        b'u' => texts::text(payload),
        // x is the first byte
        b'p' => texts::pairs((x % 256) as u8),
        // x is the image's size
        b't' => judge(x, payload),
        b'w' => sent((x % 256) as u8),
        // a table of x bytes, and a name or another table
        b'n' => names::name(x, payload),
        b'd' => names::tables(x, payload),
        _ => say::letter(b'?'),
    }
}

// A case's line.
fn line(c: Case) {
    say::letter(c.letter);
    say::number(c.x);
    say::number(c.y);
    say::letter(b' ');
    say::bytes(c.payload);
    say::letter(b':');
    answer(c);
    say::letter(b'\n');
}

// Reads a payload of so many bytes to the front of the room.
fn payload(room: &mut [u8; LONGEST], size: usize) -> Result<&[u8], BadRecord> {
    let n = size.min(LONGEST);
    if io::read_full(STDIN, &mut room[..n]) < size {
        return Err(BadRecord);
    }
    Ok(&room[..n])
}

// Reads a record: a letter (1 byte), x (8), y (8), a size (2) and a payload of so many bytes. None where the input has ended.
fn next(room: &mut [u8; LONGEST]) -> Result<Option<Case<'_>>, BadRecord> {
    let mut head = [0u8; 19];
    let got = io::read_full(STDIN, &mut head);
    if got == 0 {
        return Ok(None);
    }
    if got < 19 {
        return Err(BadRecord);
    }
    let size = fields::read::<u16>(&head, 17) as usize;
    Ok(Some(Case {
        letter: head[0],
        x: fields::read::<u64>(&head, 1),
        y: fields::read::<u64>(&head, 9),
        payload: payload(room, size)?,
    }))
}

// A proved loop has to end, and nothing says that the input does: it has as many turns as no run uses up.
fn all(room: &mut [u8; LONGEST]) -> Result<(), BadRecord> {
    for _ in 0..u64::MAX {
        let Some(c) = next(room)? else {
            return Ok(());
        };
        line(c);
    }
    Ok(())
}

fn main() {
    let mut room = [0u8; LONGEST];
    if all(&mut room).is_err() {
        say::text(b"bad record\n");
    }
}
