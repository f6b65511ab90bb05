// What a record says, by its letter and its payload.
use crate::record::{BadScript, Record};
use calling::asked::{Call, Made};
use client::state::SeekFrom;
use lines::buffers::STILL;
use lines::places::{Lent, Size, Step};
use serving::asked::{Head, Serve};
use wire::{fields, number};

#[derive(Clone, Copy)]
pub enum Command {
    // what is kept from now on has so many bytes
    Change(Kept, Size),
    Serve(Serve),
    Call(Call),
    Head(Head),
    Show(Lent),
}

#[derive(Clone, Copy)]
pub enum Kept {
    Table,
    Image,
    Slice,
}

// The room's size, the first 4 bytes.
fn room(payload: &[u8; STILL]) -> Result<Size, BadScript> {
    Size::new(fields::read::<u32>(payload, 0) as usize).ok_or(BadScript)
}

// `s` and `c`: the room's size (4), and the input.
fn step(size: Size, payload: &[u8; STILL]) -> Result<Step, BadScript> {
    let room = room(payload)?;
    if size.bytes < 4 {
        return Err(BadScript);
    }
    Ok(Step { room, end: size })
}

// `o`: the room's size (4), a size (8), flags (4).
fn head(size: Size, payload: &[u8; STILL]) -> Result<Head, BadScript> {
    let room = room(payload)?;
    if size.bytes != 16 {
        return Err(BadScript);
    }
    Ok(Head {
        room,
        size: fields::read(payload, 4),
        flags: fields::read(payload, 12),
    })
}

// `k`: from where (1), and the offset (8).
fn place(size: Size, payload: &[u8; STILL]) -> Result<SeekFrom, BadScript> {
    if size.bytes != 9 {
        return Err(BadScript);
    }
    let x = fields::read::<u64>(payload, 1);
    match payload[0] {
        0 => Ok(SeekFrom::Start(x)),
        1 => Ok(SeekFrom::Current(number::signed(x))),
        2 => Ok(SeekFrom::End(number::signed(x))),
        _ => Err(BadScript),
    }
}

// `t` and `z`: a length or a new size (8).
fn length(size: Size, payload: &[u8; STILL]) -> Result<u64, BadScript> {
    if size.bytes == 8 {
        Ok(fields::read::<u64>(payload, 0))
    } else {
        Err(BadScript)
    }
}

// What has no payload.
fn bare(letter: u8) -> Result<Command, BadScript> {
    Ok(match letter {
        b'S' => Command::Serve(Serve::Fresh),
        b'C' => Command::Call(Call::Fresh),
        b'e' => Command::Serve(Serve::End),
        b'i' => Command::Show(Lent::Image),
        b'b' => Command::Show(Lent::Slice),
        b'q' => Command::Call(Call::Show),
        b'h' => Command::Call(Call::Make(Made::Handshake)),
        b'x' => Command::Call(Call::Make(Made::End)),
        b'r' => Command::Call(Call::Make(Made::Read)),
        b'w' => Command::Call(Call::Make(Made::Write)),
        b'f' => Command::Call(Call::Make(Made::Flush)),
        _ => return Err(BadScript),
    })
}

// What a record says: by its letter, since letters are what a script is written in. The payload stands at the front, but for one that is lent.
pub fn read(record: Record, payload: &[u8; STILL]) -> Result<Command, BadScript> {
    let size = record.size;
    Ok(match record.letter {
        b'T' => Command::Change(Kept::Table, size),
        b'I' => Command::Change(Kept::Image, size),
        b'B' => Command::Change(Kept::Slice, size),
        b's' => Command::Serve(Serve::Step(step(size, payload)?)),
        b'c' => Command::Call(Call::Step(step(size, payload)?)),
        b'o' => Command::Head(head(size, payload)?),
        b'k' => Command::Call(Call::Make(Made::Seek(place(size, payload)?))),
        b't' => Command::Call(Call::Make(Made::Trim(length(size, payload)?))),
        b'z' => Command::Call(Call::Make(Made::Resize(length(size, payload)?))),
        letter if size.bytes == 0 => bare(letter)?,
        _ => return Err(BadScript),
    })
}
