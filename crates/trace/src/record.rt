// A script is a run of records: a command (1 byte), a length (4) and a payload of so many bytes.
ghost use Rattle.std.specs.Prelude.{◌+◌, ◌≤◌, length};

use lines::places::Size;
use wire::fields;

// Standard input.
const STDIN: i32 = 0;

// A record is cut, too long, or not one that this program knows.
#[derive(Clone, Copy, Debug, PartialEq, Eq)]
pub struct BadScript;

// A record's head. The payload comes next. The letter is read twice: `Host::store` finds the payload's place by it, and
// `command::read`, once the payload is there, the command.
#[derive(Clone, Copy)]
pub struct Record {
    pub letter: u8,
    pub size: Size,
}

// Reads a record's command and length from standard input. None where the script has ended.
pub fn next() -> Result<Option<Record>, BadScript> {
    let mut head = [0u8; 5];
    let got = io::read_full(STDIN, &mut head);
    if got == 0 {
        return Ok(None);
    }
    if got < 5 {
        return Err(BadScript);
    }
    let size = Size::new(fields::read::<u32>(&head, 1) as usize).ok_or(BadScript)?;
    Ok(Some(Record {
        letter: head[0],
        size,
    }))
}

// Reads a payload of so many bytes to this place.
pub fn payload(buffer: &mut [u8], at: usize, size: Size) -> Result<(), BadScript>
    requires { at + size.bytes ≤ length buffer.old }
{
    let end = at + size.bytes;
    if io::read_full(STDIN, &mut buffer[at..end]) == size.bytes {
        Ok(())
    } else {
        Err(BadScript)
    }
}
