// How a call went, in words.
use client::state::{Fields, Outcome, Value};
use std::fmt::{Display, Formatter, Result, Write};

// The client's outcomes have 01's numbers.
fn end(n: u8) -> &'static str {
    match n {
        40 => "the server's first magic is not NBDMAGIC",
        41 => "the server's second magic is unknown",
        42 => "an old-style server has only the empty name",
        43 => "a byte of the 124 is not zero",
        45 => "a reply does not begin with its signature",
        46 => "a reply has another handle",
        50 => "the input ended",
        _ => "no end of a session",
    }
}

fn refusal(n: u8) -> &'static str {
    match n {
        44 => "the name is longer than 4096 bytes",
        48 => "the seek leaves 0..2^64-1, or is by -2^63",
        49 => "the position is past the size",
        51 => "no call can be made now",
        52 => "the buffer's length is not that of the call",
        53 => "the client is outside its ranges",
        _ => "no refusal",
    }
}

// The words of the fields that are set.
#[derive(Drop)]
struct Set(Fields);

impl Display for Set {
    fn fmt<W: Write>(&self, f: &mut Formatter<W>) -> Result {
        let Set(fields) = *self;
        let words = [
            (fields.readonly, "readonly"),
            (fields.resizeable, "resizeable"),
            (fields.rotational, "rotational"),
            (fields.send_trim, "trim"),
            (fields.send_flush, "flush"),
        ];
        for (set, word) in words {
            if set {
                write!(f, ", {word}")?;
            }
        }
        Ok(())
    }
}

// What a success gave.
#[derive(Drop)]
struct Given(Value);

impl Display for Given {
    fn fmt<W: Write>(&self, f: &mut Formatter<W>) -> Result {
        match self.0 {
            Value::Opened(size, fields) => {
                write!(f, "the export has {size} bytes{}", Set(fields))
            }
            Value::Bytes(n) => write!(f, "{n} bytes"),
            Value::Position(p) => write!(f, "position {p}"),
            Value::Nothing => f.write_str("done"),
        }
    }
}

// How a call went.
#[derive(Drop)]
pub struct Told(pub Outcome);

impl Display for Told {
    fn fmt<W: Write>(&self, f: &mut Formatter<W>) -> Result {
        match self.0 {
            Outcome::Open => f.write_str("no more turns"),
            Outcome::Succeeded(value) => write!(f, "{}", Given(value)),
            Outcome::Failed(e) => write!(f, "failed with 47: the server's error is {e}"),
            Outcome::Ended(n) => write!(f, "the session ended with {n}: {}", end(n)),
            Outcome::Refused(n) => write!(f, "refused with {n}: {}", refusal(n)),
        }
    }
}
