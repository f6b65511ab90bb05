// What the program writes.
use crate::script::Call;
use client::state::{Fields, Outcome, Value};
use std::fmt;
use std::fmt::{Display, Write};

// Standard output. It is written to here: `host`, which has the like, is not below this crate.
const STDOUT: i32 = 1;

// The same, as `write!` takes it.
#[derive(Clone, Copy)]
struct Stdout;

impl fmt::Write for Stdout {
    fn write_str(&mut self, s: &str) -> fmt::Result {
        bytes(s.as_bytes());
        Ok(())
    }
}

pub fn bytes(b: &[u8]) {
    io::write_all(STDOUT, b);
}

pub fn tell(message: impl Display + Drop) {
    let _ = write!(Stdout, "{message}");
}

impl Display for Call {
    fn fmt<W: fmt::Write>(&self, f: &mut fmt::Formatter<W>) -> fmt::Result {
        f.write_str(match self {
            Call::Handshake(_) => "handshake",
            Call::Read(_) => "read",
            Call::Write(_) => "write",
            Call::Seek(_) => "seek",
            Call::Flush => "flush",
            Call::Trim(_) => "trim",
        })
    }
}

// A bit for each field of a device that a host may ask for.
#[derive(Clone, Copy)]
struct Bits(Fields);

impl Display for Bits {
    fn fmt<W: fmt::Write>(&self, f: &mut fmt::Formatter<W>) -> fmt::Result {
        let Fields {
            readonly,
            resizeable,
            rotational,
            send_trim,
            send_flush,
        } = self.0;
        for bit in [readonly, resizeable, rotational, send_trim, send_flush] {
            write!(f, " {}", u8::from(bit))?;
        }
        Ok(())
    }
}

// How a call went.
#[derive(Clone, Copy)]
pub struct Went(pub Outcome);

impl Display for Went {
    fn fmt<W: fmt::Write>(&self, f: &mut fmt::Formatter<W>) -> fmt::Result {
        match self.0 {
            Outcome::Open => f.write_str("open"),
            Outcome::Succeeded(Value::Opened(size, fields)) => write!(
                f,
                "ok {size}{}",
                Bits(fields)
            ),
            Outcome::Succeeded(Value::Bytes(n)) => write!(f, "ok {n}"),
            Outcome::Succeeded(Value::Position(p)) => write!(f, "ok {p}"),
            Outcome::Succeeded(Value::Nothing) => f.write_str("ok"),
            Outcome::Failed(error) => write!(f, "fail 47 {error}"),
            Outcome::Ended(n) => write!(f, "end {n}"),
            Outcome::Refused(n) => write!(f, "no {n}"),
        }
    }
}

// The line of a call: how it went, and what was lent.
pub fn call(k: Call, o: Outcome, lent: &[u8]) {
    tell(format_args!("{k} {} [", Went(o)));
    bytes(lent);
    tell("]\n");
}
