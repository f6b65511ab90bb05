// Messages on standard error.
ghost use Rattle.std.specs.Prelude.{◌≤◌};

use std::fmt;
use std::fmt::{Display, Write};
use std::io::Error;

const STDERR: i32 = 2;

pub fn say(text: &[u8]) {
    io::write_all(STDERR, text);
}

// Standard error, as `write!` takes it.
#[derive(Clone, Copy)]
struct Stderr;

impl fmt::Write for Stderr {
    fn write_str(&mut self, s: &str) -> fmt::Result {
        say(s.as_bytes());
        Ok(())
    }
}

pub fn tell(message: impl Display + Drop) {
    let _ = write!(Stderr, "{message}");
}

// What an error shows itself as; what does not fit is left out. A `String` in place of the array could fail for want of memory.
#[derive(Drop)]
struct Shown {
    text: [u8; 256],
    len: usize,
    ghost fits: { len ≤ 256 },
}

impl fmt::Write for Shown {
    fn write_str(&mut self, s: &str) -> fmt::Result {
        let end = self.len + s.len().min(256 - self.len);
        self.text[self.len..end].copy_from_slice(&s.as_bytes()[..end - self.len]);
        self.len = end;
        Ok(())
    }
}

// The text of an error without its number: behind the text std writes " (os error 2)".
fn without_number(text: &[u8]) -> &[u8] {
    match text.iter().rposition(|b| *b == b'(') {
        Some(open) => &text[..open.saturating_sub(1)],
        None => text,
    }
}

// A line: what failed, as the caller names it, a colon and why, which is an error of the system's.
pub fn fail(what: &[u8], error: Error) {
    let mut shown = Shown {
        text: [0u8; 256],
        len: 0,
    };
    let _ = write!(shown, "{error}");
    say(what);
    say(b": ");
    say(without_number(&shown.text[..shown.len]));
    say(b"\n");
}
