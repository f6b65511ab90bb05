// The line of a call.
ghost use Rattle.std.specs.Prelude.{◌≡◌};
ghost use Rattle.lines.specs.Marks.{refusal};

use crate::{hex, number, text};

// What a call answered.
#[derive(Clone, Copy)]
pub enum Answer {
    // without a number: the session goes on, or the call is open
    On,
    // a client's handshake or call closed well, with its value
    Done(u64),
    // 01's number 47, with the error of the reply
    Fail(u32),
    // 01's numbers, as the outcomes have them
    End(u8),
    No(u8),
}

impl Answer {
    pub fn is_refusal(self) -> bool
        ensures { result ≡ refusal self }
    {
        matches!(self, Answer::No(_))
    }
}

// What was moved, after a word that says how the call went.
fn moved(taken: usize, given: &[u8]) {
    number(taken as u64);
    number(given.len() as u64);
    hex(given);
}

fn with_number(word: &[u8], n: u64) {
    text(word);
    number(n);
}

// The end of a line: ` !` where something changed that may not.
pub fn close(changed: bool) {
    if changed {
        text(b" !");
    }
    text(b"\n");
}

// The line of an answer with the bytes taken and given, which a refusal has none of.
pub fn line(a: Answer, taken: usize, given: &[u8], changed: bool) {
    match a {
        Answer::On => text(b"on"),
        Answer::Done(n) => with_number(b"ok", n),
        Answer::Fail(n) => with_number(b"fail", u64::from(n)),
        Answer::End(n) => with_number(b"end", u64::from(n)),
        Answer::No(n) => with_number(b"no", u64::from(n)),
    }
    if !a.is_refusal() {
        moved(taken, given);
    }
    close(changed);
}
