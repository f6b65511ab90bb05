// How a session ended, in words.
use crate::session::Stop;
use std::fmt;
use std::fmt::Display;

// What 01's number of an end means. The server's outcomes have the number.
fn meaning(n: u8) -> &'static str {
    match n {
        0 => "the client disconnected",
        1 => "the client's flags are neither 1 nor 3",
        2 => "an option does not begin with its magic",
        3 => "an option is longer than 100,000 bytes",
        4 => "a LIST has a payload",
        5 => "the export's name is not UTF-8",
        6 => "no export has this name",
        7 => "the client gave up in the handshake, and was told ACK",
        8 => "the client asks for TLS",
        9 => "an option is unknown",
        10 => "a request does not begin with its magic",
        11 => "a request's command is unknown",
        12 => "the input ended without a disconnect",
        _ => "no end of a session",
    }
}

impl Display for Stop {
    fn fmt<W: fmt::Write>(&self, f: &mut fmt::Formatter<W>) -> fmt::Result {
        match *self {
            Stop::Ended(n) => write!(f, "the session ended with {n}: {}", meaning(n)),
            // with the table checked and the image at hand, none is
            Stop::Refused(n) => write!(f, "a step was refused with {n}"),
            Stop::NotSent => f.write_str("the client stopped reading"),
            Stop::NotRead => f.write_str("standard input cannot be read"),
            Stop::NotKept => {
                f.write_str("the image file cannot be written; the last write is not acknowledged")
            }
            Stop::OutOfTurns => f.write_str("no more turns"),
        }
    }
}
