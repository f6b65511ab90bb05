// mktable SIZE: reads lines of text on standard input, and writes the table that they describe, for an image of SIZE bytes.
// mktable SIZE list: reads a table, and writes such lines.
#![tactic(auto)]

mod flags;
mod listing;
mod making;

use host::words::say;
use host::{args, files, text, words};

const STDOUT: i32 = 1;

// 32 records with their longest names, each byte of them written as \xHH, are less than half of this.
const TEXT: usize = 2097152;
// 33 of the longest records: the last of them is refused.
const TABLE: usize = 135796;

// The image's size.
fn size(rt: &HostRuntime) -> Option<usize> {
    let mut word = io::buffer();
    let n = args::get(rt, 1, &mut word).ok()?;
    let (size, _) = text::number(&word[..n])?;
    Some(size as usize)
}

fn is_list(rt: &HostRuntime) -> bool {
    let mut word = io::buffer();
    args::get(rt, 2, &mut word).is_ok_and(|n| &word[..n] == b"list".as_slice())
}

fn usage() {
    say(b"usage: mktable SIZE < LINES > TABLE\n       mktable SIZE list < TABLE > LINES\n");
    say(b"SIZE is the image's size in bytes. A line has a name, a start and a size, and any of\n");
    say(b"the words readonly, resizeable, rotational and trim; # starts a comment.\n");
}

fn obey(rt: &HostRuntime, image: usize, text: &[u8]) {
    match args::count(rt) {
        2 => {
            let mut table = [0u8; TABLE];
            making::make(text, image, &mut table);
        }
        3 if is_list(rt) => listing::list(text, image),
        _ => usage(),
    }
}

fn run(rt: &HostRuntime, text: &mut [u8; TEXT]) {
    match size(rt) {
        Some(image) => read_and_obey(rt, image, text),
        None => usage(),
    }
}

fn read_and_obey(rt: &HostRuntime, image: usize, text: &mut [u8]) {
    match files::fill(&mut rt.stdin(), text) {
        Ok(n) if n == text.len() => say(b"mktable: standard input is too long\n"),
        Ok(n) => obey(rt, image, &text[..n]),
        Err(e) => words::fail(b"mktable: standard input", e),
    }
}

fn main(rt: HostRuntime) {
    let mut text = [0u8; TEXT];
    run(&rt, &mut text);
}
