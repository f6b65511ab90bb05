// ask NAME SCRIPT: connects to the export of this name, the wire being standard input and output, and makes the calls of a script, one to a line.
// What is read goes to files, and how each call was closed to standard error.
#![tactic(auto)]

mod obeying;
mod orders;
mod talk;
mod words;

ghost use Rattle.std.specs.Io.{ReadsAtMost};

use host::words::{fail, say, tell};
use host::{args, files, text};
use obeying::Session;
use std::io::Result;

// What one call moves at most, and a byte more.
const BUFFER: usize = 4194305;

// The longest script, and a byte more.
const SCRIPT: usize = 65537;

// Does what a line says, and tells how it went.
fn obey_line(session: &mut Session, k: u64, line: &[u8]) {
    let line = text::skip(line);
    if text::is_end(line) {
        return;
    }
    let mut buffer = io::buffer();
    tell(format_args!("ask: line {k}: "));
    match orders::parse(line, &mut buffer) {
        Some(order) => session.obey(order),
        None => say(
            b"read N FILE, write FILE, seek start|position|end N, flush, trim N or resize N is meant\n",
        ),
    }
}

// The handshake, and the lines until the session is over.
fn connect(rt: &HostRuntime, name: &mut [u8], script: &[u8], buffer: &mut [u8]) {
    let mut session = Session::new(rt, buffer);
    session.open(name);
    for (k, line) in (1u64..).zip(script.split(|b| *b == b'\n')) {
        if session.is_over() {
            break;
        }
        obey_line(&mut session, k, line);
    }
}

fn start(rt: &HostRuntime, script: &[u8], buffer: &mut [u8]) {
    if script.len() == SCRIPT {
        say(b"ask: the script is longer than 65536 bytes\n");
        return;
    }
    let mut name = io::buffer();
    match args::get(rt, 1, &mut name) {
        Ok(n) => connect(rt, &mut name[..n], script, buffer),
        Err(e) => fail(b"ask: the export's name", e),
    }
}

// A name that is too long is none, and no file has it. A script that opens and cannot be read is passed over without a word.
fn read_script(rt: &HostRuntime, script: &mut [u8]) -> Result<usize>
    ensures { ReadsAtMost result script.new }
{
    let mut word = io::buffer();
    let n = args::get(rt, 2, &mut word).unwrap_or(0);
    match files::open_read(rt, &word[..n]) {
        Ok(mut file) => files::fill(&mut file, script),
        Err(e) => {
            fail(b"ask: the script", e);
            Err(e)
        }
    }
}

fn run(rt: &HostRuntime, buffer: &mut [u8; BUFFER]) {
    if args::count(rt) != 3 {
        say(b"usage: ask NAME SCRIPT\n");
        say(
            b"It speaks NBD on standard input and output, and makes the calls of the script, one to a line:\n",
        );
        say(b"read N FILE, write FILE, seek start|position|end N, flush, trim N, resize N\n");
        return;
    }
    let mut script = [0u8; SCRIPT];
    if let Ok(n) = read_script(rt, &mut script) {
        start(rt, &script[..n], buffer);
    }
}

fn main(rt: HostRuntime) {
    let mut buffer = [0u8; BUFFER];
    run(&rt, &mut buffer);
}
