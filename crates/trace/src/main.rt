// Reads a script on standard input, makes the calls that it names, and writes a line for each call that answers.
#![tactic(auto)]

mod command;
mod host;
mod record;

use host::Host;

fn main() {
    let mut host = Host::new();
    if host.play().is_err() {
        lines::text(b"bad script\n");
    }
}
