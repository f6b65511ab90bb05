// serve TABLE IMAGE: serves one connection on standard input and output, and says on standard error how it ended.
#![tactic(auto)]

mod session;
mod stepping;
mod stops;

ghost use Rattle.std.specs.Prelude.{◌≤◌, length, IfOk};

use host::words::{say, tell};
use host::{args, faults, files, words};
use session::{Image, Session};
use std::fs::File;
use std::io::Error;
use wire::table;

// The largest image, and a byte more.
const IMAGE: usize = 4194305;
// A longer table has a 33rd record within so many bytes.
const TABLE: usize = 131682;

// Nothing is served, and why was said.
#[derive(Clone, Copy, Debug, PartialEq, Eq)]
struct Said;

// The image file, open for reading and writing, and its size.
#[derive(Drop)]
struct Opened {
    file: File,
    size: usize,
    ghost fits: { size ≤ 4194304 },
}

// What cannot be done, and why.
fn fail(what: &[u8], error: Error) -> Said {
    words::fail(what, error);
    Said
}

// The same, of the file of this name.
fn fail_at(name: &[u8], what: &[u8], error: Error) -> Said {
    say(b"serve: ");
    say(name);
    say(b": ");
    fail(what, error)
}

// Reads the table to the front of this buffer.
fn load_table(rt: &HostRuntime, table: &mut [u8]) -> Result<usize, Said>
    ensures { IfOk result (λ n. n ≤ length table.old) }
{
    let mut buffer = io::buffer();
    let n = args::get(rt, 1, &mut buffer).map_err(|e| fail(b"serve: the table's name", e))?;
    let name = &buffer[..n];
    let mut file = files::open_read(rt, name).map_err(|e| fail_at(
        name,
        b"cannot open the table",
        e,
    ))?;
    files::fill(&mut file, table).map_err(|e| fail_at(name, b"cannot read the table", e))
}

// Opens the image, and reads it to the front of this buffer.
fn load_image(rt: &HostRuntime, image: &mut [u8; IMAGE]) -> Result<Opened, Said> {
    let mut buffer = io::buffer();
    let n = args::get(rt, 2, &mut buffer).map_err(|e| fail(b"serve: the image's name", e))?;
    let name = &buffer[..n];
    let mut file = files::open_update(rt, name).map_err(|e| fail_at(
        name,
        b"cannot open the image to read and write it",
        e,
    ))?;
    let size = files::fill(&mut file, image).map_err(|e| fail_at(
        name,
        b"cannot read the image",
        e,
    ))?;
    if size == IMAGE {
        say(b"serve: ");
        say(name);
        say(b": too large, an image of at most 4194304 bytes can be served\n");
        return Err(Said);
    }
    Ok(Opened { file, size })
}

// Serves a table that is sound for the image.
fn serve(rt: &HostRuntime, file: &File, table: &[u8], image: &mut [u8])
    requires { length image.old ≤ 4194304 }
{
    if let Err(fault) = table::check(table, image.len()) {
        faults::say_bad_table("serve", fault.number(), table, image.len());
        return;
    }
    let mut session = Session::new(rt.stdin(), table, Image::new(file, image));
    let stop = session.serve();
    tell(format_args!("serve: {stop}\n"));
}

fn run(rt: &HostRuntime, image: &mut [u8; IMAGE]) -> Result<(), Said> {
    if args::count(rt) != 3 {
        say(b"usage: serve TABLE IMAGE\nIt serves one NBD client on standard input and output.\n");
        return Err(Said);
    }
    let mut table = [0u8; TABLE];
    let n = load_table(rt, &mut table)?;
    let opened = load_image(rt, image)?;
    serve(rt, &opened.file, &table[..n], &mut image[..opened.size]);
    Ok(())
}

fn main(rt: HostRuntime) {
    // an array and the image's size beside it: a `Vec` could fail for want of memory
    let mut image = [0u8; IMAGE];
    let _ = run(&rt, &mut image);
}
