// From a table to lines of text that make it again.
use crate::STDOUT;
use host::faults;
use wire::records::{Entry, Records};
use wire::table;
use wire::table::Export;

fn write(text: &[u8]) {
    io::write_all(STDOUT, text);
}

// A name's byte, between quotes.
fn write_glyph(b: u8) {
    match b {
        b'"' => write(b"\\\""),
        b'\\' => write(b"\\\\"),
        0..=31 | 127 => {
            write(b"\\x");
            io::print_hex(STDOUT, b as u64, 2);
        }
        _ => write(&[b]),
    }
}

fn write_name(name: &[u8]) {
    write(b"\"");
    for b in name {
        write_glyph(*b);
    }
    write(b"\"");
}

fn write_number(n: u64) {
    write(b" ");
    io::print_decimal(STDOUT, n);
}

fn write_if(set: bool, word: &[u8]) {
    if set {
        write(word);
    }
}

fn write_export(x: Export) {
    write_number(x.start);
    write_number(x.size);
    let f = x.flags;
    write_if(f & 1 != 0, b" readonly");
    write_if(f & 2 != 0, b" resizeable");
    write_if(f & 4 != 0, b" rotational");
    write_if(f & 8 != 0, b" trim");
    write(b"\n");
}

fn write_record(e: Entry<'_>) {
    write_name(e.name);
    write_export(e.export);
}

pub fn list(table: &[u8], image: usize) {
    match table::check(table, image) {
        Ok(()) => {
            for e in Records::of(table) {
                write_record(e);
            }
        }
        Err(fault) => faults::say_bad_table("mktable", fault.number(), table, image),
    }
}
