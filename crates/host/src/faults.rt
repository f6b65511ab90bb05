// A table that is refused: why, and which record it is.
use crate::words::tell;
use std::fmt;
use wire::records::Records;
use wire::table;

// What is wrong with a table that has the fault of this number of 01's. A number and no `Fault`, as any may be asked for.
pub fn text(fault: u8) -> &'static str {
    match fault {
        20 => "the table is empty, or its version is not 1",
        21 => "its length field is cut, out of range or past the table's end",
        22 => "it is the 33rd, and a table has at most 32",
        23 => "its window passes the image's end",
        24 => "it has an unknown flag bit",
        25 => "its name is not UTF-8",
        _ => "no fault of a table",
    }
}

// A table that has the fault of this number, for an image of so many bytes: as text, with the record that has it.
#[derive(Clone, Copy)]
struct BadTable<'a> {
    fault: u8,
    table: &'a [u8],
    image: usize,
}

// Which record has the table's first fault: the one behind those that are sound.
fn bad_record(table: &[u8], image: usize) -> usize {
    let good = Records::of(table)
        .take_while(|e| table::record_fault(*e, image).is_ok())
        .count();
    good + 1
}

impl fmt::Display for BadTable<'_> {
    fn fmt<W: fmt::Write>(&self, f: &mut fmt::Formatter<W>) -> fmt::Result {
        write!(f, "the table is refused with {}: ", self.fault)?;
        // 20, the version byte, is no record's
        if self.fault != 20 {
            write!(f, "record {}: ", bad_record(self.table, self.image))?;
        }
        f.write_str(text(self.fault))
    }
}

// A line: the program's name, and what is wrong with a table that has the fault of this number, for an image of so many bytes.
pub fn say_bad_table(who: &str, fault: u8, table: &[u8], image: usize) {
    let bad = BadTable {
        fault,
        table,
        image,
    };
    tell(format_args!("{who}: {bad}\n"));
}
