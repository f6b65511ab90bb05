// What is written, on standard output.

// Standard output. It is written to here: `host`, which has the like, is not below this crate.
const STDOUT: i32 = 1;

pub fn text(s: &[u8]) {
    io::write_all(STDOUT, s);
}

pub fn letter(b: u8) {
    text(&[b]);
}

// A space and the number.
pub fn number(n: u64) {
    letter(b' ');
    io::print_decimal(STDOUT, n);
}

// A byte, in two digits.
fn byte(b: u8) {
    io::print_hex(STDOUT, b as u64, 2);
}

pub fn bytes(s: &[u8]) {
    for b in s {
        byte(*b);
    }
}
