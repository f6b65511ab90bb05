// What `trace` writes and lends: words, numbers and bytes on standard output (here), lines (`answer`), where things stand (`places`), and the
// buffers around a step, and the step itself (`buffers`).
#![tactic(auto)]

pub mod answer;
pub mod buffers;
pub mod places;

ghost use Rattle.std.specs.Prelude.{◌≡◌, ◌*◌, ◌<◌, ◌≤◌, length};
ghost use Rattle.std.proofs.Math.Seq.{paste};
ghost use Rattle.io.specs.Digits.{hex_digit_ascii};
ghost use Rattle.lines.specs.Hex.{hex_of};

// Standard output. `text` and `number` stand here too: `host`, which has the like, is not below this crate.
const STDOUT: i32 = 1;

pub fn text(s: &[u8]) {
    io::write_all(STDOUT, s);
}

// A space and the number.
pub fn number(n: u64) {
    text(b" ");
    io::print_decimal(STDOUT, n);
}

// A space, and 1 or 0.
pub fn bit(b: bool) {
    text(if b { b" 1" } else { b" 0" });
}

// A hex digit. `hex_of` is promised of what is written, and the kit's print_hex writes a byte at a time.
fn digit(d: u8) -> u8
    requires { d < 16 }
    ensures { result ≡ hex_digit_ascii d }
{
    if d < 10 { 48 + d } else { 87 + d }
}

// Puts the digits of all the bytes at the front of out.
fn spell(bytes: &[u8], out: &mut [u8])
    requires { 2 * length bytes.now ≤ length out.old }
    ensures { out.new ≡ paste out.old 0 (hex_of bytes.now) (2 * length bytes.now) }
{
    for (i, &b) in bytes.iter().enumerate() {
        out[2 * i] = digit(b / 16);
        out[2 * i + 1] = digit(b % 16);
    }
}

// Writes at most 2,048 bytes in hex.
fn hex_part(bytes: &[u8])
    requires { length bytes.now ≤ 2048 }
{
    let mut out = io::buffer();
    let n = 2 * bytes.len();
    spell(bytes, &mut out);
    io::write_all(STDOUT, &out[..n]);
}

// A space, and the bytes in hex: `-` for none.
pub fn hex(bytes: &[u8]) {
    if bytes.is_empty() {
        text(b" -");
        return;
    }
    text(b" ");
    for part in bytes.chunks(2048) {
        hex_part(part);
    }
}
