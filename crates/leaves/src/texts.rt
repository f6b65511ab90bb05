// Texts: where each stands, by a letter: w for whole, c for cut inside a character, b for bad.
ghost use Rattle.std.specs.Prelude.{◌≡◌, [], ◌∷◌, ◌≤◌, length};
ghost use Rattle.wire.specs.Utf8.{run};
ghost use Rattle.leaves.specs.Standing.{standing};

use crate::say;
use wire::utf8::Utf8;

fn stands(u: Utf8) -> u8
    ensures { result ≡ standing u }
{
    match u {
        Utf8::Start => b'w',
        Utf8::Bad => b'b',
        _ => b'c',
    }
}

fn show(u: Utf8) {
    say::letter(stands(u));
}

// The text v, a byte at a time.
fn singly(v: &[u8]) -> Utf8
    ensures { result ≡ run Utf8.Start v.now }
{
    let mut u = Utf8::new();
    for b in v {
        u = u.next(*b);
    }
    u
}

// The text v in two parts, the first of k bytes.
fn in_two(v: &[u8], k: usize) -> Utf8
    requires { k ≤ length v.now }
    ensures { result ≡ run Utf8.Start v.now }
{
    let (front, back) = v.split_at(k);
    Utf8::new().run(front).run(back)
}

// Cut at each place, from before the first byte to behind the last.
fn each_cut(v: &[u8]) {
    for k in 0..=v.len() {
        show(in_two(v, k));
    }
}

// The text v whole, a byte at a time, and in two parts.
pub fn text(v: &[u8]) {
    say::letter(b' ');
    show(Utf8::new().run(v));
    say::letter(b' ');
    show(singly(v));
    say::letter(b' ');
    each_cut(v);
}

// The text of these two bytes.
fn pair(a: u8, b: u8) -> Utf8
    ensures { result ≡ run Utf8.Start (a ∷ b ∷ []) }
{
    Utf8::new().run(&[a, b])
}

// The first byte a with each second byte.
pub fn pairs(a: u8) {
    say::letter(b' ');
    for b in 0..=u8::MAX {
        show(pair(a, b));
    }
}
