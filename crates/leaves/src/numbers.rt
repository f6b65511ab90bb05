// Fields of 2, 4 and 8 bytes, written to a room of 12 bytes EE and read from it; the arithmetic of the client's calls.
ghost use Rattle.std.specs.Prelude.{◌≡◌, ◌+◌, ◌≤◌};
ghost use Rattle.wire.specs.Fields.{field};

use crate::say;
use wire::fields::Field;
use wire::{fields, number};

// ---- fields

// The room after a field is written to it, and the number that is read there.
fn shown(room: &[u8; 12], back: u64) {
    say::letter(b' ');
    say::bytes(room);
    say::number(back);
}

// The field that stands at the place.
fn read<T: Field>(room: &[u8; 12], at: usize) -> T
    requires { at + T.BYTES ≤ 12 }
    ensures { T.value result ≡ field room.now at T.BYTES }
{
    fields::read(room, at)
}

fn written<T: Field>(at: usize, x: T)
    requires { at + T.BYTES ≤ 12 }
{
    let mut room = [0xEEu8; 12];
    fields::write(&mut room, at, x);
    shown(&room, read::<T>(&room, at).wide());
}

// The number x in a field of its width at the place y.
pub fn field<T: Field>(y: u64, x: T) {
    if y <= 4 {
        written(y as usize, x);
    } else {
        say::letter(b'?');
    }
}

// ---- clamp_to_u32 and clamp_usize_to_u32

pub fn clamp(x: u64) {
    say::number(number::clamp_to_u32(x) as u64);
    say::number(number::clamp_usize_to_u32(x as usize) as u64);
}

// ---- checked_add_i64

pub fn add(x: u64, y: u64) {
    match number::checked_add_i64(x, number::signed(y)) {
        Some(n) => say::number(n),
        None => say::text(b" refused"),
    }
}
