// Big-endian numbers in slices, and the test for a fixed string.
ghost use Rattle.std.specs.Prelude.{◌≡◌, ℕ, ◌+◌, ◌^◌, ◌<◌, ◌≤◌, length, take, drop};
ghost use Rattle.std.proofs.Math.Seq.{paste};
ghost use Rattle.std.proofs.Common.{rules};
ghost use Rattle.wire.specs.Fields.{be, number, field, same_bytes};

// A type of numbers that stand on the wire in so many bytes.
pub trait Field: Copy {
    ghost BYTES: { ℕ };

    ghost value: { Self → ℕ };

    const BYTES: usize;

    fn from_wide(x: u64) -> Self
        requires { x < 256 ^ BYTES }
        ensures { value result ≡ x };

    fn wide(self) -> u64
        ensures { result ≡ value self };

    // No number is wider than 64 bits.
    ghost narrow: { BYTES ≤ 8 };
}

// Three impls that differ in a width: one that a macro of this repository wrote would be refused.
impl Field for u16 {
    ghost BYTES = { 2 };

    ghost value = { λ x. x };

    ghost narrow = { Prim.search rules };

    const BYTES: usize = 2;

    fn from_wide(x: u64) -> u16 {
        x as u16
    }

    fn wide(self) -> u64 {
        self as u64
    }
}

impl Field for u32 {
    ghost BYTES = { 4 };

    ghost value = { λ x. x };

    ghost narrow = { Prim.search rules };

    const BYTES: usize = 4;

    fn from_wide(x: u64) -> u32 {
        x as u32
    }

    fn wide(self) -> u64 {
        self as u64
    }
}

impl Field for u64 {
    ghost BYTES = { 8 };

    ghost value = { λ x. x };

    ghost narrow = { Prim.search rules };

    const BYTES: usize = 8;

    fn from_wide(x: u64) -> u64 {
        x
    }

    fn wide(self) -> u64 {
        self
    }
}

// The number that the bytes stand for. std's `from_be_bytes` takes an array of one type's own length, and a field's length is `T::BYTES`.
fn number(bytes: &[u8]) -> u64
    requires { length bytes.now ≤ 8 }
    ensures { result ≡ number bytes.now }
{
    let mut x = 0;
    for b in bytes {
        x = x * 256 + *b as u64;
    }
    x
}

// The number in the field from `at` on.
pub fn read<T: Field>(s: &[u8], at: usize) -> T
    requires { at + T.BYTES ≤ length s.now }
    ensures { T.value result ≡ field s.now at T.BYTES }
{
    T::from_wide(number(&s[at..at + T::BYTES]))
}

// Writes the n low bytes of x from `at` on.
fn put_number(dst: &mut [u8], at: usize, n: usize, x: u64)
    requires { (n ≤ 8) × (at + n ≤ length dst.old) }
    ensures { dst.new ≡ paste dst.old at (be n x) n }
{
    for i in 0..n {
        dst[at + i] = ((x >> (8 * (n - 1 - i))) % 256) as u8;
    }
}

// Writes x as a field from `at` on.
pub fn write<T: Field>(dst: &mut [u8], at: usize, x: T)
    requires { at + T.BYTES ≤ length dst.old }
    ensures { dst.new ≡ paste dst.old at (be T.BYTES (T.value x)) T.BYTES }
{
    put_number(dst, at, T::BYTES, x.wide());
}

// Whether two slices of one length hold the same bytes.
#[tactic(auto, using(crate::proofs::BigEndian::same_pointwise))]
pub fn same(a: &[u8], b: &[u8]) -> bool
    requires { length a.now ≡ length b.now }
    ensures { result ≡ same_bytes a.now b.now }
{
    a == b
}

// Whether the 8 bytes from `at` on are the fixed string.
pub fn same_bytes(s: &[u8], at: usize, magic: &[u8; 8]) -> bool
    requires { at + 8 ≤ length s.now }
    ensures { result ≡ same_bytes (take 8 (drop at s.now)) magic.now }
{
    same(&s[at..at + 8], magic)
}
