// Arithmetic of the client's calls.
ghost use Rattle.std.specs.Prelude.{◌≡◌};
ghost use Rattle.wire.specs.Numbers.{clamped, added, twos};

// x, or the greatest 32-bit number.
pub fn clamp_to_u32(x: u64) -> u32
    ensures { result ≡ clamped x }
{
    u32::try_from(x).unwrap_or(u32::MAX)
}

// The two names are the crate's. A usize is not `Into<u64>`, so one generic function would want a trait for this one cast.
pub fn clamp_usize_to_u32(x: usize) -> u32
    ensures { result ≡ clamped x }
{
    clamp_to_u32(x as u64)
}

// The position p moved by d. An i64 that leads back is negated; the lowest has no negation in its type and is refused.
#[tactic(auto, unfolding(crate::specs::Numbers::added))]
pub fn checked_add_i64(p: u64, d: i64) -> Option<u64>
    ensures { result ≡ added p d }
{
    if d >= 0 {
        p.checked_add(d as u64)
    } else {
        let down = d.checked_neg()?;
        p.checked_sub(down as u64)
    }
}

// The signed number whose two's complement is x.
pub fn signed(x: u64) -> i64
    ensures { result ≡ twos x }
{
    x.cast_signed()
}
