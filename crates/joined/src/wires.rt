// A wire is an array and a count: the bytes on it are the first ones, the oldest first.
ghost use Rattle.std.specs.Prelude.{◌≡◌, ◌≤◌, length};
ghost use Rattle.joined.specs.Wired.{taken_off};

// Takes the first n of the `count` bytes off the wire: those behind them move to the front.
pub fn take_off(wire: &mut [u8], count: usize, n: usize)
    requires { (n ≤ count) × (count ≤ length wire.old) }
    ensures { wire.new ≡ taken_off wire.old count n }
{
    wire.copy_within(n..count, 0);
}
