// A sum that cannot wrap.
ghost use Rattle.std.specs.Prelude.{◌≡◌, ◌+◌, leb};

// Whether a + b is at most n, as whole numbers.
pub fn within(a: usize, b: usize, n: usize) -> bool
    ensures { result ≡ leb (a + b) n }
{
    b <= n && a <= n - b
}
