// Numbers written in decimal.
ghost use Rattle.std.specs.Prelude.{◌≡◌, ℕ, ◌≤◌, ◌++◌, length, drop, decimal};

// How many digits the decimal form of `n` has.
pub(crate) fn digit_count(n: u32) -> usize
    ensures value { result ≡ length (decimal n) }
    ensures bound { result ≤ 10 }
{
    n.checked_ilog10().map_or(1, |k| k as usize + 1)
}

// Writes the decimal form of `n` at the front of `out`, and says how long it is.
pub(crate) fn write_u32(out: &mut [u8], n: u32) -> usize
    requires { length (decimal n) ≤ length out.old }
    ensures value { result ≡ length (decimal n) }
    ensures after { out.new ≡ decimal n ++ drop (length (decimal n)) out.old }
{
    let count = digit_count(n);
    let mut left = n;
    // By index: what is written through `iter_mut` is not known afterwards.
    for at in (1..count).rev() {
        out[at] = b'0' + (left % 10) as u8;
        left /= 10;
    }
    out[0] = b'0' + left as u8;
    count
}
