// The decimal text of a number, written into a buffer that the caller lends.
ghost use Rattle.std.specs.Prelude.{◌≡◌, ◌++◌, drop, length};
ghost use Rattle.std.specs.Fmt.{decimal as decimal_text};

/// Writes the digits of `n` in base 10, with no leading zero, at the front of `out`, and answers their number, from
/// 1 to 20. What stands behind them in `out` stays.
pub fn decimal(n: u64, out: &mut [u8; 20]) -> usize
    ensures count { result ≡ length (decimal_text n) }
    ensures digits { out.new ≡ decimal_text n ++ drop result out.old }
{
    if n < 10 {
        out[0] = b'0' + n as u8;
        return 1;
    }
    let at = decimal(n / 10, out);
    out[at] = b'0' + (n % 10) as u8;
    at + 1
}
