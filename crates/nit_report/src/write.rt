//! Bytes that are written one after the other into a slice, without memory.

ghost use Rattle.std.specs.Prelude.{◌≡◌, ◌+◌, ◌≤◌, ◌++◌, length, take, drop};
ghost use Rattle.nit_report.specs.Terms.{decimal};

/// Writes a text after the first `at` bytes, and answers where it ends. All other bytes stay.
pub fn text(out: &mut [u8], at: usize, text: &[u8]) -> usize
    requires { at + length text.now ≤ length out.old }
    ensures end { result ≡ at + length text.now }
    ensures written { take result out.new ≡ take at out.old ++ text.now }
    ensures behind { drop result out.new ≡ drop result out.old }
{
    let end = at + text.len();
    out[at..end].copy_from_slice(text);
    end
}

/// Writes a number in decimal after the first `at` bytes, and answers where it ends. All other
/// bytes stay.
pub fn number(out: &mut [u8], at: usize, n: u32) -> usize
    requires { at + length (decimal n) ≤ length out.old }
    ensures end { result ≡ at + length (decimal n) }
    ensures written { take result out.new ≡ take at out.old ++ decimal n }
    ensures behind { drop result out.new ≡ drop result out.old }
{
    if n < 10 {
        return text(out, at, &[b'0' + n as u8]);
    }
    let end = number(out, at, n / 10);
    text(out, end, &[b'0' + (n % 10) as u8])
}
