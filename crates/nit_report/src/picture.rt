//! Pictures in the P6 form: <https://netpbm.sourceforge.net/doc/ppm.html>.

ghost use Rattle.std.specs.Prelude.{◌≡◌, ◌+◌, ◌*◌, ◌<◌, ◌≤◌, ◌^◌, ◌++◌, length, take, All};
ghost use Rattle.nit_report.specs.Terms.{IsWord, channels, decimal, flat_map, most_height};
ghost use Rattle.nit_report.specs.Terms.{most_width, picture, picture_header, picture_length};

use crate::write::{number, text};

/// How many bytes the picture of a screen has.
pub fn ppm_len(w: u32, h: u32) -> usize
    requires width { w ≤ most_width }
    requires height { h ≤ most_height }
    ensures { result ≡ picture_length w h }
{
    let digits = digit_count(w) + digit_count(h);
    let header = b"P6\n".len() + b" ".len() + b"\n255\n".len() + digits;
    header + 3 * w as usize * h as usize
}

/// Writes the picture of a frame, which has a word for each pixel of the screen, row by row from
/// the top.
pub fn ppm_into(out: &mut [u8], w: u32, h: u32, frame: &[u32])
    requires screen { (w ≤ most_width) × (h ≤ most_height) }
    requires length { length out.old ≡ picture_length w h }
    requires pixels { length frame.now ≡ w * h }
    requires words { All IsWord frame.now }
    ensures { out.new ≡ picture w h frame.now }
{
    let at = write_header(out, w, h);
    write_pixels(out, at, frame);
}

/// How many digits a number has in decimal.
fn digit_count(n: u32) -> usize
    ensures count { result ≡ length (decimal n) }
    ensures few { result ≤ 10 }
{
    if n < 10 { 1 } else { digit_count(n / 10) + 1 }
}

/// Writes what stands in front of the pixels, and answers where it ends.
fn write_header(out: &mut [u8], w: u32, h: u32) -> usize
    requires { length (picture_header w h) ≤ length out.old }
    ensures end { result ≡ length (picture_header w h) }
    ensures written { take result out.new ≡ picture_header w h }
{
    let at = text(out, 0, b"P6\n");
    let at = number(out, at, w);
    let at = text(out, at, b" ");
    let at = number(out, at, h);
    text(out, at, b"\n255\n")
}

/// Writes the channels of each word after the first `at` bytes.
fn write_pixels(out: &mut [u8], at: usize, frame: &[u32])
    requires room { at + 3 * length frame.now ≤ length out.old }
    requires words { All IsWord frame.now }
    ensures { take (at + 3 * length frame.now) out.new
        ≡ take at out.old ++ flat_map channels frame.now }
{
    let mut end = at;
    for word in frame {
        end = text(
            out,
            end,
            &[
                (*word / 0x10000) as u8,
                (*word / 0x100 % 0x100) as u8,
                (*word % 0x100) as u8,
            ],
        );
    }
}
