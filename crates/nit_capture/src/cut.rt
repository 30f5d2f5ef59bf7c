//! The pixels of a rectangle, cut out of a picture of the screen.

ghost use Rattle.std.specs.Prelude.{◌≡◌, ◌≤◌, ◌<◌, ◌*◌, ◌+◌, ℕ, length, map, nat_abs, slice_index};
ghost use Rattle.nit_capture.specs.Terms.{IsPartOfScreen, IsPicture, IsPlace, crop_bytes};
ghost use Rattle.nit_capture.specs.Terms.{crop_pixel, crop_row_place, most_pixels, range_with_len};
ghost use Rattle.nit_capture.specs.Terms.{word_of_bytes};

use crate::grid::Grid;
use nit_rect::Rect;

/// Writes the pixels of a rectangle on the screen into the words, by rows, as the last bytes of the
/// picture have them.
pub fn cut_into(into: &mut Vec<u32>, grid: Grid, rect: &Rect, ppm: &[u8])
    requires screen { IsPartOfScreen grid.width grid.height rect.now }
    requires room { length into.old.items ≡ rect.now.w * rect.now.h }
    requires bytes { 3 * (grid.width * grid.height) ≤ length ppm.now }
    ensures value { into.new.items ≡ crop_bytes grid.width grid.height rect.now ppm.now }
    ensures picture { IsPicture rect.now.w rect.now.h into.new.items }
{
    cut_rows(into.as_mut_slice(), grid, rect, ppm);
}

/// Writes these pixels into a slice, row by row.
fn cut_rows(into: &mut [u32], grid: Grid, rect: &Rect, ppm: &[u8])
    requires screen { IsPartOfScreen grid.width grid.height rect.now }
    requires room { length into.old ≡ rect.now.w * rect.now.h }
    requires bytes { 3 * (grid.width * grid.height) ≤ length ppm.now }
    ensures value { into.new ≡ crop_bytes grid.width grid.height rect.now ppm.now }
    ensures picture { IsPicture rect.now.w rect.now.h into.new }
{
    let wide = rect.w() as usize;
    for row in 0..rect.h() as usize {
        let at = row * wide;
        words_into(&mut into[at..at + wide], row_bytes(grid, rect, ppm, row));
    }
}

/// The bytes of a row of a rectangle on the screen.
fn row_bytes<'a>(grid: Grid, rect: &Rect, ppm: &'a [u8], row: usize) -> &'a [u8]
    requires screen { IsPartOfScreen grid.width grid.height rect.now }
    requires bytes { 3 * (grid.width * grid.height) ≤ length ppm.now }
    requires row { row < rect.now.h }
    ensures length { length result.now ≡ 3 * rect.now.w }
    ensures pixels { (j : ℕ) → j < rect.now.w → word_of_bytes result.now (3 * j)
        ≡ crop_pixel grid.width grid.height rect.now ppm.now (row * rect.now.w + j) }
    ensures bytes { (i : ℕ) → slice_index result.now i < 256 }
{
    let first = ppm.len() - 3 * (grid.width * grid.height);
    let from = first + 3 * row_start(grid, rect, row);
    &ppm[from..from + 3 * rect.w() as usize]
}

/// Where the screen's picture has the first pixel of a row of a rectangle on it.
fn row_start(grid: Grid, rect: &Rect, row: usize) -> usize
    requires screen { IsPartOfScreen grid.width grid.height rect.now }
    requires row { row < rect.now.h }
    ensures value { result ≡ crop_row_place grid.width rect.now row }
    ensures within { result + rect.now.w ≤ grid.width * grid.height }
    ensures small { grid.width * grid.height ≤ most_pixels }
{
    (natural(rect.y()) + row) * grid.width + natural(rect.x())
}

/// The distance of a column or row from 0.
fn natural(at: i32) -> usize
    requires { IsPlace at }
    ensures { result ≡ nat_abs at }
{
    at.unsigned_abs() as usize
}

/// Writes the word of each three bytes.
fn words_into(into: &mut [u32], bytes: &[u8])
    requires { length bytes.now ≡ 3 * length into.old }
    ensures { into.new
        ≡ map (λ k. word_of_bytes bytes.now (3 * k)) (range_with_len 0 (length into.old)) }
{
    for pixel in 0..into.len() {
        into[pixel] = word_at(bytes, 3 * pixel);
    }
}

/// The word of three bytes.
#[tactic(auto, unfolding(crate::specs::Crop::word_of_bytes))]
fn word_at(bytes: &[u8], at: usize) -> u32
    requires { at + 3 ≤ length bytes.now }
    ensures { result ≡ word_of_bytes bytes.now at }
{
    bytes[at] as u32 * 0x10000 + bytes[at + 1] as u32 * 0x100 + bytes[at + 2] as u32
}
