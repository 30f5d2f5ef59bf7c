//! Pieces of the screen, row by row.

ghost use Rattle.std.specs.Prelude.{◌≡◌, ℕ, ◌+◌, ◌*◌, ◌<◌, ◌≤◌, All, length, pos, ◌+ℤ◌, ◌≤ℤ◌};
ghost use Rattle.std.specs.Prelude.{◌↔◌, IfSome, IsTrue, true};
ghost use Rattle.nit_paint.specs.Terms.{Bare, HoldBuffers, IsPiece, IsWord, PixelSource, Repainted};
ghost use Rattle.nit_paint.specs.Terms.{ShowsWholeRows, Sight, among, black_or_word, has_pixel};
ghost use Rattle.nit_paint.specs.Terms.{has_slot, in_rows, index_at, least_place, long, most_place};
ghost use Rattle.nit_paint.specs.Terms.{most_side, reached, row_at, source_of_number};

use crate::block::Block;
use crate::reach::{Reach, buffer_place, row_start};
use crate::runs::{fill_run, load_run, paint_row};
use nit_stack::{Piece, Stack};
use nit_word::{BARE, Glasses};

/// Paints a piece of the screen. Where no view owns it, each pixel gets 0x000020, the word of the
/// bare screen. Else a pixel to which the buffer of the view's session does not reach gets 0, and
/// any other is loaded once, at the index that it shows, and gets what the session's words give
/// there: a word below 2^24 that is 0 or in its ink. Nothing else is loaded, no other pixel
/// changes, and of the words nothing but the session's log. `raw` has one word for each pixel of
/// the screen, row by row from the top.
pub fn paint_piece<L: Glasses>(stack: &Stack, raw: &mut [u32], piece: &Piece, glasses: &mut L)
    requires raw { length raw.old ≡ stack.now.width * stack.now.height }
    requires piece { IsPiece stack.now piece.now }
    requires stands { IfSome piece.now.owner (λ v. has_slot v.0 stack.now.views ≡ true) }
    requires held { HoldBuffers stack.now (L.sights glasses.old) }
    ensures painted { Repainted (source_of_number stack.now)
        (has_pixel stack.now.width piece.now.rect) (length raw.old)
        (L.sights glasses.old) (L.sights glasses.new) raw.old raw.new }
    ensures rest { L.rest glasses.new ≡ L.rest glasses.old }
    ensures count { length raw.new ≡ length raw.old }
    ensures words { All IsWord raw.old → All IsWord raw.new }
{
    let (width, _height) = stack.size();
    let block = Block::new(&piece.rect, width);
    let Some(v) = piece.owner else {
        bare_rows(raw, &block);
        return;
    };
    let view = stack.view(v);
    let (w, h) = stack.buffer(view.sid);
    let column = buffer_place(piece.rect.x(), view.rect.x(), view.ox);
    let row = buffer_place(piece.rect.y(), view.rect.y(), view.oy);
    let reach = Reach::new(column, block.wide, w);
    paint_rows(raw, &block, &reach, row, (w, h), view.sid, glasses);
}

/// Paints a block by a session's buffer of `size.0` columns and `size.1` rows. The block's first
/// row would show the buffer's row `row`. Rows that are whole on the screen and in the buffer are
/// loaded at once.
fn paint_rows<L: Glasses>(
    raw: &mut [u32],
    block: &Block,
    reach: &Reach,
    row: i32,
    size: (u32, u32),
    sid: u32,
    glasses: &mut L,
)
    requires pixels { block.now.width * (block.now.top + block.now.tall) ≤ length raw.old }
    requires row { (least_place ≤ℤ row) × (row ≤ℤ most_place) }
    requires size { (size.0 ≤ most_side) × (size.1 ≤ most_side) }
    requires long { long reach.now ≡ block.now.wide }
    requires columns { reach.now.from + reach.now.words ≤ size.0 }
    requires words { size.0 * size.1 ≤ (L.sights glasses.old sid).size }
    ensures painted { (source : ℕ → PixelSource)
        → ((j i : ℕ) → j < block.now.tall → i < block.now.wide
        → source (row_at block.now j + i)
        ≡ black_or_word sid (index_at size.0 (reached reach.now i) (among (row +ℤ pos j) size.1)))
        → Repainted source (in_rows block.now block.now.tall) (length raw.old)
        (L.sights glasses.old) (L.sights glasses.new) raw.old raw.new }
    ensures rest { L.rest glasses.new ≡ L.rest glasses.old }
{
    if shows_whole_rows(block, reach, row, size) {
        let at = block.top * block.width;
        let start = row as u32 * size.0;
        let count = block.tall * block.width;
        load_run(raw, at as usize, count, start, sid, glasses);
        return;
    }
    'rows: for j in 0..block.tall {
        let at = (block.top + j) * block.width + block.left;
        let start = row_start(row + j as i32, size.0, size.1);
        paint_row(raw, at as usize, reach, start, sid, glasses);
    }
}

/// Whether the block's rows are whole rows of the screen, and show whole rows of a buffer of
/// `size.0` columns and `size.1` rows, from its row `row` on. All their words stand side by side
/// then, both on the screen and in the buffer.
fn shows_whole_rows(block: &Block, reach: &Reach, row: i32, size: (u32, u32)) -> bool
    requires row { (least_place ≤ℤ row) × (row ≤ℤ most_place) }
    requires size { size.1 ≤ most_side }
    ensures { IsTrue result ↔ ShowsWholeRows block.now reach.now row size.0 size.1 }
{
    reach.words == block.width
        && size.0 == block.width
        && 0 <= row
        && row + block.tall as i32 <= size.1 as i32
}

/// Gives each pixel of a block the word of the bare screen.
fn bare_rows(raw: &mut [u32], block: &Block)
    requires { block.now.width * (block.now.top + block.now.tall) ≤ length raw.old }
    ensures { (source : ℕ → PixelSource) (glasses : ℕ → Sight)
        → ((j i : ℕ) → j < block.now.tall → i < block.now.wide
        → source (row_at block.now j + i) ≡ Bare)
        → Repainted source (in_rows block.now block.now.tall)
        (length raw.old) glasses glasses raw.old raw.new }
{
    'rows: for j in 0..block.tall {
        let at = (block.top + j) * block.width + block.left;
        fill_run(raw, at as usize, block.wide, BARE);
    }
}
