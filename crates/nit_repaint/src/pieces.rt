//! Loading pieces of the screen again.

ghost use Rattle.std.specs.Prelude.{◌≡◌, true};
ghost use Rattle.nit_repaint.specs.Terms.{CanPaint, CanRepaint, FitsStack, IsRepaint, is_to_come};
ghost use Rattle.nit_repaint.specs.Terms.{source_of_number};

use crate::painter::Painter;
use nit_paint::laws::pieces_of_owners;
use nit_paint::paint_piece;
use nit_stack::Stack;
use nit_word::Glasses;

impl Painter {
    /// Paints all pixels that are to come by the cutter, each once. Each session has a word for
    /// each of its buffer's.
    pub fn paint_to_come<L: Glasses>(&mut self, stack: &Stack, glasses: &mut L)
        requires fits { FitsStack self.old.cutter stack.now }
        requires painter { CanPaint stack.now self.old (L.sights glasses.old) }
        ensures painted { IsRepaint (source_of_number stack.now)
            (is_to_come self.old.cutter stack.now) (L.sights glasses.old) (L.sights glasses.new)
            self.old self.new }
        ensures rest { L.rest glasses.new ≡ L.rest glasses.old }
    {
        pieces_of_owners();
        let _screen = stack.size();
        'pieces: while let Some(piece) = self.cutter.next(stack) {
            paint_piece(stack, self.raw.as_mut_slice(), &piece, glasses);
        }
    }

    /// Loads all pixels of the screen again.
    pub fn paint_whole<L: Glasses>(&mut self, stack: &Stack, glasses: &mut L)
        requires { CanRepaint stack.now self.old (L.sights glasses.old) }
        ensures painted { IsRepaint (source_of_number stack.now) (λ k. true)
            (L.sights glasses.old) (L.sights glasses.new) self.old self.new }
        ensures rest { L.rest glasses.new ≡ L.rest glasses.old }
    {
        self.cutter.begin_all(stack);
        self.paint_to_come(stack, glasses);
    }
}
