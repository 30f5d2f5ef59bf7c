//! What a screen is shown by, besides the words of the clients.

ghost use Rattle.std.specs.Prelude.{◌≡◌};
ghost use Rattle.nit_overlay.specs.Terms.{plain_look};

use nit_events::Mode;
use nit_glyph::{Label, Lettering};
use nit_rect::Point;
use nit_stack::Stack;

/// The stack, the label of each session, the mode, the session that has the focus, and for each
/// slot of the stack the place of its view's label, which is looked at in the modes Xray and Kill
/// alone.
#[derive(Clone, Copy)]
pub struct Look<'a> {
    pub stack: &'a Stack,
    pub labels: &'a [Label],
    pub mode: Mode,
    pub focus: Option<u32>,
    pub places: &'a [Option<Point>],
}

/// A look, and how its texts are drawn: those on views, whose places are worked out for this
/// lettering, and that of the status bar.
#[derive(Clone, Copy)]
pub struct LetteredLook<'a> {
    pub look: Look<'a>,
    pub lettering: Lettering,
}

impl<'a> LetteredLook<'a> {
    /// The look with plain texts: small glyphs, each dot one pixel.
    pub fn plain(look: Look<'a>) -> LetteredLook<'a>
        ensures { result ≡ plain_look look.entry }
    {
        LetteredLook {
            look,
            lettering: Lettering::PLAIN,
        }
    }
}
