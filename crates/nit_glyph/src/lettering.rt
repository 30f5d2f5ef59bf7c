//! How texts are drawn.

ghost use Rattle.std.specs.Prelude.{◌≡◌};
ghost use Rattle.nit_glyph.specs.Terms.{columns_of, rows_of};

/// The glyphs that a text is drawn in.
#[derive(Clone, Copy, Debug, PartialEq, Eq)]
pub enum Glyphs {
    /// Three columns and five rows each.
    Small,
    /// Five columns and seven rows each, any two of which differ in at least five dots.
    Large,
}

impl Glyphs {
    /// The columns of each glyph.
    pub(crate) fn columns(self) -> u32
        ensures { result ≡ columns_of self }
    {
        match self {
            Glyphs::Small => 3,
            Glyphs::Large => 5,
        }
    }

    /// The rows of each glyph.
    pub(crate) fn rows(self) -> u32
        ensures { result ≡ rows_of self }
    {
        match self {
            Glyphs::Small => 5,
            Glyphs::Large => 7,
        }
    }
}

/// How texts are drawn: in which glyphs, and how many pixels each dot is wide and high.
#[derive(Clone, Copy, Debug, PartialEq, Eq)]
pub struct Lettering {
    pub glyphs: Glyphs,
    /// The side of a dot in pixels, 1..=8.
    pub scale: u32,
}

impl Lettering {
    /// Small glyphs, each dot one pixel.
    pub const PLAIN: Lettering = Lettering {
        glyphs: Glyphs::Small,
        scale: 1,
    };
}
