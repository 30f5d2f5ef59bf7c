//! Where a picture has the pixels of a tile.

ghost use Rattle.std.specs.Prelude.{◌≡◌, ◌≢◌, ◌≤◌, ◌<◌, ◌+◌, ◌*◌, true, false, length};
ghost use Rattle.nit_capture.specs.Tiles.{IsPictureSize, tiles_along, tile_count, left_of, top_of};
ghost use Rattle.nit_capture.specs.Tiles.{wide, high, area, place, row_place, differs, tile_side};
ghost use Rattle.nit_capture.specs.Tiles.{most_area, most_across, most_tiles};

/// How many columns and rows a tile has that is not cut off.
pub const SIDE: usize = 16;

/// The size of a picture.
#[derive(Clone, Copy)]
pub struct Grid {
    pub width: usize,
    pub height: usize,
    ghost size: { IsPictureSize width height },
}

impl Grid {
    /// How many tiles there are.
    #[tactic(auto, unfolding(crate::specs::Tiles::tile_count, crate::specs::Tiles::tiles_along))]
    pub fn tiles(self) -> usize
        ensures value { result ≡ tile_count self.width self.height }
        ensures few { result ≤ most_tiles }
    {
        self.across() * self.height.div_ceil(SIDE)
    }

    /// How many tiles stand side by side.
    #[tactic(auto, unfolding(crate::specs::Tiles::tiles_along))]
    fn across(self) -> usize
        ensures value { result ≡ tiles_along self.width }
        ensures some { 1 ≤ result }
        ensures few { result ≤ most_across }
    {
        (self.width + SIDE - 1) / SIDE
    }
}

/// A tile of the pictures of a size, by its number.
#[derive(Clone, Copy)]
pub struct Tile {
    pub grid: Grid,
    pub number: usize,
    ghost in_picture: { number < tile_count grid.width grid.height },
}

impl Tile {
    /// Its left column.
    #[tactic(auto, using(crate::proofs::Tiles::left_fits), unfolding(crate::specs::Tiles::left_of))]
    fn left(self) -> usize
        ensures value { result ≡ left_of self.grid.width self.number }
        ensures within { result < self.grid.width }
    {
        SIDE * (self.number % self.grid.across())
    }

    /// Its top row.
    #[tactic(auto, using(crate::proofs::Tiles::top_fits), unfolding(crate::specs::Tiles::top_of))]
    fn top(self) -> usize
        ensures value { result ≡ top_of self.grid.width self.number }
        ensures within { result < self.grid.height }
    {
        SIDE * (self.number / self.grid.across())
    }

    /// How many columns it has.
    #[tactic(auto, unfolding(crate::specs::Tiles::wide))]
    pub fn wide(self) -> usize
        ensures value { result ≡ wide self.grid.width self.number }
        ensures some { 1 ≤ result }
        ensures few { result ≤ tile_side }
    {
        SIDE.min(self.grid.width - self.left())
    }

    /// How many rows it has.
    #[tactic(auto, unfolding(crate::specs::Tiles::high))]
    pub fn high(self) -> usize
        ensures value { result ≡ high self.grid.width self.grid.height self.number }
        ensures few { result ≤ tile_side }
    {
        SIDE.min(self.grid.height - self.top())
    }

    /// Where the picture has the first pixel of one of its rows.
    #[tactic(auto, unfolding(crate::specs::Tiles::row_place))]
    pub fn row(self, row: usize) -> usize
        requires row { row < high self.grid.width self.grid.height self.number }
        ensures value { result ≡ row_place self.grid.width self.number row }
        ensures within { result + wide self.grid.width self.number
            ≤ self.grid.width * self.grid.height }
    {
        (self.top() + row) * self.grid.width + self.left()
    }

    /// How many pixels it has.
    #[tactic(auto, unfolding(crate::specs::Tiles::area))]
    pub fn area(self) -> usize
        ensures value { result ≡ area self.grid.width self.grid.height self.number }
        ensures few { result ≤ most_area }
    {
        self.high() * self.wide()
    }

    /// Where the picture has one of its pixels.
    #[tactic(auto, unfolding(crate::specs::Tiles::place))]
    pub fn place(self, pixel: usize) -> usize
        requires pixel { pixel < area self.grid.width self.grid.height self.number }
        ensures value { result ≡ place self.grid.width self.number pixel }
        ensures within { result < self.grid.width * self.grid.height }
    {
        let wide = self.wide();
        let (down, across) = (self.top() + pixel / wide, self.left() + pixel % wide);
        down * self.grid.width + across
    }

    /// Whether two pictures differ in one of its pixels.
    pub fn differs(self, before: &[u32], now: &[u32]) -> bool
        requires before { length before.now ≡ self.grid.width * self.grid.height }
        requires now { length now.now ≡ self.grid.width * self.grid.height }
        ensures { result ≡ differs self.grid.width self.grid.height before.now now.now self.number }
    {
        let wide = self.wide();
        for row in 0..self.high() {
            let at = self.row(row);
            if !same_words(&before[at..at + wide], &now[at..at + wide]) {
                return true;
            }
        }
        false
    }
}

/// Whether two lists of words are equal.
fn same_words(a: &[u32], b: &[u32]) -> bool
    ensures yes { result ≡ true → a.now ≡ b.now }
    ensures no { result ≡ false → a.now ≢ b.now }
{
    a == b
}
