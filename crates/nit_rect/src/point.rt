/// A pixel, by its column and row. The screen's first pixel is (0, 0); rows count downwards.
#[derive(Clone, Copy, Debug, PartialEq, Eq)]
pub struct Point {
    pub x: i32,
    pub y: i32,
}
