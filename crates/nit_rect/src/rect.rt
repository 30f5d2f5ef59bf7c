ghost use Rattle.std.specs.Prelude.{◌≡◌, ◌↔◌, ◌≤◌, ◌*◌, IsTrue, IsSome, IfSome};
ghost use Rattle.nit_rect.specs.Terms.{CoversBoth, HasPixels, IsApart, IsPlace, LiesIn, covers};
ghost use Rattle.nit_rect.specs.Terms.{empty_rectangle, is_rectangle, most_length, rectangle};
ghost use Rattle.nit_rect.specs.Terms.{spans};

use crate::limits::{FIRST_PLACE, LAST_PLACE, MOST_LENGTH};
use crate::point::Point;
use crate::span::Span;
use crate::strips::Strips;
use std::marker::Model;

/// A rectangle of pixels: its left column, its top row, its width and its height. The place is
/// -32768..=32767 each way, and the lengths are 0..=32767.
#[derive(Clone, Copy, Debug, PartialEq, Eq)]
pub struct Rect {
    x: i16,
    y: i16,
    w: u16,
    h: u16,
}

impl Model for Rect {
    ghost use Rattle.std.specs.Prelude.{◌≡◌, true};
    ghost use Rattle.nit_rect.specs.Rectangle.{Rectangle, is_rectangle};

    ghost Value = { Rectangle };

    ghost view = { λ r. record { x = r.x; y = r.y; w = r.w; h = r.h } };

    ghost invariant = { λ r. is_rectangle r.x r.y r.w r.h ≡ true };

    ghost inverse = { λ r. record { x = r.x; y = r.y; w = r.w; h = r.h } };
}

impl Rect {
    ghost use Rattle.nit_rect.specs.Strips.{IsScreenRectangle, IsDivided};

    /// The rectangle of these numbers. None exactly where one is out of range.
    pub fn new(x: i32, y: i32, w: u32, h: u32) -> Option<Rect>
        ensures some { IsSome result ↔ IsTrue (is_rectangle x y w h) }
        ensures value { IfSome result (λ r. r ≡ rectangle x y w h) }
    {
        if in_range(x, y, w, h) {
            Some(Rect::of(x, y, w, h))
        } else {
            None
        }
    }

    /// The rectangle of these numbers, each of which is in range.
    pub fn of(x: i32, y: i32, w: u32, h: u32) -> Rect
        requires { IsTrue (is_rectangle x y w h) }
        ensures { result ≡ rectangle x y w h }
    {
        Rect {
            x: x as i16,
            y: y as i16,
            w: w as u16,
            h: h as u16,
        }
    }

    /// Whether the pixel lies in the rectangle.
    pub fn covers(&self, p: Point) -> bool
        ensures { result ≡ covers self.now p }
    {
        is_within(self.x, self.w, p.x) && is_within(self.y, self.h, p.y)
    }

    /// The rectangle of the pixels that both cover. Where there are none it is (0, 0, 0, 0).
    pub fn meet(&self, r: &Rect) -> Rect
        ensures both { CoversBoth self.now r.now result }
        ensures none { IsApart self.now r.now → result ≡ empty_rectangle }
    {
        let (columns, rows) = self.common(r);
        if columns.long == 0 || rows.long == 0 {
            return Rect {
                x: 0,
                y: 0,
                w: 0,
                h: 0,
            };
        }
        of_spans(columns, rows)
    }

    /// Whether no pixel lies in both.
    pub fn is_apart(&self, r: &Rect) -> bool
        ensures { IsTrue result ↔ IsApart self.now r.now }
    {
        let (columns, rows) = self.common(r);
        columns.long == 0 || rows.long == 0
    }

    /// The columns that both have, and the rows.
    fn common(&self, r: &Rect) -> (Span, Span)
        ensures { CoversBoth self.now r.now
            (rectangle result.0.from result.1.from result.0.long result.1.long) }
    {
        let columns = self.columns().meet(r.columns());
        let rows = self.rows().meet(r.rows());
        (columns, rows)
    }

    /// Whether `r` covers every pixel of this rectangle. One without pixels is inside all others.
    pub fn inside(&self, r: &Rect) -> bool
        ensures { IsTrue result ↔ LiesIn self.now r.now }
    {
        let across = self.columns().is_within(r.columns());
        let down = self.rows().is_within(r.rows());
        self.area() == 0 || across && down
    }

    /// The number of pixels.
    pub fn area(&self) -> u64
        ensures { result ≡ self.now.w * self.now.h }
    {
        self.w as u64 * self.h as u64
    }

    /// What is left of this rectangle where `cut` is taken out: with the cut, the four strips have
    /// each of its pixels once. This rectangle lies on a screen of 4096 by 4096, and the cut lies
    /// in it and has pixels.
    pub fn strips(&self, cut: &Rect) -> Strips
        requires screen { IsScreenRectangle self.now }
        requires inside { LiesIn cut.now self.now }
        requires pixels { HasPixels cut.now }
        ensures { IsDivided self.now cut.now result }
    {
        let (wide, high) = (self.columns(), self.rows());
        let (cut_wide, cut_high) = (cut.columns(), cut.rows());
        let columns = wide.without(cut_wide);
        let rows = high.without(cut_high);
        Strips {
            top: of_spans(wide, rows.before),
            left: of_spans(columns.before, cut_high),
            right: of_spans(columns.after, cut_high),
            bottom: of_spans(wide, rows.after),
        }
    }

    fn columns(&self) -> Span
        ensures from { result.from ≡ self.now.x }
        ensures long { result.long ≡ self.now.w }
    {
        Span {
            from: self.x,
            long: self.w,
        }
    }

    fn rows(&self) -> Span
        ensures from { result.from ≡ self.now.y }
        ensures long { result.long ≡ self.now.h }
    {
        Span {
            from: self.y,
            long: self.h,
        }
    }

    /// The left column.
    pub fn x(&self) -> i32
        ensures value { result ≡ self.now.x }
        ensures range { IsPlace result }
    {
        self.x as i32
    }

    /// The top row.
    pub fn y(&self) -> i32
        ensures value { result ≡ self.now.y }
        ensures range { IsPlace result }
    {
        self.y as i32
    }

    /// The number of columns.
    pub fn w(&self) -> u32
        ensures value { result ≡ self.now.w }
        ensures range { result ≤ most_length }
    {
        self.w as u32
    }

    /// The number of rows.
    pub fn h(&self) -> u32
        ensures value { result ≡ self.now.h }
        ensures range { result ≤ most_length }
    {
        self.h as u32
    }
}

/// The rectangle of these columns and rows.
fn of_spans(columns: Span, rows: Span) -> Rect
    ensures { result ≡ rectangle columns.from rows.from columns.long rows.long }
{
    Rect {
        x: columns.from,
        y: rows.from,
        w: columns.long,
        h: rows.long,
    }
}

/// Whether these four are the numbers of a rectangle.
fn in_range(x: i32, y: i32, w: u32, h: u32) -> bool
    ensures { result ≡ is_rectangle x y w h }
{
    FIRST_PLACE <= x
        && x <= LAST_PLACE
        && FIRST_PLACE <= y
        && y <= LAST_PLACE
        && w <= MOST_LENGTH
        && h <= MOST_LENGTH
}

/// Whether `at` is among the `long` places from `from` on.
fn is_within(from: i16, long: u16, at: i32) -> bool
    ensures { result ≡ spans from long at }
{
    let from = from as i32;
    from <= at && at < from + long as i32
}
