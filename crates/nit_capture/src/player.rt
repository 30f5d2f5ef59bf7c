//! A film's bytes, played picture by picture.

ghost use Rattle.std.specs.Prelude.{◌≡◌, ◌≢◌, ◌∷◌, ℕ, List, [], IsSome, IfSome, true, false};
ghost use Rattle.nit_capture.specs.Terms.{Bad, End, Frame, IsPicture, IsPictureSize};

use crate::grid::Grid;
use crate::reading::take_record;
use nit_rect::{MOST_RUN_HEIGHT, MOST_RUN_WIDTH};
use std::marker::Model;

/// What playing on gave.
#[derive(Clone, Copy, Debug, PartialEq, Eq)]
pub enum Played {
    /// The next picture.
    Frame,
    /// The film's end.
    End,
    /// Bytes that go on with neither.
    Bad,
}

/// The bytes of a film that are still to be played, and the size of its pictures.
#[derive(Drop)]
pub struct Player<'a> {
    width: usize,
    height: usize,
    rest: &'a [u8],
}

impl<'a> Model for Player<'a> {
    ghost use Rattle.nit_capture.specs.Tiles.{IsPictureSize};
    ghost use Rattle.nit_capture.specs.Player.{PlayerModel};

    ghost Value = { PlayerModel };

    ghost view = { λ p. record { width = p.width; height = p.height; rest = p.rest.now } };

    ghost invariant = { λ p. IsPictureSize p.width p.height };
}

impl<'a> Player<'a> {
    ghost use Rattle.nit_capture.specs.Player.{PlayerModel, BeginsFilm, GoesOn};

    /// A player of the film whose stream the bytes are. None exactly where the bytes do not begin
    /// with `NCAP`, a width of 1 to 1024 and a height of 1 to 768, in pixels. What follows is
    /// looked at only when it is played.
    pub fn new(bytes: &'a [u8]) -> Option<Player<'a>>
        ensures begins { IfSome result (λ p. BeginsFilm bytes.now p) }
        ensures exact { (p : PlayerModel) → BeginsFilm bytes.now p → IsSome result }
    {
        let [b'N', b'C', b'A', b'P', w0, w1, h0, h1, rest @ ..] = bytes else {
            return None;
        };
        let width = *w0 as usize + *w1 as usize * 256;
        let height = *h0 as usize + *h1 as usize * 256;
        if 1 <= width
            && width <= MOST_RUN_WIDTH as usize
            && 1 <= height
            && height <= MOST_RUN_HEIGHT as usize
        {
            Some(Player {
                width,
                height,
                rest,
            })
        } else {
            None
        }
    }

    /// The width and the height of each picture, in pixels: 1 to 1024, and 1 to 768.
    pub fn size(&self) -> (u32, u32)
        ensures value { (result.0 ≡ self.now.width) × (result.1 ≡ self.now.height) }
        ensures within { IsPictureSize self.now.width self.now.height }
    {
        (self.width as u32, self.height as u32)
    }

    /// Plays the next picture into the frame. The frame has a word below 2^24 for each pixel, by
    /// rows. It has the picture before, and is black (all 0) at first.
    ///
    /// `Frame` comes exactly where the bytes that are left begin with a record after that picture;
    /// then the record's picture is in the frame. `End` comes exactly where the one byte 0 is left,
    /// and then comes again. In all other cases `Bad` comes, and from then on: the frame may then
    /// have a part of a picture.
    pub fn next(&mut self, frame: &mut [u32]) -> Played
        requires { IsPicture self.old.width self.old.height frame.old }
        // Each answer comes exactly where it should.
        ensures frame { result ≡ Frame → GoesOn self.old frame.old frame.new self.new.rest }
        ensures is_frame { (now rest : List ℕ) →
            GoesOn self.old frame.old now rest → result ≡ Frame }
        ensures end { result ≡ End → self.old.rest ≡ 0 ∷ [] }
        ensures is_end { self.old.rest ≡ 0 ∷ [] → result ≡ End }
        // What is left.
        ensures stays { result ≡ End → (self.new ≡ self.old) × (frame.new ≡ frame.old) }
        ensures over { result ≡ Bad → self.new.rest ≡ [] }
        ensures size { (self.new.width ≡ self.old.width) × (self.new.height ≡ self.old.height) }
        ensures picture { IsPicture self.old.width self.old.height frame.new }
    {
        if is_end(self.rest) {
            return Played::End;
        }
        let grid = Grid {
            width: self.width,
            height: self.height,
        };
        match take_record(grid, self.rest, frame) {
            Some(rest) => {
                self.rest = rest;
                Played::Frame
            }
            None => {
                self.rest = &self.rest[..0];
                Played::Bad
            }
        }
    }
}

/// Whether bytes are the end of a film.
fn is_end(bytes: &[u8]) -> bool
    ensures yes { result ≡ true → bytes.now ≡ 0 ∷ [] }
    ensures no { result ≡ false → bytes.now ≢ 0 ∷ [] }
{
    matches!(bytes, [0])
}
