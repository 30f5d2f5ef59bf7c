//! A film while it is made.

ghost use Rattle.std.specs.Prelude.{◌≡◌, ◌<◌, ◌≤◌, ◌*◌, true, false, ◌++◌, ◌∷◌, [], IfOk, OnOk};
ghost use Rattle.std.specs.Prelude.{length};
ghost use Rattle.nit_perform.specs.Below.{HasPixels, IsPictureSize, LiesIn, cropped_bytes};
ghost use Rattle.nit_perform.specs.Below.{film_header, first_capture, most_pixels, next_record};
ghost use Rattle.nit_perform.specs.Below.{screen, with_last};

use nit_capture::Capture;
use nit_rect::{NoMemory, Rect};
use std::alloc::Global;

/// The stream of a film up to its last picture, and what takes the next one.
#[derive(Drop)]
pub struct Film {
    pub capture: Capture,
    pub bytes: Vec<u8>,
    /// How many pixels the screen has.
    pub pixels: usize,
    ghost screen: { pixels ≡ capture.width * capture.height },
    ghost few: { pixels ≤ most_pixels },
}

impl Film {
    /// The film of a rectangle of a screen, without a picture.
    pub fn new(alloc: Global, width: u32, height: u32, rect: Rect) -> Result<Film, NoMemory>
        requires size { IsPictureSize width height }
        requires inside { LiesIn rect (screen width height) }
        requires pixels { HasPixels rect }
        ensures capture { IfOk result (λ f. f.capture ≡ first_capture width height rect) }
        ensures bytes { IfOk result (λ f. f.bytes.items ≡ film_header rect.w rect.h) }
    {
        let bytes = header(alloc, &rect)?;
        let capture = Capture::new(alloc, width, height, rect)?;
        Ok(Film {
            capture,
            bytes,
            pixels: width as usize * height as usize,
        })
    }

    /// Whether these bytes are enough for a picture of the screen.
    pub fn fits(&self, bytes: &[u8]) -> bool
        ensures enough { result ≡ true
            → 3 * (self.now.capture.width * self.now.capture.height) ≤ length bytes.now }
        ensures short { result ≡ false
            → length bytes.now < 3 * (self.now.capture.width * self.now.capture.height) }
    {
        3 * self.pixels <= bytes.len()
    }

    /// Takes the next picture. A refusal leaves the film.
    pub fn add(&mut self, picture: &[u8]) -> Result<(), NoMemory>
        requires { 3 * (self.old.capture.width * self.old.capture.height) ≤ length picture.now }
        ensures capture { OnOk result (self.new.capture
            ≡ with_last self.old.capture (cropped_bytes self.old.capture picture.now)) }
        ensures bytes { OnOk result (self.new.bytes.items ≡ self.old.bytes.items
            ++ next_record self.old.capture (cropped_bytes self.old.capture picture.now)) }
        ensures screen { self.new.capture ≡ with_last self.old.capture self.new.capture.before }
    {
        self.capture.picture(picture, &mut self.bytes)
    }

    /// The whole stream.
    pub fn into_stream(self) -> Result<Vec<u8>, NoMemory>
        ensures { IfOk result (λ v. v.items ≡ self.bytes.items ++ 0 ∷ []) }
    {
        let mut bytes = self.bytes;
        bytes.push(0)?;
        Ok(bytes)
    }
}

/// What stands in front of the records of a film of this rectangle.
fn header(alloc: Global, rect: &Rect) -> Result<Vec<u8>, NoMemory>
    ensures { IfOk result (λ v. v.items ≡ film_header rect.now.w rect.now.h) }
{
    let (w, h) = (rect.w(), rect.h());
    let mut bytes = Vec::new(alloc);
    bytes.extend_from_slice(b"NCAP")?;
    bytes.extend_from_slice(&[(w % 256) as u8, (w / 256) as u8])?;
    bytes.extend_from_slice(&[(h % 256) as u8, (h / 256) as u8])?;
    Ok(bytes)
}
