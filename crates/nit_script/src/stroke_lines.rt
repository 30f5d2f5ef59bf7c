//! The strokes of a client's script, each read from its first word to its last.

ghost use Rattle.nit_script.specs.Terms.{Gives, check_at, fill_at, stroke_at};

use crate::bytes::take_word;
use crate::fields::{colour_field, natural_field};
use crate::line::Stroke;

/// The stroke in front, and what follows it.
#[tactic(auto, unfolding(crate::specs::LineReaders::stroke_at))]
pub fn take_stroke(bytes: &[u8]) -> Option<(Stroke, &[u8])>
    ensures { Gives (λ x. (x.0, x.1.now)) result (stroke_at bytes.now) }
{
    if let Some(found) = fill(bytes) {
        return Some(found);
    }
    check(bytes)
}

#[tactic(auto, unfolding(crate::specs::LineReaders::fill_at))]
fn fill(bytes: &[u8]) -> Option<(Stroke, &[u8])>
    ensures { Gives (λ x. (x.0, x.1.now)) result (fill_at bytes.now) }
{
    let rest = take_word(bytes, b"fill")?;
    let (x, rest) = natural_field(rest)?;
    let (y, rest) = natural_field(rest)?;
    let (w, rest) = natural_field(rest)?;
    let (h, rest) = natural_field(rest)?;
    let (c, rest) = colour_field(rest)?;
    Some((Stroke::Fill { x, y, w, h, c }, rest))
}

#[tactic(auto, unfolding(crate::specs::LineReaders::check_at))]
fn check(bytes: &[u8]) -> Option<(Stroke, &[u8])>
    ensures { Gives (λ x. (x.0, x.1.now)) result (check_at bytes.now) }
{
    let rest = take_word(bytes, b"check")?;
    let (x, rest) = natural_field(rest)?;
    let (y, rest) = natural_field(rest)?;
    let (w, rest) = natural_field(rest)?;
    let (h, rest) = natural_field(rest)?;
    let (c, rest) = colour_field(rest)?;
    let (d, rest) = colour_field(rest)?;
    Some((Stroke::Check { x, y, w, h, c, d }, rest))
}
