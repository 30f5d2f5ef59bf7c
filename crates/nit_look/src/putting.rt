//! A part of a picture, put among rows of another length.

ghost use Rattle.std.specs.Prelude.{◌≡◌, ◌<◌, ◌≤◌, ◌*◌, length, true};
ghost use Rattle.nit_look.specs.Terms.{IsPartPut, has_room};

use crate::area::Area;

/// Puts a part of a frame of `width` columns into `out`, row by row from its first word on. Each
/// row of the part begins `pitch` words behind the one above. All other words of `out` stay.
pub fn put_part(frame: &[u32], width: usize, part: &Area, out: &mut [u32], pitch: usize)
    requires across { part.now.left ≤ part.now.right }
    requires down { part.now.top ≤ part.now.bottom }
    requires wide { part.now.right ≤ width }
    requires high { part.now.bottom * width ≤ length frame.now }
    requires room { has_room part.now pitch (length out.old) ≡ true }
    ensures { IsPartPut width part.now pitch frame.now out.old out.new }
{
    let wide = (part.right - part.left) as usize;
    if wide == 0 {
        return;
    }
    if wide == width && wide == pitch {
        put_at_once(frame, part, out);
        return;
    }
    'rows: for row in 0..(part.bottom - part.top) as usize {
        let from = (part.top as usize + row) * width + part.left as usize;
        let to = row * pitch;
        out[to..to + wide].copy_from_slice(&frame[from..from + wide]);
    }
}

/// Puts whole rows of a frame, which stand one behind the other in it and in `out`.
fn put_at_once(frame: &[u32], part: &Area, out: &mut [u32])
    requires left { part.now.left ≡ 0 }
    requires down { part.now.top ≤ part.now.bottom }
    requires high { part.now.bottom * part.now.right ≤ length frame.now }
    requires room { has_room part.now part.now.right (length out.old) ≡ true }
    requires some { 0 < part.now.right }
    ensures { IsPartPut part.now.right part.now part.now.right frame.now out.old out.new }
{
    let width = part.right as usize;
    let from = part.top as usize * width;
    let to = part.bottom as usize * width;
    out[..to - from].copy_from_slice(&frame[from..to]);
}

/// Whether a part of a frame has room among so many words, where each row begins `pitch` words
/// behind the one above. One without pixels has.
pub fn has_room(part: &Area, pitch: usize, words: usize) -> bool
    requires across { part.now.left ≤ part.now.right }
    requires down { part.now.top ≤ part.now.bottom }
    ensures { result ≡ has_room part.now pitch words }
{
    let wide = (part.right - part.left) as usize;
    let high = (part.bottom - part.top) as usize;
    if wide == 0 || high == 0 {
        return true;
    }
    if high > 1 && pitch < wide {
        return false;
    }
    match (high - 1).checked_mul(pitch) {
        Some(last) => last <= words && wide <= words - last,
        None => false,
    }
}
