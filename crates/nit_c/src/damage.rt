//! What of the screen has changed, and a part of it that is copied.

ghost use Rattle.std.specs.Prelude.{◌≡◌, ◌≤◌};
ghost use Rattle.nit_c.specs.Terms.{HasParts, IsPartCopied, IsCopiedBy, IsDamage, IsDamageBy};
ghost use Rattle.nit_c.specs.Terms.{IsNoDamage, area_at, c_part, uncopied_number};

use crate::handle::NitServer;
use crate::numbers::{BAD_RECT, DONE, NO_SERVER, WRONG_FRAME};
use nit_host::{Host, Uncopied};
use nit_look::{Area, MOST_PARTS, Parts};
use std::alloc::Global;

/// A part of the screen.
#[repr(C)]
#[derive(Clone, Copy)]
pub struct NitPart {
    /// The first column.
    pub x: u32,
    /// The first row.
    pub y: u32,
    /// How many columns.
    pub w: u32,
    /// How many rows.
    pub h: u32,
}

/// The parts of the screen in which pixels may have changed: the first `count` of `part`. All
/// behind them is 0.
#[repr(C)]
#[derive(Clone, Copy)]
pub struct NitDamage {
    /// The kind of the answer.
    pub kind: u32,
    /// 0..=16.
    pub count: u32,
    /// The parts, no two of which meet.
    pub part: [NitPart; MOST_PARTS],
}

/// No part.
const NO_PART: NitPart = NitPart {
    x: 0,
    y: 0,
    w: 0,
    h: 0,
};

/// An area as C reads it.
fn part_of(area: &Area) -> NitPart
    requires across { area.now.left ≤ area.now.right }
    requires down { area.now.top ≤ area.now.bottom }
    ensures { result ≡ c_part area.now }
{
    NitPart {
        x: area.left,
        y: area.top,
        w: area.right - area.left,
        h: area.bottom - area.top,
    }
}

/// An answer without parts.
fn no_damage(kind: u32) -> NitDamage
    ensures { IsNoDamage kind result }
{
    NitDamage {
        kind,
        count: 0,
        part: [NO_PART; MOST_PARTS],
    }
}

/// Parts as C reads them.
fn damage_of(parts: &Parts) -> NitDamage
    ensures kind { result.kind ≡ 1 }
    ensures parts { HasParts parts.now result }
{
    let areas = parts.as_slice();
    let mut part = [NO_PART; MOST_PARTS];
    'areas: for place in 0..areas.len() {
        part[place] = part_of(&areas[place]);
    }
    NitDamage {
        kind: DONE,
        count: areas.len() as u32,
        part,
    }
}

/// Looks at what has changed.
fn damage(host: &mut Host) -> NitDamage
    ensures { IsDamage host.old host.new result }
{
    damage_of(&host.damage())
}

/// Why a part is not copied.
fn uncopied_number(why: Uncopied) -> u32
    ensures { result ≡ uncopied_number why }
{
    match why {
        Uncopied::BadRect => BAD_RECT,
        Uncopied::WrongFrame => WRONG_FRAME,
    }
}

/// Copies a part of the frame.
fn copy(host: &mut Host, place: (u32, u32), size: (u32, u32), out: &mut [u32], pitch: usize) -> u32
    ensures same { host.new ≡ host.old }
    ensures copied { IsPartCopied host.old (area_at place.0 place.1 size.0 size.1) pitch out.old
        out.new result }
{
    match host.copy(place, size, out, pitch) {
        Ok(()) => DONE,
        Err(why) => uncopied_number(why),
    }
}

/// Looks at the screen without copying it, and answers the parts of it in which pixels may have
/// changed since the last look.
#[unsafe(no_mangle)]
pub extern "C" fn nit_damage(alloc: Global, server: &mut NitServer) -> NitDamage
    ensures { IsDamageBy server.old server.new result }
{
    if !server.is_live() {
        return no_damage(NO_SERVER);
    }
    let mut host = server.take(alloc);
    let parts = damage(host.as_mut());
    *server = NitServer::of(host);
    parts
}

/// Puts the part of the frame with its left upper pixel at (`x`, `y`), `w` pixels wide and `h`
/// high, into `out`, whose rows begin `pitch` words behind one another. What is seen of the server
/// stays.
#[unsafe(no_mangle)]
pub extern "C" fn nit_copy(
    alloc: Global,
    server: &mut NitServer,
    x: u32,
    y: u32,
    w: u32,
    h: u32,
    out: &mut [u32],
    pitch: usize,
) -> u32
    ensures { IsCopiedBy server.old server.new (area_at x y w h) pitch out.old out.new result }
{
    if !server.is_live() {
        return NO_SERVER;
    }
    let mut host = server.take(alloc);
    let answer = copy(host.as_mut(), (x, y), (w, h), out, pitch);
    *server = NitServer::of(host);
    answer
}
