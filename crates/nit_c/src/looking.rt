//! A look at the screen, and at the last step.

ghost use Rattle.std.specs.Prelude.{◌≡◌, ◌*◌, ◌≤ℤ◌, IfSome, nat_eq, pos};
ghost use Rattle.nit_c.specs.Terms.{IsEntry, IsLine, IsLineOrNone, IsLooked, IsLookedAnew};
ghost use Rattle.nit_c.specs.Terms.{IsLookedAnewBy, IsLookedBy, IsRect, last_text, only_rect};

use crate::handle::NitServer;
use crate::numbers::{DONE, NO_SERVER, WRONG_FRAME};
use nit_host::Host;
use nit_rect::Rect;
use std::alloc::Global;

/// The answer where memory runs out.
const NO_ROOM: usize = usize::MAX;

/// The part of the screen that a look wrote. All but `kind` is 0 where nothing changed.
#[repr(C)]
#[derive(Clone, Copy)]
pub struct NitRect {
    /// The kind of the answer.
    pub kind: u32,
    /// The first column.
    pub x: u32,
    /// The first row.
    pub y: u32,
    /// How many columns.
    pub w: u32,
    /// How many rows.
    pub h: u32,
}

/// An answer that is its kind alone.
fn only_rect(kind: u32) -> NitRect
    ensures { result ≡ only_rect kind }
{
    NitRect {
        kind,
        x: 0,
        y: 0,
        w: 0,
        h: 0,
    }
}

/// A rectangle of the screen, or none, as C reads it.
fn rect_of(rect: &Option<Rect>) -> NitRect
    requires left { IfSome rect.now (λ r. pos 0 ≤ℤ r.x) }
    requires top { IfSome rect.now (λ r. pos 0 ≤ℤ r.y) }
    ensures { IsRect rect.now result }
{
    match rect {
        Some(rect) => NitRect {
            kind: DONE,
            x: rect.x() as u32,
            y: rect.y() as u32,
            w: rect.w(),
            h: rect.h(),
        },
        None => only_rect(DONE),
    }
}

/// Whether these are as many words as the screen has pixels.
fn is_whole(host: &Host, words: usize) -> bool
    ensures { result ≡ nat_eq words (host.now.state.config.width * host.now.state.config.height) }
{
    host.facts();
    let (width, height) = host.size();
    words == width as usize * height as usize
}

/// Brings `out` up to date, where it has as many words as the screen has pixels.
fn show(host: &mut Host, out: &mut [u32]) -> NitRect
    ensures { IsLooked host.old host.new out.old out.new result }
{
    if is_whole(host, out.len()) {
        rect_of(&host.look(out))
    } else {
        only_rect(WRONG_FRAME)
    }
}

/// Brings `out` up to date, whatever its words are, where it has as many as the screen has pixels.
fn show_anew(host: &mut Host, out: &mut [u32]) -> NitRect
    ensures { IsLookedAnew host.old host.new out.old out.new result }
{
    if is_whole(host, out.len()) {
        rect_of(&host.look_anew(out))
    } else {
        only_rect(WRONG_FRAME)
    }
}

/// Puts the line of the last step at the head of `out`, where it fits there, and answers how many
/// bytes it has.
fn put_entry(alloc: Global, host: &Host, out: &mut [u8]) -> usize
    ensures { IsLineOrNone (last_text host.now.last) out.old out.new result }
{
    match host.entry_text(alloc) {
        Ok(text) => put(&text, out),
        Err(_) => NO_ROOM,
    }
}

/// Puts a text at the head of `out`, where it fits there, and answers how many bytes it has.
pub(crate) fn put(text: &[u8], out: &mut [u8]) -> usize
    ensures { IsLine text.now out.old out.new result }
{
    let count = text.len();
    if count <= out.len() {
        out[..count].copy_from_slice(text);
    }
    count
}

/// Brings `out`, which has `width * height` words and is as the last look left it, up to date with
/// what the screen shows. Answers the least rectangle outside of which nothing was written.
#[unsafe(no_mangle)]
pub extern "C" fn nit_look(alloc: Global, server: &mut NitServer, out: &mut [u32]) -> NitRect
    ensures { IsLookedBy server.old server.new out.old out.new result }
{
    if !server.is_live() {
        return only_rect(NO_SERVER);
    }
    let mut host = server.take(alloc);
    let rect = show(host.as_mut(), out);
    *server = NitServer::of(host);
    rect
}

/// Brings `out`, which has `width * height` words that may be any, up to date with what the screen
/// shows. Answers the least rectangle outside of which nothing was written.
#[unsafe(no_mangle)]
pub extern "C" fn nit_look_anew(alloc: Global, server: &mut NitServer, out: &mut [u32]) -> NitRect
    ensures { IsLookedAnewBy server.old server.new out.old out.new result }
{
    if !server.is_live() {
        return only_rect(NO_SERVER);
    }
    let mut host = server.take(alloc);
    let rect = show_anew(host.as_mut(), out);
    *server = NitServer::of(host);
    rect
}

/// Puts the last step as a line of the journal, with its line feed, at the head of `out`, where it
/// fits there. Answers how many bytes the line has: 0 where there is no step to tell, and the
/// greatest number where memory runs out.
#[unsafe(no_mangle)]
pub extern "C" fn nit_entry(alloc: Global, server: &mut NitServer, out: &mut [u8]) -> usize
    ensures { IsEntry server.old server.new out.old out.new result }
{
    if !server.is_live() {
        return 0;
    }
    let host = server.take(alloc);
    let count = put_entry(alloc, host.as_ref(), out);
    *server = NitServer::of(host);
    count
}
