//! What stands on the screen, and what is held.

ghost use Rattle.std.specs.Prelude.{◌≡◌, slice_get};
ghost use Rattle.nit_c.specs.Terms.{IsHeldBy, IsLabelOf, IsLine, IsOwnerOf, IsShownAt, IsTitleOf};
ghost use Rattle.nit_c.specs.Terms.{IsViewAt, c_view, c_view_of, label_at, no_view, number_or_none};
ghost use Rattle.nit_c.specs.Terms.{view_title};

use crate::handle::NitServer;
use crate::looking::put;
use crate::numbers::{DONE, NO_SERVER, NO_SUCH_VIEW, number_or_none};
use nit_host::Host;
use nit_stack::View;
use std::alloc::Global;

/// A view. All but `kind` is 0 where there is none.
#[repr(C)]
#[derive(Clone, Copy)]
pub struct NitViewState {
    /// The kind of the answer.
    pub kind: u32,
    /// The seat of its client.
    pub seat: u32,
    /// Its handle, from 1.
    pub view: u32,
    /// The first column of its rectangle.
    pub x: i32,
    /// The first row.
    pub y: i32,
    /// How many columns.
    pub w: u32,
    /// How many rows.
    pub h: u32,
    /// How many columns the buffer is moved to the right.
    pub offset_x: i32,
    /// How many rows the buffer is moved down.
    pub offset_y: i32,
}

/// An answer that is its kind alone.
fn no_view(kind: u32) -> NitViewState
    ensures { result ≡ no_view kind }
{
    NitViewState {
        kind,
        seat: 0,
        view: 0,
        x: 0,
        y: 0,
        w: 0,
        h: 0,
        offset_x: 0,
        offset_y: 0,
    }
}

/// A view, as C reads it.
fn view_of(view: &View) -> NitViewState
    ensures { result ≡ c_view view.now }
{
    NitViewState {
        kind: DONE,
        seat: view.sid,
        view: view.handle,
        x: view.rect.x(),
        y: view.rect.y(),
        w: view.rect.w(),
        h: view.rect.h(),
        offset_x: view.ox,
        offset_y: view.oy,
    }
}

/// The view at a place from the front, or that there is none.
fn view_at(host: &Host, place: u32) -> NitViewState
    ensures { result ≡ c_view_of (slice_get host.now.state.stack place) }
{
    let desktop = host.desktop();
    if place < desktop.views() {
        view_of(&desktop.view(place))
    } else {
        no_view(NO_SUCH_VIEW)
    }
}

/// A view, as C reads it, or that there is none.
fn view_or_none(view: Option<View>) -> NitViewState
    ensures { result ≡ c_view_of view }
{
    match view {
        Some(view) => view_of(&view),
        None => no_view(NO_SUCH_VIEW),
    }
}

/// Puts the title of the view at a place from the front, and answers how many bytes it has.
fn put_title(host: &Host, place: u32, out: &mut [u8]) -> usize
    ensures { IsLine (view_title host.now place) out.old out.new result }
{
    let desktop = host.desktop();
    if place < desktop.views() {
        put(desktop.view(place).title.as_bytes(), out)
    } else {
        put(&[], out)
    }
}

/// Puts the label of a seat, and answers how many bytes it has.
fn put_label(host: &Host, seat: u32, out: &mut [u8]) -> usize
    ensures { IsLine (label_at host.now seat) out.old out.new result }
{
    if seat < host.seats() {
        put(host.desktop().label(seat).as_bytes(), out)
    } else {
        put(&[], out)
    }
}

/// The code at a place among those that are held, or the number of none.
fn code_at(host: &Host, place: u32) -> u32
    ensures { result ≡ number_or_none (slice_get host.now.state.input.held place) }
{
    match host.desktop().held().get(place as usize) {
        Some(code) => u32::from(*code),
        None => number_or_none(None),
    }
}

/// The view at a place from the front, 0 the front-most one, of all views.
#[unsafe(no_mangle)]
pub extern "C" fn nit_view_at(alloc: Global, server: &mut NitServer, place: u32) -> NitViewState
    ensures { IsViewAt server.old server.new place result }
{
    if !server.is_live() {
        return no_view(NO_SERVER);
    }
    let host = server.take(alloc);
    let view = view_at(host.as_ref(), place);
    *server = NitServer::of(host);
    view
}

/// The view that owns the pixel in column `x` and row `y`.
#[unsafe(no_mangle)]
pub extern "C" fn nit_owner(alloc: Global, server: &mut NitServer, x: u32, y: u32) -> NitViewState
    ensures { IsOwnerOf server.old server.new x y result }
{
    if !server.is_live() {
        return no_view(NO_SERVER);
    }
    let host = server.take(alloc);
    let view = view_or_none(host.owner(x, y));
    *server = NitServer::of(host);
    view
}

/// The view that owned the pixel in column `x` and row `y` as the last look had it.
#[unsafe(no_mangle)]
pub extern "C" fn nit_shown(alloc: Global, server: &mut NitServer, x: u32, y: u32) -> NitViewState
    ensures { IsShownAt server.old server.new x y result }
{
    if !server.is_live() {
        return no_view(NO_SERVER);
    }
    let host = server.take(alloc);
    let view = view_or_none(host.owner_shown(x, y));
    *server = NitServer::of(host);
    view
}

/// Puts the title of the view at a place from the front at the head of `out`, where it fits there.
/// Answers how many bytes it has, 0..=12: 0 where there is no view.
#[unsafe(no_mangle)]
pub extern "C" fn nit_title_at(
    alloc: Global,
    server: &mut NitServer,
    place: u32,
    out: &mut [u8],
) -> usize
    ensures { IsTitleOf server.old server.new place out.old out.new result }
{
    if !server.is_live() {
        return 0;
    }
    let host = server.take(alloc);
    let count = put_title(host.as_ref(), place, out);
    *server = NitServer::of(host);
    count
}

/// Puts the label of a seat at the head of `out`, where it fits there. Answers how many bytes it
/// has, 1..=20: 0 where there is no seat.
#[unsafe(no_mangle)]
pub extern "C" fn nit_label(
    alloc: Global,
    server: &mut NitServer,
    seat: u32,
    out: &mut [u8],
) -> usize
    ensures { IsLabelOf server.old server.new seat out.old out.new result }
{
    if !server.is_live() {
        return 0;
    }
    let host = server.take(alloc);
    let count = put_label(host.as_ref(), seat, out);
    *server = NitServer::of(host);
    count
}

/// The code at a place among those that are held, 0 the one that went down first. 4,294,967,295
/// where no more are held.
#[unsafe(no_mangle)]
pub extern "C" fn nit_held(alloc: Global, server: &mut NitServer, place: u32) -> u32
    ensures { IsHeldBy server.old server.new place result }
{
    if !server.is_live() {
        return number_or_none(None);
    }
    let host = server.take(alloc);
    let code = code_at(host.as_ref(), place);
    *server = NitServer::of(host);
    code
}
