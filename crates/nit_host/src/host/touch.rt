//! What of the frame a step can change.

ghost use Rattle.std.specs.Prelude.{◌≡◌, ◌<◌, ◌≤◌, ◌&&◌, ℕ, All, Some, false, length, slice_get};
ghost use Rattle.std.specs.Prelude.{true};
ghost use Rattle.nit_host.specs.Terms.{HasTouched, HoldsWhere, IsAreaOf, IsBarArea, IsPlace};
ghost use Rattle.nit_host.specs.Terms.{IsToldArea, View, bar_rows, covers, deliveries_of, has_any};
ghost use Rattle.nit_host.specs.Terms.{has_place, in_bar, is_kill, is_touched, kills};
ghost use Rattle.nit_host.specs.Terms.{option_map_or, part_touched, point, shows_place, touch_of};
ghost use Rattle.nit_host.specs.Terms.{touched_by, touched_in, touched_over};
ghost use Rattle.nit_host.specs.Touch.{moves_views};

use crate::host::area::of_rect;
use crate::host::handing::clip;
use nit_desktop::Desktop;
use nit_events::{Call, Delivery, Item, Mode, Routed};
use nit_look::{Area, Parts};
use nit_rect::Rect;
use nit_stack::View;

/// What of the frame a call of a seat's client can change: pixels of its views, as they stand
/// before it and after it.
#[derive(Clone, Copy)]
pub(crate) enum Touch {
    Nothing,
    /// Those of the view of this handle.
    View(u32),
    /// Those of all views, and the status bar.
    Views,
    /// Those that show this part of the buffer.
    Part(Rect),
    /// All pixels of the screen.
    Screen,
}

/// What a call of a seat's client can change.
pub(crate) fn touch_of(desktop: &Desktop, seat: u32, call: &Call) -> Touch
    requires { seat < length desktop.now.state.sessions }
    ensures { result ≡ touch_of desktop.now.state seat call.now }
{
    match desktop.refused(seat, call) {
        Some(_refusal) => Touch::Nothing,
        None => touched_in(desktop.mode(), call),
    }
}

/// What an accepted call can change in this mode.
fn touched_in(mode: Mode, call: &Call) -> Touch
    ensures { result ≡ touched_in mode call.now }
{
    match mode {
        Mode::Flat => touched_by(call),
        Mode::Xray | Mode::Kill => touched_over(call),
    }
}

/// What an accepted call can change in the modes that draw labels.
fn touched_over(call: &Call) -> Touch
    ensures { result ≡ touched_over call.now }
{
    match *call {
        Call::Buffer(..) => Touch::Views,
        Call::Refresh(x, y, w, h) => part_touched(x, y, w, h),
        Call::Take | Call::Upgrade(_) => Touch::Nothing,
        Call::View
        | Call::Place(..)
        | Call::Offset(..)
        | Call::Front(_)
        | Call::Back(_)
        | Call::Above(..)
        | Call::Title(..)
        | Call::Destroy(_)
        | Call::Close => Touch::Screen,
    }
}

/// What an accepted call can change in mode Flat.
fn touched_by(call: &Call) -> Touch
    ensures { result ≡ touched_by call.now }
{
    match *call {
        Call::Place(handle, ..)
        | Call::Offset(handle, ..)
        | Call::Front(handle)
        | Call::Back(handle)
        | Call::Above(handle, _)
        | Call::Destroy(handle) => Touch::View(handle),
        Call::Buffer(..) | Call::Close => Touch::Views,
        Call::Refresh(x, y, w, h) => part_touched(x, y, w, h),
        Call::View | Call::Title(..) | Call::Take | Call::Upgrade(_) => Touch::Nothing,
    }
}

/// A part of a buffer.
fn part_touched(x: i32, y: i32, w: u32, h: u32) -> Touch
    ensures { result ≡ part_touched x y w h }
{
    match Rect::new(x, y, w, h) {
        Some(part) => Touch::Part(part),
        None => Touch::Screen,
    }
}

/// Whether a call can move views, or make or end them.
pub(crate) fn moves_views(call: &Call) -> bool
    ensures { result ≡ moves_views call.now }
{
    match *call {
        Call::Buffer(..) | Call::Refresh(..) | Call::Take | Call::Upgrade(_) => false,
        Call::View
        | Call::Place(..)
        | Call::Offset(..)
        | Call::Front(_)
        | Call::Back(_)
        | Call::Above(..)
        | Call::Title(..)
        | Call::Destroy(_)
        | Call::Close => true,
    }
}

/// Adds all pixels of the screen that are touched as the views stand.
pub(crate) fn add_touched(parts: &mut Parts, desktop: &Desktop, seat: u32, touch: &Touch)
    ensures { HasTouched desktop.now.state seat touch.now parts.old parts.new }
{
    let size = desktop.size();
    match touch {
        Touch::Nothing => {}
        Touch::Screen => parts.add(&Area::of_rows(size.0, size.1)),
        Touch::Views => {
            parts.add(&bar(desktop));
            add_views(parts, desktop, seat, touch);
        }
        Touch::View(_) | Touch::Part(_) => add_views(parts, desktop, seat, touch),
    }
}

/// Adds all pixels of the views that are touched.
fn add_views(parts: &mut Parts, desktop: &Desktop, seat: u32, touch: &Touch)
    ensures screen { let config = desktop.now.state.config in
        All (IsAreaOf config.width config.height) parts.old
        → All (IsAreaOf config.width config.height) parts.new }
    ensures own { (x y : ℕ) → has_any parts.old x y ≡ true → has_any parts.new x y ≡ true }
    ensures views { (i x y : ℕ) (v : View) → slice_get desktop.now.state.stack i ≡ Some v
        → x < desktop.now.state.config.width → y < desktop.now.state.config.height
        → is_touched touch.now seat v (point x y) ≡ true → has_any parts.new x y ≡ true }
{
    let size = desktop.size();
    'views: for i in 0..desktop.views() {
        let view = desktop.view(i);
        parts.add(&view_touched(touch, seat, &view, size));
    }
}

/// An area with all pixels of the screen at which a view is touched.
fn view_touched(touch: &Touch, seat: u32, view: &View, size: (u32, u32)) -> Area
    requires { IsPlace view.now.ox × IsPlace view.now.oy }
    ensures { HoldsWhere size.0 size.1 (λ x y. is_touched touch.now seat view.now (point x y))
        result }
{
    match touch {
        Touch::Nothing => Area::none(),
        Touch::View(handle) => where_named(view.sid == seat && view.handle == *handle, view, size),
        Touch::Views => where_named(view.sid == seat, view, size),
        Touch::Part(part) => part_shown(view.sid == seat, part, view, size),
        Touch::Screen => Area::of_rows(size.0, size.1),
    }
}

/// The pixels of a view, where it is meant.
fn where_named(is_meant: bool, view: &View, size: (u32, u32)) -> Area
    ensures { HoldsWhere size.0 size.1 (λ x y. is_meant && covers view.now.rect (point x y))
        result }
{
    if is_meant {
        of_rect(&view.rect, size)
    } else {
        Area::none()
    }
}

/// The pixels of a view that show this part of its session's buffer, where the view is meant.
fn part_shown(is_meant: bool, part: &Rect, view: &View, size: (u32, u32)) -> Area
    requires { IsPlace view.now.ox × IsPlace view.now.oy }
    ensures { HoldsWhere size.0 size.1 (λ x y. is_meant && (covers view.now.rect (point x y)
        && shows_place part.now view.now (point x y))) result }
{
    if !is_meant {
        return Area::none();
    }
    let column = view.rect.x() + view.ox + part.x();
    let row = view.rect.y() + view.oy + part.y();
    let (left, right) = clip(column, part.w(), size.0);
    let (top, bottom) = clip(row, part.h(), size.1);
    of_rect(&view.rect, size).meet(&Area {
        left,
        top,
        right,
        bottom,
    })
}

/// The status bar, where there is one.
fn bar(desktop: &Desktop) -> Area
    ensures area { IsAreaOf desktop.now.state.config.width desktop.now.state.config.height result }
    ensures rows { (x y : ℕ) → x < desktop.now.state.config.width
        → y < desktop.now.state.config.height
        → in_bar (bar_rows desktop.now.state.config) (point x y) ≡ true
        → has_place result x y ≡ true }
{
    let (width, height) = desktop.size();
    Area::of_rows(width, desktop.bar().min(height))
}

/// An area with the status bar, and in the modes that draw over the whole screen with all of it.
pub(crate) fn bar_or_screen(desktop: &Desktop) -> Area
    ensures { IsBarArea desktop.now.state result }
{
    match desktop.mode() {
        Mode::Flat => bar(desktop),
        Mode::Xray | Mode::Kill => {
            let size = desktop.size();
            Area::of_rows(size.0, size.1)
        }
    }
}

/// An area with all that the bar and the mode draw, which is the whole screen where a client is
/// locked out.
pub(crate) fn told(desktop: &Desktop, routed: &Routed) -> Area
    ensures { IsToldArea desktop.now.state (deliveries_of routed.now) result }
{
    if locks_out(routed) {
        let size = desktop.size();
        Area::of_rows(size.0, size.1)
    } else {
        bar_or_screen(desktop)
    }
}

/// The mode, and who has the focus: what the bar tells.
pub(crate) fn bar_tells(desktop: &Desktop) -> (Mode, Option<u32>)
    ensures mode { result.0 ≡ desktop.now.state.input.mode }
    ensures focus { result.1 ≡ desktop.now.state.input.focus }
{
    (desktop.mode(), desktop.focus())
}

/// Whether the user has changed nothing of what is shown: nobody is locked out, and the bar tells
/// the same.
pub(crate) fn shows_the_same(
    before: (Mode, Option<u32>),
    after: (Mode, Option<u32>),
    routed: &Routed,
) -> bool
    ensures told { result ≡ true → kills (deliveries_of routed.now) ≡ false }
    ensures mode { result ≡ true → before.0 ≡ after.0 }
    ensures focus { result ≡ true → before.1 ≡ after.1 }
{
    before.0 == after.0 && before.1 == after.1 && !locks_out(routed)
}

/// Whether a client is locked out.
pub(crate) fn locks_out(routed: &Routed) -> bool
    ensures { result ≡ kills (deliveries_of routed.now) }
{
    kills(&routed.a) || kills(&routed.b) || kills(&routed.c)
}

/// Whether it locks a client out.
fn kills(told: &Option<Delivery>) -> bool
    ensures { result ≡ option_map_or (λ d. is_kill d.item) told.now false }
{
    match told {
        Some(
            Delivery {
                sid: _,
                item: Item::Kill,
            },
        ) => true,
        _ => false,
    }
}
