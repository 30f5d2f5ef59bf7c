//! What the user does.

ghost use Rattle.std.specs.Prelude.{◌≡◌};
ghost use Rattle.nit_c.specs.Terms.{IsInput, IsTold, moved_to, pressed, released, turned};

use crate::handle::NitServer;
use crate::numbers::{BAD_DEVICE, NO_SERVER};
use crate::routed::{NitRouted, only_routed, told_of};
use nit_events::Device;
use nit_host::Host;
use std::alloc::Global;

/// The greatest code of a key or a button.
const MOST_CODE: u32 = 767;

/// The furthest place of the pointer, along one side.
const MOST_PLACE: u32 = 65535;

/// The furthest that a wheel turns, forth or back.
const MOST_TURN: i32 = 127;

/// Serves what the user does, where it is an event.
fn tell(host: &mut Host, device: Option<Device>) -> NitRouted
    ensures { IsTold device host.old host.new result }
{
    match device {
        Some(device) => told_of(&host.input(device)),
        None => only_routed(BAD_DEVICE),
    }
}

/// Serves what the user does on the server of a handle, where there is one.
fn feed(alloc: Global, server: &mut NitServer, device: Option<Device>) -> NitRouted
    ensures { IsInput server.old server.new device result }
{
    if !server.is_live() {
        return only_routed(NO_SERVER);
    }
    let mut host = server.take(alloc);
    let routed = tell(host.as_mut(), device);
    *server = NitServer::of(host);
    routed
}

/// A key or a button goes down, where its code is in range.
fn pressed(code: u32) -> Option<Device>
    ensures { result ≡ pressed code }
{
    if code <= MOST_CODE {
        Some(Device::Press(code as u16))
    } else {
        None
    }
}

/// A key or a button goes up, where its code is in range.
fn released(code: u32) -> Option<Device>
    ensures { result ≡ released code }
{
    if code <= MOST_CODE {
        Some(Device::Release(code as u16))
    } else {
        None
    }
}

/// The pointer moves, where the place is in range.
fn moved_to(x: u32, y: u32) -> Option<Device>
    ensures { result ≡ moved_to x y }
{
    if x <= MOST_PLACE && y <= MOST_PLACE {
        Some(Device::Motion(x as u16, y as u16))
    } else {
        None
    }
}

/// The wheel turns, where that is in range.
fn turned(turn: i32) -> Option<Device>
    ensures { result ≡ turned turn }
{
    if -MOST_TURN <= turn && turn <= MOST_TURN {
        Some(Device::Wheel(turn as i8))
    } else {
        None
    }
}

/// A key or a button goes down: 0..=767.
#[unsafe(no_mangle)]
pub extern "C" fn nit_press(alloc: Global, server: &mut NitServer, code: u32) -> NitRouted
    ensures { IsInput server.old server.new (pressed code) result }
{
    feed(alloc, server, pressed(code))
}

/// A key or a button goes up: 0..=767.
#[unsafe(no_mangle)]
pub extern "C" fn nit_release(alloc: Global, server: &mut NitServer, code: u32) -> NitRouted
    ensures { IsInput server.old server.new (released code) result }
{
    feed(alloc, server, released(code))
}

/// The pointer moves to this column and row, each 0..=65535.
#[unsafe(no_mangle)]
pub extern "C" fn nit_motion(alloc: Global, server: &mut NitServer, x: u32, y: u32) -> NitRouted
    ensures { IsInput server.old server.new (moved_to x y) result }
{
    feed(alloc, server, moved_to(x, y))
}

/// The wheel turns by -127..=127.
#[unsafe(no_mangle)]
pub extern "C" fn nit_wheel(alloc: Global, server: &mut NitServer, turn: i32) -> NitRouted
    ensures { IsInput server.old server.new (turned turn) result }
{
    feed(alloc, server, turned(turn))
}
