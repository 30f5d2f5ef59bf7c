//! What can be read of a server.

ghost use Rattle.std.specs.Prelude.{◌≡◌};
ghost use Rattle.nit_c.specs.Terms.{IsAccountOf, IsSeatStateOf, IsStateOf, c_account, c_seat_state};
ghost use Rattle.nit_c.specs.Terms.{c_state, no_account, no_seat_state, no_state};

use crate::clients::name_of;
use crate::handle::NitServer;
use crate::numbers::{
    DONE, NO_SEAT, NO_SERVER, SEAT_NONE, mode_number, number_or_none, status_number,
};
use nit_host::Host;
use std::alloc::Global;

/// What can be read of a server. All but `kind` is 0 where there is none.
#[repr(C)]
#[derive(Clone, Copy)]
pub struct NitState {
    /// The kind of the answer.
    pub kind: u32,
    /// The width of the screen, 1..=4096, in pixels.
    pub width: u32,
    /// Its height, 1..=4096.
    pub height: u32,
    /// How many seats there are, 1..=64.
    pub seats: u32,
    /// 0..=2: flat, X-ray, kill.
    pub mode: u32,
    /// The seat that has the focus. 4,294,967,295 where none has it.
    pub focus: u32,
    /// The seat that is told when the pointer goes. 4,294,967,295 where none is.
    pub hover: u32,
    /// The pointer's column.
    pub x: u32,
    /// The pointer's row.
    pub y: u32,
    /// The seat that gets what goes down and up while a code is held. 4,294,967,295 where none
    /// does.
    pub receiver: u32,
}

/// What can be read of a seat. All but `kind` is 0 where there is none.
#[repr(C)]
#[derive(Clone, Copy)]
pub struct NitSeatState {
    /// The kind of the answer.
    pub kind: u32,
    /// 1..=3: live, closed, killed.
    pub status: u32,
    /// How many events wait, 0..=64.
    pub waiting: u32,
    /// 0, so that no byte is left to chance.
    pub zero: u32,
    /// How many were lost since the seat was taken.
    pub lost: u64,
    /// The name of the client that sits there, or sat there last.
    pub client: u64,
}

/// What a seat's client has, and the layer of its views. All but `kind` is 0 where there is none.
#[repr(C)]
#[derive(Clone, Copy)]
pub struct NitAccount {
    /// The kind of the answer.
    pub kind: u32,
    /// The layer, 0..=7.
    pub layer: u32,
    /// What the client has been donated, in units.
    pub donation: u32,
    /// What its reserve still has, in units.
    pub reserve: u32,
    /// The width of its buffer, in words: 0 before it has one.
    pub width: u32,
    /// The height of its buffer.
    pub height: u32,
}

/// The state of no server.
fn no_state() -> NitState
    ensures { result ≡ no_state }
{
    NitState {
        kind: NO_SERVER,
        width: 0,
        height: 0,
        seats: 0,
        mode: 0,
        focus: 0,
        hover: 0,
        x: 0,
        y: 0,
        receiver: 0,
    }
}

/// What can be read of a server.
fn state_of(host: &Host) -> NitState
    ensures { result ≡ c_state host.now }
{
    let desktop = host.desktop();
    let (width, height) = host.size();
    let (x, y) = desktop.pointer();
    NitState {
        kind: DONE,
        width,
        height,
        seats: host.seats(),
        mode: mode_number(desktop.mode()),
        focus: number_or_none(desktop.focus()),
        hover: number_or_none(desktop.hover()),
        x: u32::from(x),
        y: u32::from(y),
        receiver: number_or_none(desktop.receiver()),
    }
}

/// A seat's state that is its kind alone.
fn no_seat_state(kind: u32) -> NitSeatState
    ensures { result ≡ no_seat_state kind }
{
    NitSeatState {
        kind,
        status: SEAT_NONE,
        waiting: 0,
        zero: 0,
        lost: 0,
        client: 0,
    }
}

/// What can be read of a seat.
fn seat_state_of(host: &Host, seat: u32) -> NitSeatState
    ensures { result ≡ c_seat_state host.now seat }
{
    host.facts();
    if host.seats() <= seat {
        return no_seat_state(NO_SEAT);
    }
    NitSeatState {
        status: status_number(host.desktop().status(seat)),
        waiting: host.desktop().waiting(seat),
        lost: host.desktop().lost(seat),
        client: name_of(host.client(seat)),
        ..no_seat_state(DONE)
    }
}

/// An account that is its kind alone.
fn no_account(kind: u32) -> NitAccount
    ensures { result ≡ no_account kind }
{
    NitAccount {
        kind,
        layer: 0,
        donation: 0,
        reserve: 0,
        width: 0,
        height: 0,
    }
}

/// What a seat's client has, and the layer of its views.
fn account_of(host: &Host, seat: u32) -> NitAccount
    ensures { result ≡ c_account host.now seat }
{
    if host.seats() <= seat {
        return no_account(NO_SEAT);
    }
    let (donation, reserve) = host.desktop().units(seat);
    let (width, height) = host.buffer(seat);
    NitAccount {
        kind: DONE,
        layer: host.desktop().layer(seat),
        donation,
        reserve,
        width,
        height,
    }
}

/// What can be read of the server.
#[unsafe(no_mangle)]
pub extern "C" fn nit_state(alloc: Global, server: &mut NitServer) -> NitState
    ensures { IsStateOf server.old server.new result }
{
    if !server.is_live() {
        return no_state();
    }
    let host = server.take(alloc);
    let state = state_of(host.as_ref());
    *server = NitServer::of(host);
    state
}

/// What can be read of a seat.
#[unsafe(no_mangle)]
pub extern "C" fn nit_seat_state(alloc: Global, server: &mut NitServer, seat: u32) -> NitSeatState
    ensures { IsSeatStateOf server.old server.new seat result }
{
    if !server.is_live() {
        return no_seat_state(NO_SERVER);
    }
    let host = server.take(alloc);
    let state = seat_state_of(host.as_ref(), seat);
    *server = NitServer::of(host);
    state
}

/// What a seat's client has of its donation, its reserve and its buffer.
#[unsafe(no_mangle)]
pub extern "C" fn nit_account(alloc: Global, server: &mut NitServer, seat: u32) -> NitAccount
    ensures { IsAccountOf server.old server.new seat result }
{
    if !server.is_live() {
        return no_account(NO_SERVER);
    }
    let host = server.take(alloc);
    let account = account_of(host.as_ref(), seat);
    *server = NitServer::of(host);
    account
}
