//! Clients that come to a seat.

ghost use Rattle.std.specs.Prelude.{◌≡◌, ◌<◌, ◌≤◌, ◌^◌};
ghost use Rattle.nit_c.specs.Terms.{IsNamed, IsSeatFor, IsSeated, IsSeatedBy, IsSought, c_sought};
ghost use Rattle.nit_c.specs.Terms.{most_comings, only_seated};

use crate::clients::name_of;
use crate::handle::NitServer;
use crate::numbers::{BAD_LABEL, DONE, NO_SEAT, NO_SERVER, unseated_number};
use nit_glyph::Label;
use nit_host::{Client, Host, Unseated};
use std::alloc::Global;

/// A seat and its client. All but `kind` is 0 where there is none.
#[repr(C)]
#[derive(Clone, Copy)]
pub struct NitSeated {
    /// The kind of the answer.
    pub kind: u32,
    /// The number of the seat.
    pub seat: u32,
    /// The name of its client, where one sat down.
    pub client: u64,
    /// 0.
    pub zero: u64,
}

/// An answer that is its kind alone.
fn only_seated(kind: u32) -> NitSeated
    ensures { result ≡ only_seated kind }
{
    NitSeated {
        kind,
        seat: 0,
        client: 0,
        zero: 0,
    }
}

/// The answer that a client sits down.
fn seated(client: Client) -> NitSeated
    requires seat { client.seat < 2 ^ 16 }
    requires turn { client.turn ≤ most_comings }
    ensures { IsNamed client result }
{
    NitSeated {
        kind: DONE,
        seat: client.seat,
        client: name_of(client),
        zero: 0,
    }
}

/// Gives a seat to a client under a label, and answers what became of that.
fn sit(host: &mut Host, seat: u32, label: &[u8]) -> NitSeated
    ensures { IsSeated host.old host.new seat label.now result }
{
    host.facts();
    if host.seats() <= seat {
        return only_seated(NO_SEAT);
    }
    let Some(label) = Label::new(label) else {
        return only_seated(BAD_LABEL);
    };
    match host.seat(seat, label) {
        Ok(client) => seated(client),
        Err(why) => only_seated(unseated_number(why)),
    }
}

/// A seat that was found, or why none was.
fn found(seat: Result<u32, Unseated>) -> NitSeated
    ensures { result ≡ c_sought seat }
{
    match seat {
        Ok(seat) => NitSeated {
            seat,
            ..only_seated(DONE)
        },
        Err(why) => only_seated(unseated_number(why)),
    }
}

/// The seat of a layer that takes a new client of this label, or why none does.
fn sought(host: &Host, label: &[u8], layer: u32) -> NitSeated
    ensures { IsSought host.now label.now layer result }
{
    match Label::new(label) {
        Some(label) => found(host.seat_for(&label, layer)),
        None => only_seated(BAD_LABEL),
    }
}

/// A new client sits down on a free seat, under this label.
#[unsafe(no_mangle)]
pub extern "C" fn nit_seat(
    alloc: Global,
    server: &mut NitServer,
    seat: u32,
    label: &[u8],
) -> NitSeated
    ensures { IsSeatedBy server.old server.new seat label.now result }
{
    if !server.is_live() {
        return only_seated(NO_SERVER);
    }
    let mut host = server.take(alloc);
    let answer = sit(host.as_mut(), seat, label);
    *server = NitServer::of(host);
    answer
}

/// The seat of a layer that takes a new client of this label: the free one that had the label last,
/// else the first free one. [`nit_seat`] on the answer is done.
#[unsafe(no_mangle)]
pub extern "C" fn nit_seat_for(
    alloc: Global,
    server: &mut NitServer,
    label: &[u8],
    layer: u32,
) -> NitSeated
    ensures { IsSeatFor server.old server.new label.now layer result }
{
    if !server.is_live() {
        return only_seated(NO_SERVER);
    }
    let host = server.take(alloc);
    let answer = sought(host.as_ref(), label, layer);
    *server = NitServer::of(host);
    answer
}
