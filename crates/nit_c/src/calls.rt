//! The calls of the clients.

ghost use Rattle.std.specs.Prelude.{◌≡◌};
ghost use Rattle.nit_c.specs.Terms.{IsCalled, IsRedrawn, IsRefreshed, IsTitled, IsUntitled};
ghost use Rattle.nit_c.specs.Terms.{untitled};
ghost use Rattle.nit_events.specs.declared.call.Call.TheVariants as call;

use crate::clients::client_of;
use crate::handle::NitServer;
use crate::numbers::{BAD_TEXT, NO_SEAT, NO_SERVER, OTHER_CLIENT, WORN_OUT};
use crate::reply::{NitReply, answer_of, only_kind};
use nit_events::{Call, Text};
use nit_host::{Client, Host};
use std::alloc::Global;

/// Serves a call of a client.
fn serve(alloc: Global, server: &mut NitServer, client: u64, call: &Call) -> NitReply
    ensures { IsCalled server.old server.new client call.now result }
{
    if !server.is_live() {
        return only_kind(NO_SERVER);
    }
    let mut host = server.take(alloc);
    let reply = answer_of(&host.as_mut().call(client_of(client), call));
    *server = NitServer::of(host);
    reply
}

/// Serves a refresh of a part of a buffer, which begins at this place and has this size.
fn refresh(
    host: &mut Host,
    client: Client,
    place: (i32, i32),
    size: (u32, u32),
    words: &[u32],
) -> NitReply
    ensures { IsRedrawn host.old host.new client place.0 place.1 size.0 size.1 words.now result }
{
    answer_of(&host.refresh(client, place, size, words))
}

/// Refuses a title that is no text.
fn refuse_title(alloc: Global, server: &mut NitServer, client: u64) -> NitReply
    ensures { IsUntitled server.old server.new client result }
{
    if !server.is_live() {
        return only_kind(NO_SERVER);
    }
    let host = server.take(alloc);
    let why = untitled(host.as_ref(), client_of(client));
    *server = NitServer::of(host);
    only_kind(why)
}

/// Why a title that is no text is not served.
fn untitled(host: &Host, client: Client) -> u32
    ensures { result ≡ untitled host.now client }
{
    if host.seats() <= client.seat {
        NO_SEAT
    } else if host.client(client.seat).turn != client.turn {
        OTHER_CLIENT
    } else if host.left() == 0 {
        WORN_OUT
    } else {
        BAD_TEXT
    }
}

/// The client's buffer has this width and height, in words, each 1..=4096.
#[unsafe(no_mangle)]
pub extern "C" fn nit_buffer(
    alloc: Global,
    server: &mut NitServer,
    client: u64,
    w: u32,
    h: u32,
) -> NitReply
    ensures { IsCalled server.old server.new client (call.Buffer w h) result }
{
    serve(alloc, server, client, &Call::Buffer(w, h))
}

/// A new view, in front of its layer.
#[unsafe(no_mangle)]
pub extern "C" fn nit_view(alloc: Global, server: &mut NitServer, client: u64) -> NitReply
    ensures { IsCalled server.old server.new client call.View result }
{
    serve(alloc, server, client, &Call::View)
}

/// The view has this rectangle of the screen: `x` and `y` -32768..=32767, `w` and `h` 0..=32767.
#[unsafe(no_mangle)]
pub extern "C" fn nit_place(
    alloc: Global,
    server: &mut NitServer,
    client: u64,
    view: u32,
    x: i32,
    y: i32,
    w: u32,
    h: u32,
) -> NitReply
    ensures { IsCalled server.old server.new client (call.Place view x y w h) result }
{
    serve(alloc, server, client, &Call::Place(view, x, y, w, h))
}

/// The view shows the buffer moved by this many columns and rows, each -32768..=32767.
#[unsafe(no_mangle)]
pub extern "C" fn nit_offset(
    alloc: Global,
    server: &mut NitServer,
    client: u64,
    view: u32,
    x: i32,
    y: i32,
) -> NitReply
    ensures { IsCalled server.old server.new client (call.Offset view x y) result }
{
    serve(alloc, server, client, &Call::Offset(view, x, y))
}

/// The view stands in front of all of its layer.
#[unsafe(no_mangle)]
pub extern "C" fn nit_front(
    alloc: Global,
    server: &mut NitServer,
    client: u64,
    view: u32,
) -> NitReply
    ensures { IsCalled server.old server.new client (call.Front view) result }
{
    serve(alloc, server, client, &Call::Front(view))
}

/// The view stands behind all of its layer.
#[unsafe(no_mangle)]
pub extern "C" fn nit_back(
    alloc: Global,
    server: &mut NitServer,
    client: u64,
    view: u32,
) -> NitReply
    ensures { IsCalled server.old server.new client (call.Back view) result }
{
    serve(alloc, server, client, &Call::Back(view))
}

/// The view stands directly in front of `other`.
#[unsafe(no_mangle)]
pub extern "C" fn nit_above(
    alloc: Global,
    server: &mut NitServer,
    client: u64,
    view: u32,
    other: u32,
) -> NitReply
    ensures { IsCalled server.old server.new client (call.Above view other) result }
{
    serve(alloc, server, client, &Call::Above(view, other))
}

/// The view is gone.
#[unsafe(no_mangle)]
pub extern "C" fn nit_destroy(
    alloc: Global,
    server: &mut NitServer,
    client: u64,
    view: u32,
) -> NitReply
    ensures { IsCalled server.old server.new client (call.Destroy view) result }
{
    serve(alloc, server, client, &Call::Destroy(view))
}

/// Takes the oldest event that waits.
#[unsafe(no_mangle)]
pub extern "C" fn nit_take(alloc: Global, server: &mut NitServer, client: u64) -> NitReply
    ensures { IsCalled server.old server.new client call.Take result }
{
    serve(alloc, server, client, &Call::Take)
}

/// So many units of the client's reserve become donation.
#[unsafe(no_mangle)]
pub extern "C" fn nit_upgrade(
    alloc: Global,
    server: &mut NitServer,
    client: u64,
    units: u32,
) -> NitReply
    ensures { IsCalled server.old server.new client (call.Upgrade units) result }
{
    serve(alloc, server, client, &Call::Upgrade(units))
}

/// The client leaves. Its views are gone, and its seat is free.
#[unsafe(no_mangle)]
pub extern "C" fn nit_leave(alloc: Global, server: &mut NitServer, client: u64) -> NitReply
    ensures { IsCalled server.old server.new client call.Close result }
{
    serve(alloc, server, client, &Call::Close)
}

/// The view has this title. Bytes that are no text are refused, and no session is asked.
#[unsafe(no_mangle)]
pub extern "C" fn nit_title(
    alloc: Global,
    server: &mut NitServer,
    client: u64,
    view: u32,
    text: &[u8],
) -> NitReply
    ensures { IsTitled server.old server.new client view text.now result }
{
    match Text::new(text) {
        Some(title) => serve(alloc, server, client, &Call::Title(view, title)),
        None => refuse_title(alloc, server, client),
    }
}

/// What the client has drawn in this part of its buffer is shown: `x` and `y` -32768..=32767, `w`
/// and `h` 0..=32767. `words` has the words of its whole buffer, row by row from the top. Those of
/// the part are read, and kept where the reply is `done`.
#[unsafe(no_mangle)]
pub extern "C" fn nit_refresh(
    alloc: Global,
    server: &mut NitServer,
    client: u64,
    x: i32,
    y: i32,
    w: u32,
    h: u32,
    words: &[u32],
) -> NitReply
    ensures { IsRefreshed server.old server.new client x y w h words.now result }
{
    if !server.is_live() {
        return only_kind(NO_SERVER);
    }
    let mut host = server.take(alloc);
    let reply = refresh(host.as_mut(), client_of(client), (x, y), (w, h), words);
    *server = NitServer::of(host);
    reply
}
