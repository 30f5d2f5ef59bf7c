//! The user's restacking of views.

ghost use Rattle.std.specs.Prelude.{◌≡◌};
ghost use Rattle.nit_c.specs.Terms.{Foremost, IsRestackedBy, Rearmost, c_restack};

use crate::clients::client_of;
use crate::handle::NitServer;
use crate::numbers::{DONE, NO_SERVER, unserved_number};
use nit_host::Unserved;
use std::alloc::Global;

/// What C is told of a restacking.
fn told(done: Result<(), Unserved>) -> u32
    ensures { result ≡ c_restack done }
{
    match done {
        Ok(()) => DONE,
        Err(why) => unserved_number(why),
    }
}

/// The user puts a client's view in front of all of its layer. The client is told nothing.
#[unsafe(no_mangle)]
pub extern "C" fn nit_raise(alloc: Global, server: &mut NitServer, client: u64, view: u32) -> u32
    ensures { IsRestackedBy Foremost server.old server.new client view result }
{
    if !server.is_live() {
        return NO_SERVER;
    }
    let mut host = server.take(alloc);
    let answer = told(host.as_mut().raise(client_of(client), view));
    *server = NitServer::of(host);
    answer
}

/// The user puts a client's view behind all of its layer. The client is told nothing.
#[unsafe(no_mangle)]
pub extern "C" fn nit_lower(alloc: Global, server: &mut NitServer, client: u64, view: u32) -> u32
    ensures { IsRestackedBy Rearmost server.old server.new client view result }
{
    if !server.is_live() {
        return NO_SERVER;
    }
    let mut host = server.take(alloc);
    let answer = told(host.as_mut().lower(client_of(client), view));
    *server = NitServer::of(host);
    answer
}
