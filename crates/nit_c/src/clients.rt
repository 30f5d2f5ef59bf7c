//! The names of clients.

ghost use Rattle.std.specs.Prelude.{◌≡◌, ◌<◌, ◌≤◌, ◌^◌};
ghost use Rattle.nit_c.specs.Terms.{client_name, client_named, most_comings};

use nit_host::Client;

/// So many seats could have a name.
const SEATS: u64 = 65_536;

/// The client of a name: its seat is in the low 16 bits, and its turn above them.
pub(crate) fn client_of(name: u64) -> Client
    ensures { result ≡ client_named name }
{
    Client {
        seat: (name % SEATS) as u32,
        turn: name / SEATS,
    }
}

/// The name of a client.
pub(crate) fn name_of(client: Client) -> u64
    requires seat { client.seat < 2 ^ 16 }
    requires turn { client.turn ≤ most_comings }
    ensures name { result ≡ client_name client }
    ensures client { client_named result ≡ client }
{
    client.turn * SEATS + u64::from(client.seat)
}
