//! A host before its first step.

ghost use Rattle.std.specs.Prelude.{◌≡◌, ◌≤◌, IfOk, length};
ghost use Rattle.nit_host.specs.Terms.{All, AreBlankSheets, AreSheets, IsConfiguration, IsMember};
ghost use Rattle.nit_host.specs.Terms.{first_host, first_state, lettered, most_sessions, no_turns};
ghost use Rattle.nit_host.specs.Terms.{vacant_state};

use crate::client::Turns;
use crate::host::Host;
use crate::host::area::whole;
use crate::sheet::Sheet;
use nit_config::Config;
use nit_desktop::Desktop;
use nit_glyph::Lettering;
use nit_rect::{MOST_SESSIONS, MOST_SLOTS, NoMemory};
use nit_slots::table_size;
use std::alloc::Global;

impl Host {
    /// A host whose seats are all free. A seat has the donation, the layer and the setting on
    /// clicks of its client in the configuration; its label waits there until a client brings
    /// another. Texts are drawn so. All memory that the host will ever use is taken here.
    pub fn vacant(alloc: Global, config: &Config, lettering: Lettering) -> Result<Host, NoMemory>
        requires { IsConfiguration (lettered lettering config.now) }
        ensures { let drawn = lettered lettering config.now in
            IfOk result (λ h. h ≡ first_host (vacant_state drawn) drawn) }
    {
        let mut sheets = sheets(alloc, config)?;
        let shown = Vec::with_capacity(alloc, MOST_SLOTS)?;
        Ok(Host {
            desktop: Desktop::vacant(alloc, config, lettering, &mut sheets)?,
            sheets,
            turns: no_turns(),
            last: None,
            changed: whole(config.width, config.height),
            shown,
            stand: false,
            came: [false; MOST_SESSIONS],
            seen: None,
        })
    }

    /// A host whose seats are all taken, by the clients of the configuration. Texts are drawn so.
    /// All memory that the host will ever use is taken here.
    pub fn seated(alloc: Global, config: &Config, lettering: Lettering) -> Result<Host, NoMemory>
        requires { IsConfiguration (lettered lettering config.now) }
        ensures { let drawn = lettered lettering config.now in
            IfOk result (λ h. h ≡ first_host (first_state drawn) drawn) }
    {
        let sheets = sheets(alloc, config)?;
        let shown = Vec::with_capacity(alloc, MOST_SLOTS)?;
        Ok(Host {
            desktop: Desktop::new(alloc, config, lettering)?,
            sheets,
            turns: no_turns(),
            last: None,
            changed: whole(config.width, config.height),
            shown,
            stand: false,
            came: [false; MOST_SESSIONS],
            seen: None,
        })
    }
}

/// No client has come.
fn no_turns() -> Turns
    ensures { result ≡ no_turns }
{
    Turns {
        of: [0; MOST_SESSIONS],
        given: 0,
    }
}

/// A sheet for each seat, in order, whose words are 0.
fn sheets(alloc: Global, config: &Config) -> Result<Vec<Sheet>, NoMemory>
    requires few { length config.now.clients ≤ most_sessions }
    requires clients { All IsMember config.now.clients }
    ensures blank { IfOk result (λ v. AreBlankSheets config.now v.items) }
    ensures room { IfOk result (λ v. AreSheets config.now v.items) }
{
    let clients = config.clients.as_slice();
    let mut sheets = Vec::new(alloc);
    'seats: for seat in 0..clients.len() {
        let size = table_size(clients[seat].donation) as usize;
        sheets.push(Sheet::new(alloc, seat as u32, size)?)?;
    }
    Ok(sheets)
}
