//! A screen before its first entry.

ghost use Rattle.std.specs.Prelude.{◌≡◌, ◌+◌, ◌-◌, ◌<◌, ◌≤◌, None, IfOk, length, ◌*◌, map};
ghost use Rattle.nit_screen.specs.Terms.{IsConfiguration, IsRoomFor, IsScreenSize, Point, bar_rows};
ghost use Rattle.nit_screen.specs.Terms.{bare_word, false, first_state, lettered, most_slots};
ghost use Rattle.nit_screen.specs.Terms.{replicate, state_of, vec_capacity};

use crate::screen::Screen;
use crate::screen::labels::Labels;
use crate::screen::owners::OwnerMap;
use crate::screen::pixels::Pixels;
use nit_config::Config;
use nit_damage::Cutter;
use nit_glyph::{Label, Lettering};
use nit_rect::{MOST_SLOTS, NoMemory, Point};
use nit_repaint::Painter;
use nit_server::Server;
use nit_word::BARE;
use std::alloc::Global;

impl Screen {
    /// A screen of this configuration without any view, with its texts drawn so.
    pub fn new(alloc: Global, config: &Config, lettering: Lettering) -> Result<Screen, NoMemory>
        requires config { IsConfiguration (lettered lettering config.now) }
        ensures state { IfOk result
            (λ s. state_of s.serving ≡ first_state (lettered lettering config.now)) }
        ensures raw { IfOk result (λ s. s.raw ≡ replicate
            (config.now.width * config.now.height) bare_word) }
        ensures fresh { IfOk result (λ s. s.is_stale ≡ false) }
    {
        let server = Server::new(alloc, config, lettering)?;
        server.facts();
        let mut pixels = bare_pixels(alloc, config, bar_pixels(&server))?;
        pixels.show_again(&server);
        Ok(Screen { server, pixels })
    }
}

/// The pixels of a bare screen in mode Flat, without the bar.
fn bare_pixels(alloc: Global, config: &Config, bar: usize) -> Result<Pixels, NoMemory>
    requires { IsScreenSize config.now.width config.now.height }
    ensures raw { IfOk result (λ p. p.painter.raw.items
        ≡ replicate (config.now.width * config.now.height) bare_word) }
    ensures one { IfOk result (λ p. (p.is_apart ≡ false) × (p.is_stale ≡ false)) }
    ensures bar { IfOk result (λ p. p.bar ≡ bar) }
    ensures none { IfOk result (λ p. length p.frame.items ≡ 0) }
    ensures spare { IfOk result (λ p.
        config.now.width * config.now.height ≤ vec_capacity p.frame) }
    ensures named { IfOk result (λ p.
        p.labels.texts.items ≡ map (λ m. m.label) config.now.clients) }
    ensures room { IfOk result (λ p.
        (most_slots ≤ p.painter.cutter.room) × (most_slots ≤ length p.labels.places.items)) }
    ensures mapped { IfOk result (λ p. IsRoomFor config.now.width config.now.height
        (length p.labels.places.items) p.labels.owners) }
{
    let cutter = Cutter::with_room(alloc, MOST_SLOTS as u32)?;
    let raw = bare_words(alloc, config)?;
    let frame = Vec::with_capacity(alloc, raw.len())?;
    let labels = Labels {
        texts: labels_of(alloc, config)?,
        places: no_places(alloc)?,
        owners: OwnerMap::new(alloc, config.width, config.height, MOST_SLOTS)?,
    };
    let painter = Painter { cutter, raw };
    Ok(Pixels {
        painter,
        frame,
        is_apart: false,
        is_stale: false,
        bar,
        labels,
    })
}

/// How many pixels the bar has.
fn bar_pixels(server: &Server) -> usize
    ensures bar { result ≡ server.now.config.width * bar_rows server.now.config }
    ensures fits { result ≤ server.now.config.width * server.now.config.height }
{
    server.facts();
    let stack = server.stack();
    let (width, _height) = stack.size();
    width as usize * stack.bar() as usize
}

/// The labels of the clients, in order.
fn labels_of(alloc: Global, config: &Config) -> Result<Vec<Label>, NoMemory>
    ensures { IfOk result (λ v. v.items ≡ map (λ m. m.label) config.now.clients) }
{
    let mut labels = Vec::new(alloc);
    for client in config.clients.as_slice() {
        labels.push(client.label)?;
    }
    Ok(labels)
}

/// The bare word for each pixel of the screen.
fn bare_words(alloc: Global, config: &Config) -> Result<Vec<u32>, NoMemory>
    requires { IsScreenSize config.now.width config.now.height }
    ensures words { IfOk result (λ v. v.items ≡ replicate
        (config.now.width * config.now.height) bare_word) }
    ensures count { IfOk result (λ v. length v.items ≡ config.now.width * config.now.height) }
{
    let pixels = config.width as usize * config.height as usize;
    Ok(vec![in alloc; BARE; pixels]?)
}

/// Room for the place of each view's label.
fn no_places(alloc: Global) -> Result<Vec<Option<Point>>, NoMemory>
    ensures { IfOk result (λ v. length v.items ≡ most_slots) }
{
    Ok(vec![in alloc; None; MOST_SLOTS]?)
}
