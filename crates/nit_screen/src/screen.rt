//! The screen with all that it shows.

ghost use Rattle.std.specs.Prelude.{◌≡◌, ◌*◌, All, length};
ghost use Rattle.nit_screen.specs.Terms.{IsServer, IsWord};

mod calls;
mod frames;
mod framing;
mod free;
mod input;
mod labels;
mod last;
mod lists;
mod map;
mod opening;
mod owners;
mod patches;
mod pixels;
mod rows;
mod seats;
mod sessions;
mod views;

use crate::screen::pixels::Pixels;
use nit_server::Server;
use std::marker::Model;

/// The server with the words that its screen shows, and with what they are loaded again by.
#[derive(Drop)]
pub struct Screen {
    pub(crate) server: Server,
    pub(crate) pixels: Pixels,
}

impl Model for Screen {
    ghost use Rattle.nit_screen.specs.Pixels.{ArePixels, raw_of};
    ghost use Rattle.nit_screen.specs.Screen.{ScreenModel};

    ghost Value = { ScreenModel };

    ghost view = { λ s. record {
      serving = s.server;
      raw = raw_of s.pixels;
      is_stale = s.pixels.is_stale;
    } };

    ghost invariant = { λ s. ArePixels s.server s.pixels };
}

impl Screen {
    /// The server.
    pub fn server(&self) -> &Server
        ensures server { result.now ≡ self.now.serving }
        ensures facts { IsServer self.now.serving }
    {
        self.server.facts();
        &self.server
    }

    /// What holds of the server.
    pub fn facts(&self)
        ensures serving { IsServer self.now.serving }
        ensures words { All IsWord self.now.raw }
        ensures pixels { length self.now.raw
            ≡ self.now.serving.config.width * self.now.serving.config.height }
    {
        let _ = &self.pixels;
        self.server.facts();
    }
}
