use crate::name::FileName;
use nit_glyph::Label;
use std::marker::Model;

/// A client, as the configuration names it.
#[derive(Drop)]
pub struct Member {
    pub label: Label,
    /// The opening donation in units: 256..=268,435,456, of a run at most 8,388,608.
    pub donation: u32,
    /// The client's script.
    pub script: FileName,
    /// The layer of its views: 0..=7, of which 0 is the front-most.
    pub layer: u32,
    /// Whether a click on one of its views moves the focus to it.
    pub clicks: bool,
}

/// What a run is made of.
#[derive(Drop)]
pub struct Config {
    /// The screen's width in pixels: 1..=4096, of a run at most 1024.
    pub width: u32,
    /// The screen's height in pixels: 1..=4096, of a run at most 768.
    pub height: u32,
    /// Whether the seven topmost rows of the screen are the status bar.
    pub bar: bool,
    /// The input script.
    pub input: FileName,
    /// The clients, 1 to 64 of them, of a run at most 16; session s is the client at place s,
    /// counted from 0.
    pub clients: Vec<Member>,
}

impl Model for Config {
    ghost use Rattle.nit_config.specs.Configuration.{Configuration};
    ghost use Rattle.nit_glyph.specs.Lettering.{plain};

    ghost Value = { Configuration };

    ghost view = { λ c. record {
      width = c.width;
      height = c.height;
      bar = c.bar;
      lettering = plain;
      input = c.input;
      clients = c.clients.items;
    } };
}
