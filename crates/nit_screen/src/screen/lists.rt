//! The raw words and the frame, in two lists or in one.

ghost use Rattle.std.specs.Prelude.{◌≡◌, ◌≤◌, false, length, vec_capacity};
ghost use Rattle.nit_screen.specs.Terms.{ArePixels, AreRaw, Flat, IsShown, raw_in, raw_of};
ghost use Rattle.nit_screen.specs.Terms.{state_of, unbarred};

use crate::screen::pixels::Pixels;
use nit_events::Mode;
use nit_server::Server;
use nit_word::BARE;

/// Gives the first words the bare word.
fn bare_first(words: &mut [u32], count: usize)
    requires { count ≤ length words.old }
    ensures { words.new ≡ unbarred count words.old }
{
    words[..count].fill(BARE);
}

/// Adds words until there are so many. There is room for them.
pub(crate) fn reach(words: &mut Vec<u32>, count: usize)
    requires few { length words.old.items ≤ count }
    requires room { count ≤ vec_capacity words.old }
    ensures count { length words.new.items ≡ count }
    ensures capacity { vec_capacity words.old ≤ vec_capacity words.new }
{
    if words.len() < count {
        let grown = words.resize(count, BARE);
        let fits = grown.is_ok();
        prove!(fits);
    }
}

/// Leaves the raw words alone in a list that may have the bar in front.
pub(crate) fn take_bar_off(raw: &mut Vec<u32>, is_apart: bool, bar: usize)
    requires { bar ≤ length raw.old.items }
    ensures items { raw.new.items ≡ raw_in is_apart bar raw.old.items }
{
    if is_apart {
        return;
    }
    bare_first(raw.as_mut_slice(), bar);
}

impl Pixels {
    /// In mode Flat, makes the raw words the one list of which both are seen, by drawing the bar.
    pub(crate) fn make_one(&mut self, server: &Server)
        requires pixels { ArePixels server.now self.old }
        requires raw { AreRaw (state_of server.now) (raw_of self.old) }
        ensures shown { IsShown server.now self.old self.new }
        ensures one { server.now.input.mode ≡ Flat → self.new.is_apart ≡ false }
    {
        server.facts();
        if !self.is_apart {
            return;
        }
        if server.mode() != Mode::Flat {
            return;
        }
        self.is_apart = false;
        self.is_stale = false;
        self.show_again(server);
    }
}
