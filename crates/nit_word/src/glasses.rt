//! The words of all sessions, each loaded by its session's number.

ghost use Rattle.std.specs.Prelude.{◌≡◌, ℕ, ◌+◌, ◌^◌, ◌<◌, ◌≤◌, length, map};
ghost use Rattle.nit_word.specs.Terms.{IsLoadedRow, Sight, glass_in, loads_in_row, seen};

use crate::glass::Glass;

/// A source of the words of all sessions. A session is told by its number, and one that is none has
/// no words.
pub trait Glasses {
    /// What contracts see of it besides the sights.
    ghost Rest: { Type 0 };

    ghost sights: { Self → ℕ → Sight };

    ghost rest: { Self → Rest };

    /// Loads as many words of the session `sid` as the row has, each once, the first one at place
    /// `from` and each other one at the next place, and sets the row to them. All these places are
    /// below the size of what the session has. Of each word holds what
    /// [`Glass::load`](Glass::load) says, and the session's log has the loads in this order. All
    /// else about the session stays, and so do all other sessions.
    fn load_row(&mut self, sid: u32, from: usize, row: &mut [u32])
        requires places { from + length row.old ≤ (sights self.old sid).size }
        requires range { from + length row.old < 2 ^ 64 }
        ensures count { length row.new ≡ length row.old }
        ensures loaded { IsLoadedRow (sights self.old sid) from row.new }
        ensures sights { (t : ℕ) → sights self.new t
            ≡ seen (sights self.old t) (loads_in_row sid from row.new t) }
        ensures rest { rest self.new ≡ rest self.old };
}

/// A glass for each session, in order.
impl<G: Glass + Drop> Glasses for Vec<G> {
    ghost use Rattle.std.specs.Prelude.{List, map};
    ghost use Rattle.nit_word.specs.Sights.{glass_in};

    ghost Rest = { List G.Rest };

    ghost sights = { λ v. glass_in (map G.sight v.items) };

    ghost rest = { λ v. map G.rest v.items };

    fn load_row(&mut self, sid: u32, from: usize, row: &mut [u32]) {
        load_in(self.as_mut_slice(), sid, from, row);
    }
}

/// A glass for each session, in order, in a list that somebody else keeps.
#[derive(Drop)]
pub struct Lent<'b, G> {
    pub glasses: &'b mut [G],
}

impl<G: Glass> Glasses for Lent<'_, G> {
    ghost use Rattle.std.specs.Prelude.{map};
    ghost use Rattle.nit_word.specs.Sights.{LentRest, glass_in};

    ghost Rest = { LentRest G.Rest };

    ghost sights = { λ l. glass_in (map G.sight l.glasses.now) };

    ghost rest = { λ l. record {
      name = l.glasses.ghost_name;
      each = map G.rest l.glasses.now;
    } };

    fn load_row(&mut self, sid: u32, from: usize, row: &mut [u32]) {
        load_in(self.glasses, sid, from, row);
    }
}

/// Loads a row of a session's words through its glass, where it has one. One that has none has no
/// words.
fn load_in<G: Glass>(glasses: &mut [G], sid: u32, from: usize, row: &mut [u32])
    requires places { from + length row.old ≤ (glass_in (map G.sight glasses.old) sid).size }
    requires range { from + length row.old < 2 ^ 64 }
    ensures count { length row.new ≡ length row.old }
    ensures loaded { IsLoadedRow (glass_in (map G.sight glasses.old) sid) from row.new }
    ensures sights { (t : ℕ) → glass_in (map G.sight glasses.new) t
        ≡ seen (glass_in (map G.sight glasses.old) t) (loads_in_row sid from row.new t) }
    ensures rest { map G.rest glasses.new ≡ map G.rest glasses.old }
{
    if (sid as usize) < glasses.len() {
        glasses[sid as usize].load_row(from, row);
    }
}

/// The words of all sessions, with a glass of the caller's own for one of them.
#[derive(Drop)]
pub struct Beside<'b, O, C> {
    pub others: &'b mut O,
    pub sid: u32,
    pub own: &'b mut C,
}

impl<O: Glasses, C: Glass> Glasses for Beside<'_, O, C> {
    ghost use Rattle.nit_word.specs.Sights.{BesideRest, with_glass};

    ghost Rest = { BesideRest O.Rest C.Rest };

    ghost sights = { λ b. with_glass (O.sights b.others.now) b.sid (C.sight b.own.now) };

    ghost rest = { λ b. record {
      others_name = b.others.ghost_name;
      own_name = b.own.ghost_name;
      sid = b.sid;
      idle = O.sights b.others.now b.sid;
      others = O.rest b.others.now;
      own = C.rest b.own.now;
    } };

    fn load_row(&mut self, sid: u32, from: usize, row: &mut [u32]) {
        if sid == self.sid {
            self.own.load_row(from, row);
        } else {
            self.others.load_row(sid, from, row);
        }
    }
}
