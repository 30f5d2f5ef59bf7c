//! The cutter.

ghost use Rattle.std.specs.Prelude.{◌≡◌, ℕ, ◌+◌, ◌≤◌, ◌<◌, ◌&&◌, ◌||◌, not, true, length, IfOk};
ghost use Rattle.std.specs.Prelude.{IfSome, IsTrue, MatchOption};
ghost use Rattle.nit_damage.specs.Terms.{FitsStack, HasPixels, IsOnScreen, Point, Rectangle};
ghost use Rattle.nit_damage.specs.Terms.{StackModel, begun_cutter, covers, has_slot, is_behind};
ghost use Rattle.nit_damage.specs.Terms.{is_of_gone, is_of_moved, is_owned, most_slots, once};
ghost use Rattle.nit_damage.specs.Terms.{option_map, piece_times, pieces_left, seat_owner, to_come};
ghost use Rattle.nit_damage.specs.Terms.{view_ref};

use crate::cutting::{Job, cut_out, next_cut, put_in};
use crate::places::{bar_part, below_bar, part_below_bar};
use nit_rect::{NoMemory, Rect};
use nit_stack::{Piece, Stack, ViewRef};
use std::alloc::Global;
use std::marker::Model;

/// Pixels of the screen that are still to come, as rectangles that are still to be cut.
#[derive(Drop)]
pub struct Cutter {
    jobs: Vec<Job>,
    from: u32,
    bar: bool,
    room: u32,
}

impl Model for Cutter {
    ghost use Rattle.std.specs.Prelude.{◌≤◌, ◌+◌, ◌*◌, vec_capacity};
    ghost use Rattle.nit_damage.specs.Cutter.{CutterModel};

    ghost Value = { CutterModel };

    ghost view = { λ c. record { jobs = c.jobs.items; from = c.from; bar = c.bar; room = c.room } };

    ghost invariant = { λ c. 3 * c.room + 5 ≤ vec_capacity c.jobs };
}

impl Cutter {
    /// A cutter with room for stacks of at most this many views, 0..=4096. Nothing is to come.
    pub fn with_room(alloc: Global, views: u32) -> Result<Cutter, NoMemory>
        requires { views ≤ most_slots }
        ensures room { IfOk result (λ c. c.room ≡ views) }
        ensures nothing { IfOk result (λ c. (s : StackModel) (p : Point) → to_come c s p ≡ 0) }
    {
        let jobs = Vec::with_capacity(alloc, 3 * views as usize + 5)?;
        Ok(Cutter {
            jobs,
            from: 0,
            bar: false,
            room: views,
        })
    }

    /// Begins with the pixels of a rectangle that the view owns.
    pub fn begin_owned(&mut self, stack: &Stack, v: ViewRef, r: Rect)
        requires view { has_slot v.0 stack.now.views ≡ true }
        requires room { length stack.now.views ≤ self.old.room }
        ensures room { self.new.room ≡ self.old.room }
        ensures fits { FitsStack self.new stack.now }
        ensures to_come { (p : Point) → IsOnScreen stack.now.width stack.now.height p
            → to_come self.new stack.now p ≡ once (is_owned v stack.now r p) }
        ensures off_screen { (p : Point) → ¬ IsOnScreen stack.now.width stack.now.height p
            → to_come self.new stack.now p ≡ 0 }
    {
        let rect = stack.rect(v).meet(&r);
        self.begin(stack.place_of(v), below_bar(stack, &rect));
    }

    /// Begins with the pixels below the bar of a view that was moved: those of its rectangle or of
    /// its old one that no view in front of it covers.
    pub fn begin_moved(&mut self, stack: &Stack, v: ViewRef, old: Rect)
        requires view { has_slot v.0 stack.now.views ≡ true }
        requires room { length stack.now.views ≤ self.old.room }
        ensures room { self.new.room ≡ self.old.room }
        ensures fits { FitsStack self.new stack.now }
        ensures to_come { (p : Point) → IsOnScreen stack.now.width stack.now.height p
            → to_come self.new stack.now p ≡ once (is_of_moved v stack.now old p) }
        ensures off_screen { (p : Point) → ¬ IsOnScreen stack.now.width stack.now.height p
            → to_come self.new stack.now p ≡ 0 }
    {
        let rect = stack.rect(v);
        self.begin(stack.place_of(v), below_bar(stack, &rect));
        let _both = cut_out(&mut self.jobs, below_bar(stack, &old), rect, 0);
    }

    /// Begins with the pixels of a rectangle below the bar that no view in front of `at` covers.
    /// Where no view is given, with those that no view covers.
    pub fn begin_gone(&mut self, stack: &Stack, r: Rect, at: Option<ViewRef>)
        requires view { IfSome at (λ v. has_slot v.0 stack.now.views ≡ true) }
        requires room { length stack.now.views ≤ self.old.room }
        ensures room { self.new.room ≡ self.old.room }
        ensures fits { FitsStack self.new stack.now }
        ensures to_come { (p : Point) → IsOnScreen stack.now.width stack.now.height p
            → to_come self.new stack.now p ≡ once (is_of_gone at stack.now r p) }
        ensures off_screen { (p : Point) → ¬ IsOnScreen stack.now.width stack.now.height p
            → to_come self.new stack.now p ≡ 0 }
    {
        let place = match at {
            Some(v) => stack.place_of(v),
            None => stack.len(),
        };
        self.begin_behind(stack, r, place);
    }

    /// Begins with the pixels of a rectangle below the bar that none of the first `place` views
    /// covers. Where `place` is the number of views or more, these are all views.
    pub fn begin_behind(&mut self, stack: &Stack, r: Rect, place: u32)
        requires { length stack.now.views ≤ self.old.room }
        ensures room { self.new.room ≡ self.old.room }
        ensures fits { FitsStack self.new stack.now }
        ensures to_come { (p : Point) → IsOnScreen stack.now.width stack.now.height p
            → to_come self.new stack.now p ≡ once (is_behind place stack.now r p) }
        ensures off_screen { (p : Point) → ¬ IsOnScreen stack.now.width stack.now.height p
            → to_come self.new stack.now p ≡ 0 }
    {
        self.begin(place, below_bar(stack, &r));
    }

    /// Begins with all pixels of the screen.
    pub fn begin_all(&mut self, stack: &Stack)
        requires { length stack.now.views ≤ self.old.room }
        ensures room { self.new.room ≡ self.old.room }
        ensures fits { FitsStack self.new stack.now }
        ensures to_come { (p : Point) → IsOnScreen stack.now.width stack.now.height p
            → to_come self.new stack.now p ≡ 1 }
        ensures off_screen { (p : Point) → ¬ IsOnScreen stack.now.width stack.now.height p
            → to_come self.new stack.now p ≡ 0 }
    {
        self.begin(0, part_below_bar(stack));
        self.bar = stack.bar() > 0;
    }

    /// Drops what was to come, and begins with a rectangle from which the views in front of place
    /// `from` are to be cut out.
    fn begin(&mut self, from: u32, rect: Rect)
        ensures { self.new ≡ begun_cutter from rect self.old.room }
    {
        self.jobs.clear();
        put_in(&mut self.jobs, rect, 0);
        self.from = from;
        self.bar = false;
    }

    /// The next piece, which is no longer to come then. None exactly where nothing is to come.
    pub fn next(&mut self, stack: &Stack) -> Option<Piece>
        requires { FitsStack self.old stack.now }
        ensures room { self.new.room ≡ self.old.room }
        ensures fits { FitsStack self.new stack.now }
        ensures count { (p : Point)
            → to_come self.old stack.now p ≡ to_come self.new stack.now p + piece_times result p }
        ensures came { MatchOption result
            ((p : Point) → to_come self.old stack.now p ≡ 0)
            (λ piece. (p : Point) → IsTrue (covers piece.rect p)
            → to_come self.old stack.now p ≡ 1) }
        ensures pixels { IfSome result (λ piece. HasPixels piece.rect) }
        ensures on_screen { IfSome result (λ piece. (p : Point) → IsTrue (covers piece.rect p)
            → IsOnScreen stack.now.width stack.now.height p) }
        ensures owner { IfSome result (λ piece. (p : Point) → IsTrue (covers piece.rect p)
            → piece.owner
            ≡ option_map view_ref (seat_owner stack.now.bar stack.now.views p)) }
        ensures stands { IfSome result
            (λ piece. IfSome piece.owner (λ v. has_slot v.0 stack.now.views ≡ true)) }
        ensures fewer { IfSome result
            (λ _. pieces_left self.new stack.now < pieces_left self.old stack.now) }
    {
        if self.bar {
            self.bar = false;
            return Some(Piece {
                rect: bar_part(stack),
                owner: None,
            });
        }
        next_cut(&mut self.jobs, self.from, stack)
    }
}
