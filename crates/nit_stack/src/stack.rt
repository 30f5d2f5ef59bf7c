//! The stack.

ghost use Rattle.std.specs.Prelude.{◌≡◌, ℕ, ◌+◌, ◌<◌, ◌≤◌, [], false, true, length, map, nat_lt};
ghost use Rattle.nit_stack.specs.Terms.{IfOk, IfSome, IfWord, IsBar, IsOnScreen, IsPlace};
ghost use Rattle.nit_stack.specs.Terms.{IsRectInRange, IsScreenSize, IsStack, Some, changed};
ghost use Rattle.nit_stack.specs.Terms.{empty_stack, fresh, fresh_in, has_slot, is_named};
ghost use Rattle.nit_stack.specs.Terms.{is_of_session, is_slot, layer_of, list_any, most_sessions};
ghost use Rattle.nit_stack.specs.Terms.{most_side, most_slots, moved, moved_above, on_view};
ghost use Rattle.nit_stack.specs.Terms.{option_map, pixel_source, place_of, put_front};
ghost use Rattle.nit_stack.specs.Terms.{put_own_back, put_own_front, seat_owner, session_of};
ghost use Rattle.nit_stack.specs.Terms.{size_of, slice_get, slice_set, slot_layer, slot_view_in};
ghost use Rattle.nit_stack.specs.Terms.{slot_view_layer, source, source_owner, view_ref, views_of};
ghost use Rattle.nit_stack.specs.Terms.{with_offset, with_rect, with_title, without, word_count};

use crate::order::{covering, place_of, put_in_above, put_in_back, put_in_front, ref_at, take_out};
use crate::showing::shown_index;
use crate::view::{Source, View, ViewRef};
use nit_glyph::Title;
use nit_rect::{NoMemory, Point, Rect};
use std::alloc::Global;
use std::marker::Model;

/// The one ordered stack of all views of all sessions, front first, with each session's buffer size
/// and layer, the screen's size and the number of bar rows.
#[derive(Debug, Drop)]
pub struct Stack {
    order: Vec<u32>,
    slots: Vec<View>,
    sizes: Vec<(u32, u32)>,
    layers: Vec<u32>,
    width: u32,
    height: u32,
    bar: u32,
}

impl Model for Stack {
    ghost use Rattle.std.specs.Prelude.{◌≤◌, length, vec_capacity};
    ghost use Rattle.nit_stack.specs.Stack.{StackModel, IsStack};
    ghost use Rattle.nit_stack.specs.StackFields.{stack_model};

    ghost Value = { StackModel };

    ghost view = { λ s. stack_model s.order.items s.slots.items s.sizes.items s.layers.items
        s.width s.height s.bar };

    ghost invariant = { λ s. record {
      standing : IsStack (stack_model s.order.items s.slots.items s.sizes.items s.layers.items
          s.width s.height s.bar);
      space : length s.slots.items ≤ vec_capacity s.order;
    } };
}

impl Stack {
    /// A stack of no view, with room for `most`, on a screen of `width` by `height` without a bar.
    /// No session has a buffer yet, and all have layer 0.
    pub fn new(
        alloc: Global,
        width: u32,
        height: u32,
        sessions: u32,
        most: u32,
    ) -> Result<Stack, NoMemory>
        requires screen { IsScreenSize width height }
        requires sessions { (1 ≤ sessions) × (sessions ≤ most_sessions) }
        requires most { most ≤ most_slots }
        ensures { IfOk result (λ s. s ≡ empty_stack width height sessions most) }
    {
        let order = Vec::with_capacity(alloc, most as usize)?;
        let slots = vec![in alloc; fresh(0, 0); most as usize]?;
        let sizes = vec![in alloc; (0, 0); sessions as usize]?;
        let layers = vec![in alloc; 0; sessions as usize]?;
        Ok(Stack {
            order,
            slots,
            sizes,
            layers,
            width,
            height,
            bar: 0,
        })
    }

    /// Gives a session that has no view its layer, 0..=7. Layer 0 is the front-most.
    pub fn set_layer(&mut self, sid: u32, layer: u32)
        requires session { sid < length self.old.sizes }
        requires without_view { list_any (is_of_session sid) self.old.views ≡ false }
        requires layer { layer ≤ 7 }
        ensures { self.new ≡ record self.old { layers = slice_set self.old.layers sid layer } }
    {
        self.layers[sid as usize] = layer;
    }

    /// Gives the status bar this number of rows, 0..=72 and fewer than the screen has, while no view
    /// is there.
    pub fn set_bar(&mut self, rows: u32)
        requires empty { self.old.views ≡ [] }
        requires rows { IsBar rows self.old.height }
        ensures { self.new ≡ record self.old { bar = rows } }
    {
        self.bar = rows;
    }

    /// Gives a session's buffer a size, 0..=4096 each way.
    pub fn set_buffer(&mut self, sid: u32, w: u32, h: u32)
        requires session { sid < length self.old.sizes }
        requires size { (w ≤ most_side) × (h ≤ most_side) }
        ensures { self.new ≡ record self.old {
          sizes = slice_set self.old.sizes sid (record { w = w; h = h });
        } }
    {
        self.sizes[sid as usize] = (w, h);
    }

    /// A new view of a session in a free slot. It stands in front of all views of the session's
    /// layer and of the layers behind. Its rectangle is empty and at (0, 0), its offset (0, 0), its
    /// title empty.
    pub fn push_front(&mut self, v: ViewRef, sid: u32, handle: u32)
        requires slot { v.0 < self.old.most }
        requires free { has_slot v.0 self.old.views ≡ false }
        requires session { sid < length self.old.sizes }
        requires named { list_any (is_named sid handle) self.old.views ≡ false }
        ensures { self.new ≡ record self.old {
          views = put_front (slot_view_layer self.old.layers) (layer_of self.old.layers sid)
              (fresh_in v.0 sid handle) self.old.views;
        } }
    {
        self.slots[v.0 as usize] = fresh(sid, handle);
        put_in_front(
            &mut self.order,
            self.slots.as_slice(),
            self.layers.as_slice(),
            v.0,
        );
    }

    /// Takes a view out. Its slot is free then.
    pub fn remove(&mut self, v: ViewRef)
        requires { has_slot v.0 self.old.views ≡ true }
        ensures { self.new ≡ record self.old { views = without (is_slot v.0) self.old.views } }
    {
        take_out(&mut self.order, v.0);
    }

    /// Moves a view in front of all views of its session's layer and of the layers behind.
    pub fn front(&mut self, v: ViewRef)
        requires { has_slot v.0 self.old.views ≡ true }
        ensures { self.new ≡ record self.old {
          views = moved (is_slot v.0)
              (put_own_front (slot_view_layer self.old.layers)) self.old.views;
        } }
    {
        take_out(&mut self.order, v.0);
        put_in_front(
            &mut self.order,
            self.slots.as_slice(),
            self.layers.as_slice(),
            v.0,
        );
    }

    /// Moves a view behind all views of its session's layer and of the layers in front.
    pub fn back(&mut self, v: ViewRef)
        requires { has_slot v.0 self.old.views ≡ true }
        ensures { self.new ≡ record self.old {
          views = moved (is_slot v.0)
              (put_own_back (slot_view_layer self.old.layers)) self.old.views;
        } }
    {
        take_out(&mut self.order, v.0);
        put_in_back(
            &mut self.order,
            self.slots.as_slice(),
            self.layers.as_slice(),
            v.0,
        );
    }

    /// Moves the view `v` directly in front of `n`, whose session has the same layer. Nothing
    /// changes where the two are one.
    pub fn above(&mut self, v: ViewRef, n: ViewRef)
        requires moved { has_slot v.0 self.old.views ≡ true }
        requires behind { has_slot n.0 self.old.views ≡ true }
        requires layer { slot_layer self.old v.0 ≡ slot_layer self.old n.0 }
        ensures { self.new ≡ record self.old { views = moved_above v.0 n.0 self.old.views } }
    {
        if v.0 == n.0 {
            return;
        }
        take_out(&mut self.order, v.0);
        put_in_above(&mut self.order, v.0, n.0);
    }

    /// Gives a view a rectangle. It keeps its place in the stack.
    pub fn place(&mut self, v: ViewRef, r: Rect)
        requires { has_slot v.0 self.old.views ≡ true }
        ensures { self.new ≡ record self.old {
          views = changed (is_slot v.0) (on_view (with_rect r)) self.old.views;
        } }
    {
        in_range(r);
        self.slots[v.0 as usize].rect = r;
    }

    /// Gives a view an offset, -32768..=32767 each way.
    pub fn offset(&mut self, v: ViewRef, ox: i32, oy: i32)
        requires view { has_slot v.0 self.old.views ≡ true }
        requires range { IsPlace ox × IsPlace oy }
        ensures { self.new ≡ record self.old {
          views = changed (is_slot v.0) (on_view (with_offset ox oy)) self.old.views;
        } }
    {
        let view = &mut self.slots[v.0 as usize];
        view.ox = ox;
        view.oy = oy;
    }

    /// Gives a view a title.
    pub fn title(&mut self, v: ViewRef, t: Title)
        requires { has_slot v.0 self.old.views ≡ true }
        ensures { self.new ≡ record self.old {
          views = changed (is_slot v.0) (on_view (with_title t)) self.old.views;
        } }
    {
        self.slots[v.0 as usize].title = t;
    }

    /// The number of views, at most as many as there are slots.
    pub fn len(&self) -> u32
        ensures count { result ≡ length self.now.views }
        ensures most { result ≤ self.now.most }
        ensures standing { IsStack self.now }
    {
        self.order.len() as u32
    }

    /// The view at place `i` from the front, from 0.
    pub fn at(&self, i: u32) -> ViewRef
        requires { i < length self.now.views }
        ensures place { slice_get (map view_ref self.now.views) i ≡ Some result }
        ensures stands { has_slot result.0 self.now.views ≡ true }
    {
        ViewRef(self.order[i as usize])
    }

    /// The front-most view. None exactly where there is no view.
    pub fn first(&self) -> Option<ViewRef>
        ensures place { result ≡ slice_get (map view_ref self.now.views) 0 }
        ensures stands { IfSome result (λ v. has_slot v.0 self.now.views ≡ true) }
    {
        ref_at(self.order.as_slice(), 0)
    }

    /// The view directly behind `v`. None exactly where `v` is the last one.
    pub fn next(&self, v: ViewRef) -> Option<ViewRef>
        requires { has_slot v.0 self.now.views ≡ true }
        ensures place { (i : ℕ) → slice_get (map view_ref self.now.views) i ≡ Some v
            → result ≡ slice_get (map view_ref self.now.views) (i + 1) }
        ensures stands { IfSome result (λ n. has_slot n.0 self.now.views ≡ true) }
    {
        let place = place_of(self.order.as_slice(), v.0);
        ref_at(self.order.as_slice(), place + 1)
    }

    /// How many views stand in front of this one: its place, from 0. All of them, where the view
    /// does not stand.
    pub fn place_of(&self, v: ViewRef) -> u32
        ensures place { result ≡ place_of v.0 self.now.views }
        ensures within { result ≤ length self.now.views }
        ensures stands { nat_lt result (length self.now.views) ≡ has_slot v.0 self.now.views }
        ensures view { has_slot v.0 self.now.views ≡ true
            → slice_get (map view_ref self.now.views) result ≡ Some v }
    {
        place_of(self.order.as_slice(), v.0) as u32
    }

    /// The rectangle of a view.
    pub fn rect(&self, v: ViewRef) -> Rect
        requires { has_slot v.0 self.now.views ≡ true }
        ensures rect { option_map (λ s. s.view.rect) (slot_view_in v.0 self.now.views)
            ≡ Some result }
        ensures place { (i : ℕ) → slice_get (map view_ref self.now.views) i ≡ Some v
            → option_map (λ s. s.view.rect) (slice_get self.now.views i) ≡ Some result }
        ensures standing { IsStack self.now }
    {
        self.slots[v.0 as usize].rect
    }

    /// The session of a view.
    pub fn session(&self, v: ViewRef) -> u32
        requires { has_slot v.0 self.now.views ≡ true }
        ensures { (i : ℕ) → slice_get (map view_ref self.now.views) i ≡ Some v
            → option_map (λ s. s.view.sid) (slice_get self.now.views i) ≡ Some result }
    {
        self.slots[v.0 as usize].sid
    }

    /// The record of a view.
    pub fn view(&self, v: ViewRef) -> View
        requires { has_slot v.0 self.now.views ≡ true }
        ensures value { slot_view_in v.0 self.now.views
            ≡ Some (record { slot = v.0; view = result }) }
        ensures place { (i : ℕ) → slice_get (map view_ref self.now.views) i ≡ Some v
            → slice_get self.now.views i ≡ Some (record { slot = v.0; view = result }) }
        ensures standing { IsStack self.now }
    {
        self.slots[v.0 as usize]
    }

    /// The width and height of a session's buffer, 0 by 0 before it has one.
    pub fn buffer(&self, sid: u32) -> (u32, u32)
        requires { sid < length self.now.sizes }
        ensures size { record { w = result.0; h = result.1 } ≡ size_of self.now.sizes sid }
        ensures range { (result.0 ≤ most_side) × (result.1 ≤ most_side) }
    {
        self.sizes[sid as usize]
    }

    /// The screen's width and height.
    pub fn size(&self) -> (u32, u32)
        ensures size { result ≡ (self.now.width, self.now.height) }
        ensures range { IsScreenSize result.0 result.1 }
    {
        (self.width, self.height)
    }

    /// The number of bar rows, 0..=72.
    pub fn bar(&self) -> u32
        ensures rows { result ≡ self.now.bar }
        ensures range { IsBar result self.now.height }
    {
        self.bar
    }

    /// The front-most view that covers the pixel. None exactly where no view covers it or it lies
    /// in the bar.
    pub fn owner(&self, p: Point) -> Option<ViewRef>
        ensures owner { result ≡ option_map view_ref (seat_owner self.now.bar self.now.views p) }
        ensures stands { IfSome result (λ v. has_slot v.0 self.now.views ≡ true) }
        ensures standing { IsStack self.now }
    {
        if p.y < self.bar as i32 {
            return None;
        }
        covering(self.order.as_slice(), self.slots.as_slice(), p)
    }

    /// Where the word of a pixel of the screen comes from.
    pub fn source(&self, p: Point) -> Source
        requires { IsOnScreen self.now.width self.now.height p }
        ensures source { pixel_source self.now.views result
            ≡ source (size_of self.now.sizes) self.now.bar (views_of self.now.views) p }
        ensures owner { source_owner result
            ≡ option_map view_ref (seat_owner self.now.bar self.now.views p) }
        ensures within { IfWord result
            (λ v i. i < word_count (size_of self.now.sizes (session_of self.now.views v.0))) }
        ensures stands { IfSome (source_owner result) (λ v. has_slot v.0 self.now.views ≡ true) }
        ensures standing { IsStack self.now }
    {
        let Some(v) = self.owner(p) else {
            return Source::Bare;
        };
        let view = self.view(v);
        let (w, h) = self.buffer(view.sid);
        match shown_index(&view, w, h, p) {
            Some(i) => Source::Word(v, i),
            None => Source::Black(v),
        }
    }
}

/// A view as it is made.
fn fresh(sid: u32, handle: u32) -> View
    ensures { result ≡ fresh sid handle }
{
    View {
        sid,
        handle,
        rect: Rect::of(0, 0, 0, 0),
        ox: 0,
        oy: 0,
        title: Title::of(&[]),
    }
}

/// The numbers of every rectangle are in their range.
fn in_range(r: Rect)
    ensures { IsRectInRange r }
{
    let _place = (r.x(), r.y());
    let _lengths = (r.w(), r.h());
}
