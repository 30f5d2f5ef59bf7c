ghost use Rattle.std.specs.Prelude.{◌≡◌, ◌<◌, ◌≤◌, false, length, slice_set, IfSome};
ghost use Rattle.nit_focus.specs.Terms.{All, AllOfInput, HasForgotten, IsDevice};
ghost use Rattle.nit_focus.specs.Terms.{IsForgottenIfKilled, IsItem, IsOnScreen, IsWithinReach};
ghost use Rattle.nit_focus.specs.Terms.{clicks_on_list, first_focus, most_height, most_sessions};
ghost use Rattle.nit_focus.specs.Terms.{most_width, pointer, routing_at, with_pointer};
ghost use Rattle.nit_events.specs.Input as input;

use crate::state::State;
use nit_events::{Device, Mode, Routed};
use nit_rect::{MOST_SESSIONS, Point};
use std::marker::Model;

/// Where the user's input goes. It is seen as the state of the input beside the screen's size and,
/// for each of 64 sessions, whether a click on it moves the focus.
#[derive(Drop)]
pub struct Focus {
    width: u16,
    height: u16,
    clicks: [bool; MOST_SESSIONS],
    state: State,
}

impl Model for Focus {
    ghost use Rattle.nit_focus.specs.Focus.{FocusModel, IsFocus};

    ghost Value = { FocusModel };

    ghost view = { λ f. record {
      input = f.state;
      width = f.width;
      height = f.height;
      clicks = f.clicks;
    } };

    ghost invariant = { λ f. IsFocus
        (record { input = f.state; width = f.width; height = f.height; clicks = f.clicks }) };
}

impl Focus {
    /// Before the user has done anything, on a screen of 1..=4096 by 1..=4096 pixels. A click on
    /// any session moves the focus. It takes no memory.
    pub fn new(width: u32, height: u32) -> Focus
        requires narrowest { 1 ≤ width }
        requires widest { width ≤ most_width }
        requires lowest { 1 ≤ height }
        requires highest { height ≤ most_height }
        ensures { result ≡ first_focus width height }
    {
        Focus {
            width: width as u16,
            height: height as u16,
            clicks: [true; MOST_SESSIONS],
            state: State::first(),
        }
    }

    /// From now on a click on this session, which is below 64, does not move the focus.
    pub fn no_click(&mut self, sid: u32)
        requires { sid < most_sessions }
        ensures { self.new ≡ record self.old { clicks = slice_set self.old.clicks sid false } }
    {
        self.clicks[sid as usize] = false;
    }

    /// Where the pointer will be after this device event.
    pub fn clamp(&self, dev: Device) -> Point
        ensures place { result ≡ pointer (with_pointer self.now dev) }
        ensures on_screen { IsOnScreen self.now.width self.now.height result }
    {
        let (x, y) = self.state.place_after(self.width, self.height, dev);
        Point {
            x: x as i32,
            y: y as i32,
        }
    }

    /// One device event, whole: its codes are at most 767, and a wheel turns by -127..=127.
    /// `pointed` is the session that owns the pixel at [`Focus::clamp`], below 64, or none.
    ///
    /// The deliveries stand in their order, at most three, and go to sessions that were receiver,
    /// hovered or focused, or are pointed. Who is one of the three afterwards is among these too,
    /// and was not killed.
    pub fn input(&mut self, dev: Device, pointed: Option<u32>) -> Routed
        requires device { IsDevice dev }
        requires known { IfSome pointed (λ s. s < most_sessions) }
        ensures state { self.new
            ≡ record self.old { input = (routing_at self.old pointed dev).state } }
        ensures routed { result ≡ input.routed_as (routing_at self.old pointed dev).deliveries }
        ensures all { input.deliveries_of result ≡ (routing_at self.old pointed dev).deliveries }
        ensures few { length (routing_at self.old pointed dev).deliveries ≤ 3 }
        ensures reached { All (λ d. IsWithinReach self.old.input pointed d.sid)
            (input.deliveries_of result) }
        ensures sessions { All (λ d. d.sid < most_sessions) (input.deliveries_of result) }
        ensures ranges { All (λ d. IsItem self.old.width self.old.height d.item)
            (input.deliveries_of result) }
        ensures kept { AllOfInput (IsWithinReach self.old.input pointed) self.new.input }
        ensures forgotten { All (λ d. IsForgottenIfKilled self.new.input d.sid d.item)
            (input.deliveries_of result) }
    {
        self.state.move_pointer(self.width, self.height, dev);
        let clicks = clicks_on(&self.clicks, pointed);
        self.state.route(clicks, pointed, dev).routed()
    }

    /// A session that is killed or closed is forgotten: it is not the receiver, the hovered or the
    /// focused one.
    pub fn forget(&mut self, sid: u32)
        ensures state { self.new ≡ record self.old { input = input.forget self.old.input sid } }
        ensures forgotten { HasForgotten self.new.input sid }
    {
        self.state.forget(sid);
    }

    /// The mode.
    pub fn mode(&self) -> Mode
        ensures { result ≡ self.now.input.mode }
    {
        self.state.mode()
    }

    /// The column and the row of the pointer, which is on the screen, in pixels.
    pub fn pointer(&self) -> (u16, u16)
        ensures place { result ≡ (self.now.input.x, self.now.input.y) }
        ensures column { result.0 < self.now.width }
        ensures row { result.1 < self.now.height }
    {
        self.state.pointer()
    }

    /// The codes that are held, in the order in which they went down.
    pub fn held(&self) -> &[u16]
        ensures { result.now ≡ self.now.input.held }
    {
        self.state.held()
    }

    /// The session that gets what is pressed and released while a code is held, below 64; none
    /// where no session does.
    pub fn receiver(&self) -> Option<u32>
        ensures received { result ≡ self.now.input.receiver }
        ensures known { IfSome result (λ s. s < most_sessions) }
    {
        self.state.receiver()
    }

    /// The session that the pointer was last told to, below 64; none where it is over no session.
    pub fn hover(&self) -> Option<u32>
        ensures hovered { result ≡ self.now.input.hover }
        ensures known { IfSome result (λ s. s < most_sessions) }
    {
        self.state.hover()
    }

    /// The focused session, below 64; none where no session has the focus.
    pub fn focus(&self) -> Option<u32>
        ensures focused { result ≡ self.now.input.focus }
        ensures known { IfSome result (λ s. s < most_sessions) }
    {
        self.state.focus()
    }
}

/// Whether by this list a click on the pointed session moves the focus.
fn clicks_on(clicks: &[bool], pointed: Option<u32>) -> bool
    requires { IfSome pointed (λ s. s < length clicks.now) }
    ensures { result ≡ clicks_on_list clicks.now pointed }
{
    match pointed {
        None => false,
        Some(sid) => clicks[sid as usize],
    }
}
