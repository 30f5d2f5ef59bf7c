ghost use Rattle.std.specs.Prelude.{◌≡◌, ◌≤◌, false, IsTrue, length};
ghost use Rattle.nit_events.specs.Input as input;
ghost use Rattle.nit_focus.specs.Terms.{Flat, IsCode, IsDevice, Kill, Xray, outcome};

use crate::held::Held;
use crate::told::Told;
use nit_events::{Delivery, Device, Event, Item, Mode};
use std::marker::Model;

/// The key that switches to the mode `Xray` and back.
const XRAY_KEY: u16 = 70;

/// The key that switches to the mode `Kill` and back.
const KILL_KEY: u16 = 99;

/// The first code of a button.
const FIRST_BUTTON: u16 = 272;

/// The last code of a button.
const LAST_BUTTON: u16 = 279;

/// The button that kills in the mode `Kill`.
const KILL_BUTTON: u16 = 272;

/// The state of the user's input. Each step of it answers with what it delivers.
#[derive(Drop)]
pub(crate) struct State {
    mode: Mode,
    x: u16,
    y: u16,
    held: Held,
    receiver: Option<u32>,
    hover: Option<u32>,
    focus: Option<u32>,
}

impl Model for State {
    ghost use Rattle.nit_events.specs.Input.{InputState};

    ghost Value = { InputState };

    ghost view = { λ s. record {
      mode = s.mode;
      x = s.x;
      y = s.y;
      held = s.held;
      receiver = s.receiver;
      hover = s.hover;
      focus = s.focus;
    } };
}

impl State {
    /// Before the user has done anything.
    pub(crate) fn first() -> State
        ensures { result ≡ input.first_input }
    {
        State {
            mode: Mode::Flat,
            x: 0,
            y: 0,
            held: Held::nothing(),
            receiver: None,
            hover: None,
            focus: None,
        }
    }

    /// The mode.
    pub(crate) fn mode(&self) -> Mode
        ensures { result ≡ self.now.mode }
    {
        self.mode
    }

    /// The column and the row of the pointer, in pixels.
    pub(crate) fn pointer(&self) -> (u16, u16)
        ensures { result ≡ (self.now.x, self.now.y) }
    {
        (self.x, self.y)
    }

    /// The hovered session.
    pub(crate) fn hover(&self) -> Option<u32>
        ensures { result ≡ self.now.hover }
    {
        self.hover
    }

    /// The focused session.
    pub(crate) fn focus(&self) -> Option<u32>
        ensures { result ≡ self.now.focus }
    {
        self.focus
    }

    /// The codes that are held, in the order in which they went down.
    pub(crate) fn held(&self) -> &[u16]
        ensures { result.now ≡ self.now.held }
    {
        self.held.codes()
    }

    /// The session that gets what is pressed and released.
    pub(crate) fn receiver(&self) -> Option<u32>
        ensures { result ≡ self.now.receiver }
    {
        self.receiver
    }

    /// The pointer's column and row after a device event, on a screen of this size.
    pub(crate) fn place_after(&self, width: u16, height: u16, dev: Device) -> (u16, u16)
        requires { (1 ≤ width) × (1 ≤ height) }
        ensures x { result.0 ≡ (input.pointer_after width height self.now dev).x }
        ensures y { result.1 ≡ (input.pointer_after width height self.now dev).y }
    {
        match dev {
            Device::Motion(x, y) => (x.min(width - 1), y.min(height - 1)),
            Device::Press(_) | Device::Release(_) | Device::Wheel(_) => (self.x, self.y),
        }
    }

    /// The pointer moves, where the device event is a motion.
    pub(crate) fn move_pointer(&mut self, width: u16, height: u16, dev: Device)
        requires { (1 ≤ width) × (1 ≤ height) }
        ensures { self.new ≡ input.pointer_after width height self.old dev }
    {
        let (x, y) = self.place_after(width, height, dev);
        self.x = x;
        self.y = y;
    }

    /// A session that is killed or closed is forgotten.
    pub(crate) fn forget(&mut self, sid: u32)
        ensures { self.new ≡ input.forget self.old sid }
    {
        self.receiver = unless_it_is(sid, self.receiver);
        self.hover = unless_it_is(sid, self.hover);
        self.focus = unless_it_is(sid, self.focus);
    }

    /// One device event: the pointer has moved already. `clicks` tells whether a click on the
    /// pointed session moves the focus.
    pub(crate) fn route(&mut self, clicks: bool, pointed: Option<u32>, dev: Device) -> Told
        requires { IsDevice dev }
        ensures { outcome self.new result ≡ input.routing clicks pointed self.old dev }
    {
        match dev {
            Device::Motion(_, _) => self.moving(pointed, Event::Motion(self.x, self.y)),
            Device::Wheel(turn) => self.moving(pointed, Event::Wheel(turn)),
            Device::Press(code) => self.press(clicks, pointed, code),
            Device::Release(code) => self.release(code),
        }
    }

    /// A motion or a turn of the wheel goes to the receiver while something is held.
    fn moving(&mut self, pointed: Option<u32>, event: Event) -> Told
        ensures { outcome self.new result ≡ input.moving self.old.held pointed self.old event }
    {
        if self.held.is_empty() {
            self.hovering(pointed, event)
        } else {
            Told::to(self.receiver, event)
        }
    }

    /// While nothing is held, it goes to the pointed session in the mode `Flat`, and to none in the
    /// other modes.
    fn hovering(&mut self, pointed: Option<u32>, event: Event) -> Told
        ensures { outcome self.new result ≡ input.hovering self.old.mode pointed self.old event }
    {
        match self.mode {
            Mode::Flat => {
                let left = if is_same(self.hover, pointed) {
                    None
                } else {
                    self.hover
                };
                let mut told = Told::to(left, Event::Leave);
                told.tell(pointed, event);
                self.hover = pointed;
                told
            }
            Mode::Xray | Mode::Kill => Told::nothing(),
        }
    }

    /// A code goes down.
    fn press(&mut self, clicks: bool, pointed: Option<u32>, code: u16) -> Told
        requires { IsCode code }
        ensures { outcome self.new result ≡ input.press clicks pointed self.old code }
    {
        if code == XRAY_KEY {
            self.switching(xray_mode(self.mode))
        } else if code == KILL_KEY {
            self.switching(kill_mode(self.mode))
        } else if self.held.has(code) {
            Told::nothing()
        } else {
            self.pressing(clicks, pointed, code)
        }
    }

    /// A mode key is ignored while something is held.
    fn switching(&mut self, mode: Mode) -> Told
        ensures { outcome self.new result ≡ input.switching self.old.held self.old mode }
    {
        if self.held.is_empty() {
            self.leaving(mode)
        } else {
            Told::nothing()
        }
    }

    /// The mode becomes another. Where it was `Flat`, the hovered session is left.
    fn leaving(&mut self, mode: Mode) -> Told
        ensures { outcome self.new result ≡ input.leaving self.old.mode self.old mode }
    {
        let before = self.mode;
        self.mode = mode;
        match before {
            Mode::Flat => Told::to(self.hover.take(), Event::Leave),
            Mode::Xray | Mode::Kill => Told::nothing(),
        }
    }

    /// A code that is no mode key goes down: it is held, and the receiver of a first press is
    /// chosen by the mode.
    fn pressing(&mut self, clicks: bool, pointed: Option<u32>, code: u16) -> Told
        requires known { IsCode code }
        requires up { input.is_held self.old code ≡ false }
        ensures { outcome self.new result
            ≡ input.pressing self.old.held clicks pointed self.old code }
    {
        let is_first = self.held.is_empty();
        self.held.add(code);
        if is_first {
            self.first_press(clicks, pointed, code)
        } else {
            Told::to(self.receiver, Event::Press(code))
        }
    }

    /// The first code to go down, by the mode.
    fn first_press(&mut self, clicks: bool, pointed: Option<u32>, code: u16) -> Told
        ensures { outcome self.new result
            ≡ input.first_press self.old.mode clicks pointed self.old code }
    {
        match self.mode {
            Mode::Flat => self.flat_press(clicks, pointed, code),
            Mode::Xray => self.xray_press(clicks, pointed, code),
            Mode::Kill => self.kill_press(pointed, code),
        }
    }

    /// A button goes to the pointed session, which is focused by a click; a key goes to the focused
    /// session.
    fn flat_press(&mut self, clicks: bool, pointed: Option<u32>, code: u16) -> Told
        ensures { outcome self.new result ≡ input.first_press Flat clicks pointed self.old code }
    {
        let (receiver, mut told) = if is_button(code) {
            (pointed, self.focusing(clicks, pointed))
        } else {
            (self.focus, Told::nothing())
        };
        self.receiver = receiver;
        told.tell(receiver, Event::Press(code));
        told
    }

    /// A button moves the focus, and nobody gets what is pressed.
    fn xray_press(&mut self, clicks: bool, pointed: Option<u32>, code: u16) -> Told
        ensures { outcome self.new result ≡ input.first_press Xray clicks pointed self.old code }
    {
        self.receiver = None;
        if is_button(code) {
            self.focusing(clicks, pointed)
        } else {
            Told::nothing()
        }
    }

    /// The first code of a button.
    const FIRST_BUTTON: u16 = 272;

    /// The last code of a button.
    const LAST_BUTTON: u16 = 279;

    /// The button that kills ends the mode and kills the pointed session; nobody gets what is
    /// pressed.
    fn kill_press(&mut self, pointed: Option<u32>, code: u16) -> Told
        ensures { outcome self.new result ≡ input.first_press Kill false pointed self.old code }
    {
        self.receiver = None;
        if code == KILL_BUTTON {
            self.killing(pointed)
        } else {
            Told::nothing()
        }
    }

    /// The pointed session is killed, and forgotten.
    fn killing(&mut self, pointed: Option<u32>) -> Told
        ensures { outcome self.new result ≡ input.killing pointed self.old }
    {
        self.mode = Mode::Flat;
        let mut told = Told::nothing();
        if let Some(sid) = pointed {
            self.forget(sid);
            told.add(Delivery {
                sid,
                item: Item::Kill,
            });
        }
        told
    }

    /// A click moves the focus to the pointed session, or to none where it points at none. A
    /// session that takes no focus by clicks leaves it where it is.
    fn focusing(&mut self, clicks: bool, pointed: Option<u32>) -> Told
        ensures step { outcome self.new result ≡ input.focusing clicks pointed self.old }
        ensures few { length result ≤ 2 }
    {
        if (clicks || pointed.is_none()) && !is_same(pointed, self.focus) {
            let mut told = Told::to(self.focus, Event::FocusLeave);
            told.tell(pointed, Event::FocusEnter);
            self.focus = pointed;
            told
        } else {
            Told::nothing()
        }
    }

    /// A code goes up. Where nothing is held any more, there is no receiver.
    fn release(&mut self, code: u16) -> Told
        ensures { outcome self.new result ≡ input.release self.old code }
    {
        if !self.held.has(code) {
            return Told::nothing();
        }
        let told = Told::to(self.receiver, Event::Release(code));
        self.held.remove(code);
        let was_last = self.held.is_empty();
        if was_last {
            self.receiver = None;
        }
        told
    }
}

/// Whether these are the same session, or none both times.
fn is_same(one: Option<u32>, other: Option<u32>) -> bool
    ensures { result ≡ input.is_same one other }
{
    one == other
}

/// None where it is this session.
fn unless_it_is(sid: u32, other: Option<u32>) -> Option<u32>
    ensures { result ≡ input.unless_it_is sid other }
{
    if is_same(Some(sid), other) {
        None
    } else {
        other
    }
}

/// Whether the code is a button's.
fn is_button(code: u16) -> bool
    ensures { result ≡ input.is_button code }
{
    FIRST_BUTTON <= code && code <= LAST_BUTTON
}

/// The mode that the X-ray key makes of a mode.
fn xray_mode(mode: Mode) -> Mode
    ensures { result ≡ input.xray_mode mode }
{
    match mode {
        Mode::Xray => Mode::Flat,
        Mode::Flat | Mode::Kill => Mode::Xray,
    }
}

/// The mode that the kill key makes of a mode.
fn kill_mode(mode: Mode) -> Mode
    ensures { result ≡ input.kill_mode mode }
{
    match mode {
        Mode::Kill => Mode::Flat,
        Mode::Flat | Mode::Xray => Mode::Kill,
    }
}
