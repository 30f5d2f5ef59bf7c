//! The pixels of a screen, and the frame that is kept of them.

ghost use Rattle.std.specs.Prelude.{◌≡◌, ℕ, ◌*◌, ◌<◌, ◌≤◌, All, IsTrue, Option, false, length, map};
ghost use Rattle.std.specs.Prelude.{nat_lt, slice_index, true, if◌then◌else◌};
ghost use Rattle.nit_screen.specs.Terms.{AreLabelled, ArePixels, ArePlaced, AreRaw, CanShowBy};
ghost use Rattle.nit_screen.specs.Terms.{Flat, IsOnlyCut, IsPartShown, IsServer, IsShown, IsWord};
ghost use Rattle.nit_screen.specs.Terms.{ServerModel, ShowsBelow};
ghost use Rattle.nit_screen.specs.Terms.{bar_rows, bar_word, draws_labels, frame, kept_frame};
ghost use Rattle.nit_screen.specs.Terms.{pixel, raw_of, scenery_of, state_of, wanted};

use crate::screen::framing::frame_of;
use crate::screen::labels::Labels;
use crate::screen::lists::{reach, take_bar_off};
use nit_events::Mode;
use nit_overlay::{LetteredLook, Look, bar_into};
use nit_rect::Rect;
use nit_repaint::Painter;
use nit_server::Server;

/// The raw word of each pixel of a screen and the frame of them, each row by row from the top, with
/// what they are shown by: the labels of the sessions, and the places of the views' labels.
///
/// Where labels are drawn, the raw words stand apart from the frame. In mode Flat one list is both:
/// the painter's `raw` has the frame, which differs from the raw words in the pixels of the bar
/// alone, and the words of `frame` have no meaning. So a pixel is written once when it is loaded,
/// and `frame` is room alone until labels are drawn for the first time.
///
/// What changes more of the frame than it loads marks the frame as stale, and the frame is made
/// when it is asked for, once, however many such changes there were. A frame that is not stale has
/// the labels of the views as they stand. So a refresh, which moves no view, places no label anew.
#[derive(Drop)]
pub struct Pixels {
    pub painter: Painter,
    pub frame: Vec<u32>,
    /// Whether the raw words stand apart from the frame.
    pub is_apart: bool,
    /// Whether the frame is still to be made. The raw words stand apart then.
    pub is_stale: bool,
    /// How many pixels the bar has. They are the first ones.
    pub bar: usize,
    pub labels: Labels,
}

impl Pixels {
    /// The frame.
    pub(crate) fn frame(&self) -> &[u32]
        ensures { result.now ≡ kept_frame self.now }
    {
        if self.is_apart {
            self.frame.as_slice()
        } else {
            self.painter.raw.as_slice()
        }
    }

    /// Leaves the whole frame to be made when it is asked for. The raw words stay.
    pub(crate) fn mark(&mut self)
        requires { self.old.bar ≤ length self.old.painter.raw.items }
        ensures { (s : ServerModel) → CanShowBy s self.old → IsShown s self.old self.new }
    {
        take_bar_off(&mut self.painter.raw, self.is_apart, self.bar);
        self.is_apart = true;
        self.is_stale = true;
    }

    /// Makes the frame, if it is still to be made.
    pub(crate) fn show(&mut self, server: &Server)
        requires pixels { ArePixels server.now self.old }
        requires raw { AreRaw (state_of server.now) (raw_of self.old) }
        ensures shown { IsShown server.now self.old self.new }
        ensures fresh { self.new.is_stale ≡ false }
    {
        if !self.is_stale {
            return;
        }
        match server.mode() {
            Mode::Flat => self.make_one(server),
            _ => self.redraw(server),
        }
    }

    /// Makes the whole frame, apart from the raw words.
    fn redraw(&mut self, server: &Server)
        requires can { CanShowBy server.now self.old }
        requires apart { self.old.is_apart ≡ true }
        ensures shown { IsShown server.now self.old self.new }
        ensures fresh { self.new.is_stale ≡ false }
    {
        self.is_stale = false;
        reach(&mut self.frame, self.painter.raw.len());
        frame_of(
            server,
            &mut self.painter,
            &mut self.labels,
            self.frame.as_mut_slice(),
        );
    }

    /// Shows again, after the input went on, what was shown in this mode with this focus: the bar
    /// where the focus moved in mode Flat, and nothing else there. Where the mode changed, or the
    /// focus moved in another mode, the frame is stale.
    pub(crate) fn show_input(&mut self, server: &Server, mode: Mode, focus: Option<u32>)
        requires can { CanShowBy server.now self.old }
        requires before { self.old.is_stale ≡ false → kept_frame self.old
            ≡ frame (record (scenery_of (state_of server.now)) { mode = mode; focus = focus })
            (raw_of self.old) }
        requires apart { IsTrue (draws_labels mode) → self.old.is_apart ≡ true }
        requires placed { self.old.is_stale ≡ false → IsTrue (draws_labels mode)
            → ArePlaced server.now self.old }
        requires fresh { self.old.is_apart ≡ false → self.old.is_stale ≡ false }
        ensures { IsShown server.now self.old self.new }
    {
        if server.mode() != mode {
            self.mark();
            return;
        }
        if server.focus() == focus {
            return;
        }
        self.show_again(server);
    }

    /// Shows again the bar, where one list is both and is right below the bar in mode Flat. Else
    /// the frame is stale.
    pub(crate) fn show_again(&mut self, server: &Server)
        requires can { CanShowBy server.now self.old }
        requires below { server.now.input.mode ≡ Flat → self.old.is_apart ≡ false
            → ShowsBelow (state_of server.now) self.old.painter.raw.items }
        requires fresh { self.old.is_apart ≡ false → self.old.is_stale ≡ false }
        ensures shown { IsShown server.now self.old self.new }
        ensures one { server.now.input.mode ≡ Flat → self.old.is_apart ≡ false
            → self.new.is_apart ≡ false }
    {
        if self.is_apart {
            self.mark();
            return;
        }
        match server.mode() {
            Mode::Flat => draw_bar(server, &self.labels, &mut self.painter.raw),
            _ => self.mark(),
        }
    }

    /// Where views or their titles changed, the frame is stale in the modes that draw labels. In
    /// mode Flat nothing is to be done: one list has the words that were loaded and the frame.
    pub(crate) fn show_views(&mut self, server: &Server)
        requires { CanShowBy server.now self.old }
        ensures flat { server.now.input.mode ≡ Flat → self.new ≡ self.old }
        ensures labelled { IsTrue (draws_labels server.now.input.mode)
            → IsShown server.now self.old self.new }
    {
        match server.mode() {
            Mode::Flat => {}
            _ => self.mark(),
        }
    }

    /// Shows again, in the modes that draw labels, what views of a session own and what of it shows
    /// this part of its buffer, or all of it, once it was loaded. In mode Flat the frame stays, and
    /// so does one that is stale.
    pub(crate) fn show_part(&mut self, server: &Server, of: u32, part: &Option<Rect>)
        requires can { CanShowBy server.now self.old }
        requires apart { self.old.is_stale ≡ false → IsTrue (draws_labels server.now.input.mode)
            → length self.old.frame.items ≡ length self.old.painter.raw.items }
        requires placed { self.old.is_stale ≡ false → IsTrue (draws_labels server.now.input.mode)
            → ArePlaced server.now self.old }
        ensures flat { server.now.input.mode ≡ Flat → self.new ≡ self.old }
        ensures stale { self.old.is_stale ≡ true → self.new ≡ self.old }
        ensures labelled { self.old.is_stale ≡ false → IsTrue (draws_labels server.now.input.mode)
            → IsPartShown server.now
            (λ k. wanted of part.now server.now.stack (pixel server.now.stack.width k))
            self.old self.new }
    {
        if self.is_stale {
            return;
        }
        match server.mode() {
            Mode::Flat => {}
            _ => self.overlay_part(server, of, part),
        }
    }

    /// Sets the frame to what is shown at what views of a session own, or at what of it shows a
    /// part of its buffer. The labels stand where they stood.
    fn overlay_part(&mut self, server: &Server, of: u32, part: &Option<Rect>)
        requires can { CanShowBy server.now self.old }
        requires apart { length self.old.frame.items ≡ length self.old.painter.raw.items }
        requires placed { IsTrue (draws_labels server.now.input.mode)
            → ArePlaced server.now self.old }
        ensures { IsPartShown server.now
            (λ k. wanted of part.now server.now.stack (pixel server.now.stack.width k))
            self.old self.new }
    {
        server.facts();
        let look = LetteredLook {
            look: Look {
                stack: server.stack(),
                labels: self.labels.texts.as_slice(),
                mode: server.mode(),
                focus: server.focus(),
                places: self.labels.places.as_slice(),
            },
            lettering: server.lettering(),
        };
        self.painter
            .show_session(&look, of, part, self.frame.as_mut_slice());
    }
}

/// Sets the words of the bar's pixels to what is shown there in mode Flat.
fn draw_bar(server: &Server, labels: &Labels, words: &mut Vec<u32>)
    requires flat { server.now.input.mode ≡ Flat }
    requires named { labels.now.texts.items ≡ map (λ m. m.label) server.now.config.clients }
    requires pixels { length words.old.items ≡ server.now.config.width * server.now.config.height }
    ensures facts { IsServer server.now }
    ensures shown { (k : ℕ) → slice_index words.new.items k
        ≡ (if nat_lt k (server.now.config.width * bar_rows server.now.config)
        then bar_word (scenery_of (state_of server.now)) (pixel server.now.config.width k)
        else slice_index words.old.items k) }
    ensures length { length words.new.items ≡ length words.old.items }
{
    server.facts();
    let look = LetteredLook {
        look: Look {
            stack: server.stack(),
            labels: labels.texts.as_slice(),
            mode: Mode::Flat,
            focus: server.focus(),
            places: labels.places.as_slice(),
        },
        lettering: server.lettering(),
    };
    bar_into(&look, words.as_mut_slice());
}
