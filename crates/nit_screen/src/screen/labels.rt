//! Where the labels of the views stand.

ghost use Rattle.std.specs.Prelude.{◌≡◌, ◌<◌, ◌≤◌, length, IsTrue, Some, option_map, slice_get};
ghost use Rattle.nit_screen.specs.Terms.{AreLabelled, IsLettering, IsMapOf, IsRoomFor, SlotView};
ghost use Rattle.nit_screen.specs.Terms.{draws_labels, label_place_of, label_scenery, pixel_at};

use crate::screen::owners::OwnerMap;
use nit_events::Mode;
use nit_glyph::{Label, Lettering, label_text, text_size};
use nit_place::place_label;
use nit_rect::Point;
use nit_stack::Stack;

/// The label of each session, at the slot of each view the place of the view's label, and the map
/// of owners by which the places are found where there are many views.
#[derive(Drop)]
pub struct Labels {
    pub texts: Vec<Label>,
    pub places: Vec<Option<Point>>,
    pub owners: OwnerMap,
}

impl Labels {
    /// Works out where the labels of the views stand, one by one, where the mode draws labels. In
    /// mode Flat, which draws none, no place is worked out.
    pub(crate) fn place_each(&mut self, mode: Mode, stack: &Stack, lettering: Lettering)
        requires lettering { IsLettering lettering }
        requires labels { length self.old.texts.items ≡ length stack.now.sizes }
        requires slots { stack.now.most ≤ length self.old.places.items }
        ensures placed { IsTrue (draws_labels mode)
            → AreLabelled lettering stack.now self.old.texts.items self.new.places.items }
        ensures count { length self.new.places.items ≡ length self.old.places.items }
        ensures texts { self.new.texts ≡ self.old.texts }
        ensures owners { self.new.owners ≡ self.old.owners }
    {
        match mode {
            Mode::Flat => {}
            _ => place_each(
                stack,
                self.texts.as_slice(),
                lettering,
                self.places.as_mut_slice(),
            ),
        }
    }

    /// Does the same by the map of owners, all in one pass over the screen, whose time does not
    /// grow with the number of views.
    pub(crate) fn place_by_map(&mut self, mode: Mode, stack: &Stack, lettering: Lettering)
        requires lettering { IsLettering lettering }
        requires labels { length self.old.texts.items ≡ length stack.now.sizes }
        requires slots { stack.now.most ≤ length self.old.places.items }
        requires map { IsMapOf stack.now self.old.owners.map }
        requires room { IsRoomFor stack.now.width stack.now.height (length self.old.places.items)
            self.old.owners }
        ensures placed { IsTrue (draws_labels mode)
            → AreLabelled lettering stack.now self.old.texts.items self.new.places.items }
        ensures count { length self.new.places.items ≡ length self.old.places.items }
        ensures texts { self.new.texts ≡ self.old.texts }
        ensures owners { self.new.owners ≡ self.old.owners }
    {
        let texts = self.texts.as_slice();
        match mode {
            Mode::Flat => {}
            _ => self
                .owners
                .place_labels(stack, texts, lettering, self.places.as_mut_slice()),
        }
    }
}

/// Sets `places` at the slot of each view of the stack to the place of the view's label, or to none
/// where it fits nowhere. `labels` has the label of each session. No memory is taken.
fn place_each(stack: &Stack, labels: &[Label], lettering: Lettering, places: &mut [Option<Point>])
    requires lettering { IsLettering lettering }
    requires labels { length labels.now ≡ length stack.now.sizes }
    requires slots { stack.now.most ≤ length places.old }
    ensures placed { AreLabelled lettering stack.now labels.now places.new }
    ensures count { length places.new ≡ length places.old }
{
    'views: for i in 0..stack.len() {
        let v = stack.at(i);
        let slot = v.0 as usize;
        places[slot] = place_of_view(stack, labels, lettering, i);
    }
}

/// Where the label of the view at place `i` from the front stands. None where it fits nowhere.
fn place_of_view(stack: &Stack, labels: &[Label], lettering: Lettering, i: u32) -> Option<Point>
    requires lettering { IsLettering lettering }
    requires labels { length labels.now ≡ length stack.now.sizes }
    requires view { i < length stack.now.views }
    ensures { (s : SlotView) → slice_get stack.now.views i ≡ Some s → result ≡ option_map pixel_at
        (label_place_of (label_scenery lettering stack.now labels.now) s.view) }
{
    let v = stack.at(i);
    let view = stack.view(v);
    let text = label_text(&labels[view.sid as usize], &view.title);
    let characters = text.as_bytes().len() as u32;
    let (width, height) = text_size(lettering, characters);
    place_label(stack, v, width, height)
}
