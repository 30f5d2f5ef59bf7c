//! Who owns each pixel, by which the places of labels are found and the frame is made.

ghost use Rattle.std.specs.Prelude.{◌≡◌, ◌*◌, ◌<◌, ◌≤◌, IfOk, Some, length, slice_get};
ghost use Rattle.std.specs.Prelude.{vec_capacity};
ghost use Rattle.nit_screen.specs.Terms.{AreLabelled, AreMeasured, IsLettering, IsMapOf, IsRoomFor};
ghost use Rattle.nit_screen.specs.Terms.{IsStack, SlotView, label_scenery, label_width};
ghost use Rattle.nit_screen.specs.Terms.{most_height, most_slots, most_width};

use crate::screen::map::map_owners;
use crate::screen::patches::Patch;
use nit_glyph::{Label, Lettering, label_text, text_size};
use nit_labels::places;
use nit_overlay::NO_SLOT;
use nit_rect::{NoMemory, Point};
use nit_stack::Stack;
use std::alloc::Global;
use std::marker::Model;

/// A map of the screen, which has the slot of each pixel's owner, and room for what the places of
/// labels are found by besides. It is made anew before it is read, and the rest has no meaning
/// between two calls.
#[derive(Drop)]
pub struct OwnerMap {
    owners: Vec<u16>,
    /// How wide the label of the view in each slot is.
    widths: Vec<u32>,
    /// How far down the pixels of a row go on with one owner.
    down: Vec<u8>,
    /// Room for two rows of the map, and for the columns to go on at in them.
    work: Vec<u16>,
    /// The patches of the views, front first.
    patches: Vec<Patch>,
    /// Those of them that meet a band of rows.
    kept: Vec<Patch>,
    height: u32,
}

impl Model for OwnerMap {
    ghost use Rattle.std.specs.Prelude.{◌≡◌, ◌≤◌, ◌*◌, length, vec_capacity};
    ghost use Rattle.nit_screen.specs.MapRoom.{MapRoom};

    ghost Value = { MapRoom };

    ghost view = { λ m. record {
      width = length m.down.items;
      height = m.height;
      slots = length m.widths.items;
      map = m.owners.items;
    } };

    ghost invariant = { λ m. (length m.owners.items ≤ length m.down.items * m.height)
        × (length m.down.items * m.height ≤ vec_capacity m.owners)
        × (length m.work.items ≡ length m.down.items * 3)
        × (length m.patches.items ≡ length m.widths.items)
        × (length m.kept.items ≡ length m.widths.items) };
}

impl OwnerMap {
    /// Room for a screen of this size and for so many slots.
    pub(crate) fn new(
        alloc: Global,
        width: u32,
        height: u32,
        slots: usize,
    ) -> Result<OwnerMap, NoMemory>
        requires screen { (width ≤ most_width) × (height ≤ most_height) }
        requires slots { slots ≤ most_slots }
        ensures { IfOk result (IsRoomFor width height slots) }
    {
        let owners = Vec::with_capacity(alloc, width as usize * height as usize)?;
        let widths = vec![in alloc; 0; slots]?;
        let down = vec![in alloc; 0; width as usize]?;
        let work = vec![in alloc; 0; width as usize * 3]?;
        let patches = vec![in alloc; Patch::nothing(); slots]?;
        let kept = vec![in alloc; Patch::nothing(); slots]?;
        Ok(OwnerMap {
            owners,
            widths,
            down,
            work,
            patches,
            kept,
            height,
        })
    }

    /// Gives each pixel of the screen the number of its owner. No memory is taken.
    pub(crate) fn map(&mut self, stack: &Stack)
        requires width { self.old.width ≡ stack.now.width }
        requires height { self.old.height ≡ stack.now.height }
        requires slots { stack.now.most ≤ self.old.slots }
        ensures map { IsMapOf stack.now self.new.map }
        ensures room { self.new ≡ record self.old { map = self.new.map } }
    {
        let (width, height) = stack.size();
        reach(&mut self.owners, width as usize * height as usize);
        map_owners(
            stack,
            self.patches.as_mut_slice(),
            self.kept.as_mut_slice(),
            self.owners.as_mut_slice(),
            self.work.as_mut_slice(),
        );
    }

    /// The number of each pixel, as it was mapped.
    pub(crate) fn numbers(&self) -> &[u16]
        ensures { result.now ≡ self.now.map }
    {
        self.owners.as_slice()
    }

    /// Sets `found` at the slot of each view of the stack to the place of the view's label, or to
    /// none where it fits nowhere, by the map. `labels` has the label of each session. No memory is
    /// taken.
    pub(crate) fn place_labels(
        &mut self,
        stack: &Stack,
        labels: &[Label],
        lettering: Lettering,
        found: &mut [Option<Point>],
    )
        requires lettering { IsLettering lettering }
        requires labels { length labels.now ≡ length stack.now.sizes }
        requires slots { stack.now.most ≤ length found.old }
        requires map { IsMapOf stack.now self.old.map }
        requires room { IsRoomFor stack.now.width stack.now.height (length found.old) self.old }
        ensures placed { AreLabelled lettering stack.now labels.now found.new }
        ensures count { length found.new ≡ length found.old }
        ensures room { self.new ≡ self.old }
    {
        let (width, height) = stack.size();
        let (_, tall) = text_size(lettering, 1);
        measure(stack, labels, lettering, self.widths.as_mut_slice());
        places(
            self.owners.as_slice(),
            width as usize,
            height as usize,
            self.widths.as_slice(),
            tall as u8,
            found,
            self.down.as_mut_slice(),
        );
    }
}

/// Adds pixels that nobody owns until there are so many. There is room for them.
fn reach(owners: &mut Vec<u16>, count: usize)
    requires few { length owners.old.items ≤ count }
    requires room { count ≤ vec_capacity owners.old }
    ensures count { length owners.new.items ≡ count }
    ensures capacity { vec_capacity owners.old ≤ vec_capacity owners.new }
{
    if owners.len() < count {
        let grown = owners.resize(count, NO_SLOT);
        let fits = grown.is_ok();
        prove!(fits);
    }
}

/// Sets `widths` at the slot of each view to how wide the view's label is.
fn measure(stack: &Stack, labels: &[Label], lettering: Lettering, widths: &mut [u32])
    requires lettering { IsLettering lettering }
    requires labels { length labels.now ≡ length stack.now.sizes }
    requires slots { stack.now.most ≤ length widths.old }
    ensures standing { IsStack stack.now }
    ensures measured { AreMeasured lettering stack.now labels.now widths.new }
    ensures count { length widths.new ≡ length widths.old }
{
    'views: for i in 0..stack.len() {
        let v = stack.at(i);
        let slot = v.0 as usize;
        widths[slot] = width_of_label(stack, labels, lettering, i);
    }
}

/// How wide the label of the view at place `i` from the front is.
fn width_of_label(stack: &Stack, labels: &[Label], lettering: Lettering, i: u32) -> u32
    requires lettering { IsLettering lettering }
    requires labels { length labels.now ≡ length stack.now.sizes }
    requires view { i < length stack.now.views }
    ensures { (s : SlotView) → slice_get stack.now.views i ≡ Some s
        → result ≡ label_width (label_scenery lettering stack.now labels.now) s.view }
{
    let view = stack.view(stack.at(i));
    let text = label_text(&labels[view.sid as usize], &view.title);
    let (width, _) = text_size(lettering, text.as_bytes().len() as u32);
    width
}
