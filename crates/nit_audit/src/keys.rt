//! Records of views under their keys, and the order of the keys, front first.

ghost use Rattle.std.specs.Prelude.{◌≡◌, ◌≤◌, ℕ, filter, find, nat_le, option_map};
ghost use Rattle.nit_audit.specs.Terms.{AllHaveViews, HasView, IsBackPlace, IsFirstPlace};
ghost use Rattle.nit_audit.specs.Terms.{IsSweptAt, OnOk, changed_if, covers, get, insert, is_meant};
ghost use Rattle.nit_audit.specs.Terms.{is_some, layer, member, new_view, swept, taken_if, vec_len};
ghost use Rattle.nit_audit.specs.Terms.{view_under, with_change, without};
ghost use Rattle.slab.specs.Slab.{Slab as SlabOf};
ghost use Rattle.nit_stack.specs.declared.view.View.{View as ViewOf};

use nit_config::Config;
use nit_glyph::Title;
use nit_rect::{NoMemory, Point, Rect};
use nit_stack::View;
use slab::Slab;

/// Which views are meant.
#[derive(Clone, Copy)]
pub(crate) enum Which {
    /// The session's view of this handle.
    One(u32, u32),
    /// Each view of the session.
    Each(u32),
}

/// A part of a view that becomes another.
#[derive(Clone, Copy)]
pub(crate) enum Change {
    Rectangle(Rect),
    Offset(i32, i32),
    Title(Title),
}

/// A view as it is made.
pub(crate) fn new_view(sid: u32, handle: u32) -> View
    ensures { result ≡ new_view sid handle }
{
    View {
        sid,
        handle,
        rect: Rect::of(0, 0, 0, 0),
        ox: 0,
        oy: 0,
        title: Title::of(&[]),
    }
}

/// The record under a key; a new view of no session where there is none.
pub(crate) fn view_under(records: &Slab<View>, key: usize) -> View
    ensures { result ≡ view_under records.now key }
{
    match records.get(key) {
        Some(view) => *view,
        None => new_view(0, 0),
    }
}

/// The layer of a session.
pub(crate) fn layer_of(config: &Config, sid: u32) -> u32
    ensures { result ≡ layer config.now sid }
{
    match config.clients.get(sid as usize) {
        Some(client) => client.layer,
        None => 0,
    }
}

/// Whether the view is meant.
fn is_meant(which: Which, view: &View) -> bool
    ensures { result ≡ is_meant which view.now }
{
    match which {
        Which::One(sid, handle) => view.sid == sid && view.handle == handle,
        Which::Each(sid) => view.sid == sid,
    }
}

/// The front-most view that covers the pixel.
pub(crate) fn covering(records: &Slab<View>, keys: &[usize], p: Point) -> Option<u32>
    ensures { result ≡ option_map (λ k. (view_under records.now k).sid)
        (find (λ k. covers (view_under records.now k).rect p) keys.now) }
{
    for key in keys {
        let view = view_under(records, *key);
        if view.rect.covers(p) {
            return Some(view.sid);
        }
    }
    None
}

/// The front-most key whose view is meant.
pub(crate) fn first_key(records: &Slab<View>, keys: &[usize], which: Which) -> Option<usize>
    ensures { result ≡ find (λ k. is_meant which (view_under records.now k)) keys.now }
{
    for key in keys {
        if is_meant(which, &view_under(records, *key)) {
            return Some(*key);
        }
    }
    None
}

/// The place of the front-most key whose view is meant. The number of keys where there is none.
pub(crate) fn place_of(records: &Slab<View>, keys: &[usize], which: Which) -> usize
    ensures { IsFirstPlace (λ k. is_meant which (view_under records.now k)) keys.now result }
{
    for (i, key) in keys.iter().enumerate() {
        if is_meant(which, &view_under(records, *key)) {
            return i;
        }
    }
    keys.len()
}

/// The place of the first view of this layer or of a layer behind. The number of keys where there
/// is none.
pub(crate) fn front_place(records: &Slab<View>, keys: &[usize], config: &Config, low: u32) -> usize
    ensures { IsFirstPlace (λ k. nat_le low (layer config.now (view_under records.now k).sid))
        keys.now result }
{
    for (i, key) in keys.iter().enumerate() {
        if low <= layer_of(config, view_under(records, *key).sid) {
            return i;
        }
    }
    keys.len()
}

/// The place behind the last view of this layer or of a layer in front. The first place where there
/// is none.
pub(crate) fn back_place(records: &Slab<View>, keys: &[usize], config: &Config, high: u32) -> usize
    ensures { IsBackPlace (λ k. layer config.now (view_under records.now k).sid) high keys.now
        result }
{
    for i in (0..keys.len()).rev() {
        if layer_of(config, view_under(records, keys[i]).sid) <= high {
            return i + 1;
        }
    }
    0
}

/// Takes the keys out whose views are meant. Their records stay.
pub(crate) fn take_out(records: &Slab<View>, keys: &mut Vec<usize>, which: Which)
    ensures { keys.new.items
        ≡ without (λ k. is_meant which (view_under records.now k)) keys.old.items }
{
    keys.retain(|key| !is_meant(which, &view_under(records, *key)));
}

/// Takes the keys out that have no record any more.
pub(crate) fn take_out_empty(records: &Slab<View>, keys: &mut Vec<usize>)
    ensures { keys.new.items ≡ filter (λ k. is_some (get records.now k)) keys.old.items }
{
    keys.retain(|key| records.get(*key).is_some());
}

/// Puts a key in at a place.
pub(crate) fn put_in(keys: &mut Vec<usize>, place: usize, key: usize) -> Result<(), NoMemory>
    requires { place ≤ vec_len keys.old }
    ensures put { OnOk result (keys.new.items ≡ insert keys.old.items place key) }
    ensures kept { (records : SlabOf ViewOf) → HasView records key
        → AllHaveViews records keys.old.items → AllHaveViews records keys.new.items }
{
    keys.insert(place, key)?;
    Ok(())
}

/// Changes the records under these keys that are meant.
pub(crate) fn change_all(records: &mut Slab<View>, keys: &[usize], which: Which, change: &Change)
    ensures { (k : ℕ)
        → get records.new k ≡ swept (changed_if which change.now) keys.now records.old k }
{
    for key in keys {
        change_one(records, *key, which, change);
    }
}

/// Takes the records out under these keys that are meant.
pub(crate) fn drop_all(records: &mut Slab<View>, keys: &[usize], which: Which)
    ensures { (k : ℕ) → get records.new k ≡ swept (taken_if which) keys.now records.old k }
{
    for key in keys {
        drop_one(records, *key, which);
    }
}

/// Changes the record under a key, where it is meant.
fn change_one(records: &mut Slab<View>, key: usize, which: Which, change: &Change)
    ensures { IsSweptAt (changed_if which change.now) key records.old records.new }
{
    if let Some(view) = records.get_mut(key) {
        *view = changed(which, change, view);
    }
}

/// Takes the record out under a key, where it is meant.
fn drop_one(records: &mut Slab<View>, key: usize, which: Which)
    ensures { IsSweptAt (taken_if which) key records.old records.new }
{
    let is_meant = match records.get(key) {
        Some(view) => is_meant(which, view),
        None => false,
    };
    if is_meant {
        let _gone = records.try_remove(key);
    }
}

/// The view, changed where it is meant.
fn changed(which: Which, change: &Change, view: &View) -> View
    ensures { Some result ≡ changed_if which change.now (Some view.now) }
{
    let mut view = *view;
    if is_meant(which, &view) {
        match *change {
            Change::Rectangle(rect) => view.rect = rect,
            Change::Offset(ox, oy) => {
                view.ox = ox;
                view.oy = oy;
            }
            Change::Title(title) => view.title = title,
        }
    }
    view
}
