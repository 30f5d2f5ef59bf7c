//! All views in a plain list, front first.

ghost use Rattle.std.specs.Prelude.{◌≡◌, ◌<◌, ◌≤◌, [], option_map, IfSome, OnOk};
ghost use Rattle.nit_audit.specs.Terms.{changed, is_meant, is_view, layer, most_sessions, moved};
ghost use Rattle.nit_audit.specs.Terms.{new_view, owner, put_above, put_back, put_front};
ghost use Rattle.nit_audit.specs.Terms.{with_change, without};

use crate::keys::{
    Change, Which, back_place, change_all, covering, drop_all, first_key, front_place, layer_of,
    new_view, place_of, put_in, take_out, take_out_empty,
};
use nit_config::Config;
use nit_rect::{NoMemory, Point};
use nit_stack::View;
use slab::Slab;
use std::alloc::Global;
use std::marker::Model;

/// All views, seen as their list, front first. Each belongs to one of 64 sessions.
#[derive(Drop)]
pub(crate) struct Views {
    records: Slab<View>,
    keys: Vec<usize>,
}

impl Model for Views {
    ghost use Rattle.std.specs.Prelude.{List};
    ghost use Rattle.nit_stack.specs.declared.view.View.{View};
    ghost use Rattle.nit_audit.specs.Keys.{AllHaveViews, views_at};

    ghost Value = { List View };

    ghost view = { λ v. views_at v.records v.keys.items };

    ghost invariant = { λ v. AllHaveViews v.records v.keys.items };
}

impl Views {
    /// No view.
    pub(crate) fn new(alloc: Global) -> Views
        ensures { result ≡ [] }
    {
        Views {
            records: Slab::new(alloc),
            keys: Vec::new(alloc),
        }
    }

    /// The session of the view that owns a pixel, where the status bar has so many rows. None
    /// exactly where the pixel has no owner.
    pub(crate) fn owner(&self, rows: u32, p: Point) -> Option<u32>
        requires { rows ≤ 7 }
        ensures owner { result ≡ option_map (λ v. v.sid) (owner rows self.now p) }
        ensures known { IfSome result (λ sid. sid < most_sessions) }
    {
        if p.y < rows as i32 {
            return None;
        }
        covering(&self.records, self.keys.as_slice(), p)
    }

    /// A new view stands in front of its layer and of the layers behind.
    pub(crate) fn create(&mut self, config: &Config, sid: u32, handle: u32) -> Result<(), NoMemory>
        requires { sid < most_sessions }
        ensures { OnOk result (self.new ≡ put_front (λ v. layer config.now v.sid)
            (layer config.now sid) (new_view sid handle) self.old) }
    {
        let place = front_place(
            &self.records,
            self.keys.as_slice(),
            config,
            layer_of(config, sid),
        );
        let key = self.records.insert(new_view(sid, handle))?;
        put_in(&mut self.keys, place, key)
    }

    /// The view stands in front of its layer and of the layers behind.
    pub(crate) fn front(&mut self, config: &Config, sid: u32, handle: u32) -> Result<(), NoMemory>
        ensures { OnOk result (self.new ≡ moved (is_view sid handle)
            (put_front (λ v. layer config.now v.sid) (layer config.now sid)) self.old) }
    {
        let which = Which::One(sid, handle);
        let Some(key) = first_key(&self.records, self.keys.as_slice(), which) else {
            return Ok(());
        };
        take_out(&self.records, &mut self.keys, which);
        let place = front_place(
            &self.records,
            self.keys.as_slice(),
            config,
            layer_of(config, sid),
        );
        put_in(&mut self.keys, place, key)
    }

    /// The view stands behind its layer and the layers in front.
    pub(crate) fn back(&mut self, config: &Config, sid: u32, handle: u32) -> Result<(), NoMemory>
        ensures { OnOk result (self.new ≡ moved (is_view sid handle)
            (put_back (λ v. layer config.now v.sid) (layer config.now sid)) self.old) }
    {
        let which = Which::One(sid, handle);
        let Some(key) = first_key(&self.records, self.keys.as_slice(), which) else {
            return Ok(());
        };
        take_out(&self.records, &mut self.keys, which);
        let place = back_place(
            &self.records,
            self.keys.as_slice(),
            config,
            layer_of(config, sid),
        );
        put_in(&mut self.keys, place, key)
    }

    /// The view stands directly in front of the next one, which is another.
    pub(crate) fn above(&mut self, sid: u32, handle: u32, next: u32) -> Result<(), NoMemory>
        ensures { OnOk result
            (self.new ≡ moved (is_view sid handle) (put_above (is_view sid next)) self.old) }
    {
        let which = Which::One(sid, handle);
        let Some(key) = first_key(&self.records, self.keys.as_slice(), which) else {
            return Ok(());
        };
        take_out(&self.records, &mut self.keys, which);
        let place = place_of(&self.records, self.keys.as_slice(), Which::One(sid, next));
        put_in(&mut self.keys, place, key)
    }

    /// A part of the view becomes another.
    pub(crate) fn change(&mut self, sid: u32, handle: u32, change: Change)
        ensures { self.new ≡ changed (is_view sid handle) (with_change change) self.old }
    {
        change_all(
            &mut self.records,
            self.keys.as_slice(),
            Which::One(sid, handle),
            &change,
        );
    }

    /// The views that are meant are gone.
    pub(crate) fn remove(&mut self, which: Which)
        ensures { self.new ≡ without (is_meant which) self.old }
    {
        drop_all(&mut self.records, self.keys.as_slice(), which);
        take_out_empty(&self.records, &mut self.keys);
    }
}
