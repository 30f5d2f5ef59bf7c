//! What of the frame has changed, and a part of the frame, put among rows of another length.

ghost use Rattle.std.specs.Prelude.{◌≡◌, All, Err, None, Ok, Some, length};
ghost use Rattle.nit_host.specs.Terms.{AreParts, IsAreaOf, IsPartPut, IsSeenBut, Looks, Uncopied};
ghost use Rattle.nit_host.specs.Terms.{after_act, area_at, area_on, frame_shown, has_any, looked};
ghost use Rattle.nit_host.specs.Terms.{uncopied};

use crate::host::shown::remember;
use crate::host::{Host, Seen};
use crate::refusal::Uncopied;
use nit_look::{Area, Parts, has_room, put_part};
use nit_rect::MOST_SESSIONS;
use std::mem::replace;
use std::snapshot::Snapshot;

impl Host {
    /// Looks at the screen without copying it, and answers in which parts of it pixels may have
    /// changed since the last look: at most 16, no two of which meet. All pixels that changed lie
    /// in them; before the first look all pixels do. [`Host::copy`] copies a part.
    pub fn damage(&mut self) -> Parts
        ensures parts { AreParts result }
        ensures screen { let config = self.old.state.config in
            All (IsAreaOf config.width config.height) result }
        ensures changed { IsSeenBut self.old.state self.old.sheets (has_any result)
            self.old.seen.frame }
        ensures host { self.new ≡ looked self.old }
        ensures act { self.new ≡ after_act self.old Looks }
    {
        let parts = replace(&mut self.changed, Parts::none());
        remember(&self.desktop, self.stand, &mut self.shown);
        self.stand = true;
        self.came = [false; MOST_SESSIONS];
        self.seen = Some(Seen {
            desktop: Snapshot::of(&self.desktop),
            sheets: Snapshot::of(&self.sheets),
        });
        parts
    }

    /// Puts the part of the frame with its left upper pixel at `place`, `size.0` pixels wide and
    /// `size.1` high, into `out`, row by row from its first word on, each row `pitch` words behind
    /// the one above. All other words of `out` stay, and so does what is seen of the host. A part
    /// without pixels changes nothing.
    ///
    /// # Errors
    ///
    /// `BadRect` and `WrongFrame`, the first of them that applies. Then nothing changes.
    pub fn copy(
        &mut self,
        place: (u32, u32),
        size: (u32, u32),
        out: &mut [u32],
        pitch: usize,
    ) -> Result<(), Uncopied>
        ensures copied { let area = area_at place.0 place.1 size.0 size.1 in
            uncopied self.old area pitch (length out.old) ≡ None
            → (result ≡ Ok tt)
            × IsPartPut self.old.state.config.width area pitch (frame_shown self.old)
            out.old out.new }
        ensures uncopied { (why : Uncopied) →
            uncopied self.old (area_at place.0 place.1 size.0 size.1) pitch (length out.old)
            ≡ Some why → (result ≡ Err why) × (out.new ≡ out.old) }
        ensures same { self.new ≡ self.old }
    {
        self.facts();
        let (width, height) = self.size();
        let Some(part) = area_on((width, height), place, size) else {
            return Err(Uncopied::BadRect);
        };
        if !has_room(&part, pitch, out.len()) {
            return Err(Uncopied::WrongFrame);
        }
        put_part(self.frame(), width as usize, &part, out, pitch);
        Ok(())
    }
}

/// The area with its left upper pixel at a place, and of this size. None where it reaches beyond
/// the screen.
fn area_on(screen: (u32, u32), place: (u32, u32), size: (u32, u32)) -> Option<Area>
    ensures { result ≡ area_on screen.0 screen.1 (area_at place.0 place.1 size.0 size.1) }
{
    if screen.0 < place.0 || screen.0 - place.0 < size.0 {
        return None;
    }
    if screen.1 < place.1 || screen.1 - place.1 < size.1 {
        return None;
    }
    Some(Area {
        left: place.0,
        top: place.1,
        right: place.0 + size.0,
        bottom: place.1 + size.1,
    })
}
