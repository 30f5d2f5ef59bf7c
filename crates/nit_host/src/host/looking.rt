//! A look at what of the frame changed, and at the last entry.

ghost use Rattle.std.specs.Prelude.{◌≡◌, ◌*◌, ◌↔◌, None, IfOk, IfSome, length};
ghost use Rattle.nit_host.specs.Terms.{AgreeIn, CoversChange, IsAsSeen, IsTouched, LiesOn, Looks};
ghost use Rattle.nit_host.specs.Terms.{ShowsLabels, after_act, forgotten, frame_shown, last_text};
ghost use Rattle.nit_host.specs.Terms.{looked, scenery_of};

use crate::host::Host;
use crate::host::area::whole;
use nit_look::look;
use nit_rect::{NoMemory, Rect};
use nit_report::journal_text;
use std::alloc::Global;

impl Host {
    /// Brings `out`, which has a word for each pixel and is as the last look left it, up to date,
    /// and answers the least rectangle of pixels outside of which nothing was written. `None`
    /// exactly where nothing was. Then `out` is the frame. Before the first look it may be any
    /// words.
    ///
    /// Only a rectangle with all that can have changed since the last look is looked at. So in
    /// words that are not as that left them, only those in the answer are surely the frame's.
    pub fn look(&mut self, out: &mut [u32]) -> Option<Rect>
        requires { length out.old ≡ self.old.state.config.width * self.old.state.config.height }
        ensures frame { IsAsSeen self.old out.old → out.new ≡ frame_shown self.old }
        ensures labels { IsAsSeen self.old out.old
            → ShowsLabels (scenery_of self.old.state) out.new }
        ensures none { result ≡ None ↔ out.old ≡ out.new }
        ensures screen { let config = self.old.state.config in
            IfSome result (λ r. LiesOn config.width config.height r) }
        ensures inside { let config = self.old.state.config in
            IfSome result (λ r. CoversChange config.width out.new out.old r) }
        ensures least { let config = self.old.state.config in
            IfSome result (λ r. IsTouched config.width out.new out.old r) }
        ensures shown { let config = self.old.state.config in
            IfSome result (λ r. AgreeIn config.width out.new (frame_shown self.old) r) }
        ensures host { self.new ≡ looked self.old }
        ensures act { self.new ≡ after_act self.old Looks }
    {
        self.desktop.facts();
        let (width, height) = self.desktop.size();
        let part = self.changed.around().rect();
        let found = look(self.frame(), width as usize, height as usize, &part, out);
        let _parts = self.damage();
        found
    }

    /// Brings `out`, which has a word for each pixel and may be any words, up to date, and answers
    /// as a look does. So a host looks that has lost the words of the last look.
    pub fn look_anew(&mut self, out: &mut [u32]) -> Option<Rect>
        requires { length out.old ≡ self.old.state.config.width * self.old.state.config.height }
        ensures frame { out.new ≡ frame_shown self.old }
        ensures labels { ShowsLabels (scenery_of self.old.state) out.new }
        ensures none { result ≡ None ↔ out.old ≡ out.new }
        ensures screen { let config = self.old.state.config in
            IfSome result (λ r. LiesOn config.width config.height r) }
        ensures inside { let config = self.old.state.config in
            IfSome result (λ r. CoversChange config.width out.new out.old r) }
        ensures least { let config = self.old.state.config in
            IfSome result (λ r. IsTouched config.width out.new out.old r) }
        ensures host { self.new ≡ looked self.old }
        ensures act { self.new ≡ after_act self.old Looks }
    {
        self.forget();
        self.look(out)
    }

    /// The words of the last look are forgotten: those of the next one may be any.
    fn forget(&mut self)
        ensures { self.new ≡ forgotten self.old }
    {
        self.facts();
        let (width, height) = self.size();
        self.changed = whole(width, height);
        self.seen = None;
    }

    /// The last step as a line of the journal's text, where it was an entry: no text where the last
    /// step gave a client its seat, or none was done. This takes memory for the text.
    pub fn entry_text(&self, alloc: Global) -> Result<Vec<u8>, NoMemory>
        ensures { IfOk result (λ v. v.items ≡ last_text self.now.last) }
    {
        match self.last {
            Some(entry) => journal_text(alloc, &[entry]),
            None => Ok(Vec::new(alloc)),
        }
    }
}
