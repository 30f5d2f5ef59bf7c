//! The user's restacking of views.

ghost use Rattle.std.specs.Prelude.{◌≡◌, ◌<◌, None, Some, Ok, Err, length};
ghost use Rattle.nit_host.specs.Terms.{Foremost, Puts, Rearmost, Unserved, after_act, called, put};
ghost use Rattle.nit_host.specs.Terms.{unserved_restack, worn_out};
ghost use Rattle.nit_events.specs.declared.call.Call.TheVariants as call;

use crate::client::Client;
use crate::host::Host;
use crate::refusal::Unserved;
use nit_events::Call;

impl Host {
    /// The user puts a client's view in front of all of its layer. The client is told nothing, and
    /// all that it is told and answered stays as it is; no other view moves.
    ///
    /// # Errors
    ///
    /// `NoSeat`, `OtherClient`, `NoView` and `WornOut`, the first of them that applies. Nothing
    /// changes then.
    pub fn raise(&mut self, client: Client, view: u32) -> Result<(), Unserved>
        ensures raised { unserved_restack self.old client view ≡ None
            → (result ≡ Ok tt) × (self.new ≡ put Foremost client.seat view self.old) }
        ensures unserved { (why : Unserved) → unserved_restack self.old client view ≡ Some why
            → (result ≡ Err why) × (self.new ≡ self.old) }
        ensures act { self.new ≡ after_act self.old (Puts Foremost client view) }
    {
        if let Some(why) = self.unserved_restack(client, view) {
            return Err(why);
        }
        let _done = self.serve(client.seat, &Call::Front(view));
        self.last = None;
        Ok(())
    }

    /// The user puts a client's view behind all of its layer, as [`Host::raise`] puts it in front.
    ///
    /// # Errors
    ///
    /// `NoSeat`, `OtherClient`, `NoView` and `WornOut`, the first of them that applies. Nothing
    /// changes then.
    pub fn lower(&mut self, client: Client, view: u32) -> Result<(), Unserved>
        ensures lowered { unserved_restack self.old client view ≡ None
            → (result ≡ Ok tt) × (self.new ≡ put Rearmost client.seat view self.old) }
        ensures unserved { (why : Unserved) → unserved_restack self.old client view ≡ Some why
            → (result ≡ Err why) × (self.new ≡ self.old) }
        ensures act { self.new ≡ after_act self.old (Puts Rearmost client view) }
    {
        if let Some(why) = self.unserved_restack(client, view) {
            return Err(why);
        }
        let _done = self.serve(client.seat, &Call::Back(view));
        self.last = None;
        Ok(())
    }

    /// Why a client's view is not put elsewhere, if it is not.
    fn unserved_restack(&self, client: Client, view: u32) -> Option<Unserved>
        ensures { result ≡ unserved_restack self.now client view }
    {
        if self.seats() <= client.seat {
            Some(Unserved::NoSeat)
        } else if !self.is_client(client) {
            Some(Unserved::OtherClient)
        } else if self
            .desktop
            .refused(client.seat, &Call::Front(view))
            .is_some()
        {
            Some(Unserved::NoView)
        } else {
            self.worn_out()
        }
    }
}
