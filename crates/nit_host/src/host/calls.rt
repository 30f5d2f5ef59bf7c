//! Calls of the clients at their seats.

ghost use Rattle.std.specs.Prelude.{◌≡◌, ◌*◌, ◌<◌, None, Some, Ok, Err, false, length};
ghost use Rattle.nit_host.specs.Terms.{Calls, Refreshes, Reply, Unserved, after_act, asks_view};
ghost use Rattle.nit_host.specs.Terms.{called, lacks_handles, rectangle, refreshed, refusal};
ghost use Rattle.nit_host.specs.Terms.{reply_to, session, unserved_call, unserved_refresh};
ghost use Rattle.nit_host.specs.Terms.{worn_out};
ghost use Rattle.nit_events.specs.declared.call.Call.TheVariants as call;

use crate::client::Client;
use crate::host::Host;
use crate::host::handing::hand_in;
use crate::host::shown::still_stand;
use crate::host::touch::{add_touched, moves_views, touch_of};
use crate::refusal::Unserved;
use nit_events::{Call, Entry, Reply};
use nit_rect::Rect;
use nit_screen::laws::clean_pixels_keep_their_source;

/// The handle that no view has any more.
const LAST_HANDLE: u32 = u32::MAX - 1;

impl Host {
    /// Serves a call of a client. The answer is the one of a machine that serves this client alone
    /// since it came. A call that is not served changes nothing.
    ///
    /// # Errors
    ///
    /// `NoSeat`, `OtherClient`, `HandlesUsedUp` (for `View` alone) and `WornOut`, the first of them
    /// that applies.
    pub fn call(&mut self, client: Client, call: &Call) -> Result<Reply, Unserved>
        ensures served { unserved_call self.old client call.now ≡ None
            → (result ≡ Ok (reply_to self.old client.seat call.now)) ×
            (self.new ≡ called client.seat call.now self.old) }
        ensures unserved { (why : Unserved) → unserved_call self.old client call.now ≡ Some why
            → (result ≡ Err why) × (self.new ≡ self.old) }
        ensures act { self.new ≡ after_act self.old (Calls client call.now) }
    {
        if let Some(why) = self.unserved_call(client, call) {
            return Err(why);
        }
        let seat = client.seat;
        let reply = self.serve(seat, call);
        self.last = Some(Entry::Call {
            sid: seat,
            call: *call,
            reply,
        });
        Ok(reply)
    }

    /// Serves a call at a seat, whoever asks for it, and leaves the last entry as it was.
    pub(crate) fn serve(&mut self, seat: u32, call: &Call) -> Reply
        requires seat { seat < length self.old.state.sessions }
        requires left { worn_out self.old ≡ None }
        requires handles { lacks_handles (session self.old.state seat) call.now ≡ false }
        ensures reply { result ≡ reply_to self.old seat call.now }
        ensures host { self.new ≡ record (called seat call.now self.old) { last = self.old.last } }
    {
        clean_pixels_keep_their_source();
        self.desktop.facts();
        let touch = touch_of(&self.desktop, seat, call);
        add_touched(&mut self.changed, &self.desktop, seat, &touch);
        let reply = self.desktop.call(seat, call, &mut self.sheets);
        add_touched(&mut self.changed, &self.desktop, seat, &touch);
        self.stand = still_stand(self.stand, moves_views(call));
        reply
    }

    /// Takes over the part of a client's buffer with its left upper pixel at `place`, `size.0`
    /// pixels wide and `size.1` high, from `words`, which has the words of its whole buffer, row by
    /// row, and serves the client's call `Refresh` of that part: what its views show of it is shown
    /// as it is handed in here. The highest byte of a word is left out. The words are read during
    /// this call alone, and only those of the part. Where the call is refused nothing is taken
    /// over, and where it is not served nothing changes.
    ///
    /// # Errors
    ///
    /// `NoSeat`, `OtherClient`, `ShortWords` (there are fewer words than the buffer has) and
    /// `WornOut`, the first of them that applies.
    pub fn refresh(
        &mut self,
        client: Client,
        place: (i32, i32),
        size: (u32, u32),
        words: &[u32],
    ) -> Result<Reply, Unserved>
        ensures served { unserved_refresh self.old client words.now ≡ None
            → (result ≡ Ok (reply_to self.old client.seat
            (call.Refresh place.0 place.1 size.0 size.1))) ×
            (self.new ≡ refreshed client.seat place.0 place.1 size.0 size.1 words.now self.old) }
        ensures unserved { (why : Unserved) → unserved_refresh self.old client words.now ≡ Some why
            → (result ≡ Err why) × (self.new ≡ self.old) }
        ensures act { self.new ≡ after_act self.old
            (Refreshes client place.0 place.1 size.0 size.1 words.now) }
    {
        if let Some(why) = self.unserved_refresh(client, words) {
            return Err(why);
        }
        let seat = client.seat;
        clean_pixels_keep_their_source();
        self.desktop.facts();
        let call = refresh_of(place, size);
        let part = self.part(seat, place, size);
        let buffer = self.desktop.buffer(seat);
        let touch = touch_of(&self.desktop, seat, &call);
        hand_in(&mut self.sheets[seat as usize], buffer, &part, words);
        let reply = self.desktop.call(seat, &call, &mut self.sheets);
        add_touched(&mut self.changed, &self.desktop, seat, &touch);
        self.last = Some(Entry::Call {
            sid: seat,
            call,
            reply,
        });
        Ok(reply)
    }

    /// Why a call of a seat's client is not served, if it is not.
    fn unserved_call(&self, client: Client, call: &Call) -> Option<Unserved>
        ensures { result ≡ unserved_call self.now client call.now }
    {
        if self.seats() <= client.seat {
            Some(Unserved::NoSeat)
        } else if !self.is_client(client) {
            Some(Unserved::OtherClient)
        } else if asks_view(call) && LAST_HANDLE <= self.desktop.next_handle(client.seat) {
            Some(Unserved::HandlesUsedUp)
        } else {
            self.worn_out()
        }
    }

    /// Why nothing is served any more, if it is not.
    pub(crate) fn worn_out(&self) -> Option<Unserved>
        ensures { result ≡ worn_out self.now }
    {
        if self.left() == 0 {
            Some(Unserved::WornOut)
        } else {
            None
        }
    }

    /// Why a refresh with these words is not served, if it is not.
    fn unserved_refresh(&self, client: Client, words: &[u32]) -> Option<Unserved>
        ensures { result ≡ unserved_refresh self.now client words.now }
    {
        if self.seats() <= client.seat {
            return Some(Unserved::NoSeat);
        }
        if !self.is_client(client) {
            return Some(Unserved::OtherClient);
        }
        let (width, height) = self.buffer(client.seat);
        if words.len() < width as usize * height as usize {
            Some(Unserved::ShortWords)
        } else {
            self.worn_out()
        }
    }

    /// The part that a refresh names. `None` where it is refused.
    fn part(&self, seat: u32, place: (i32, i32), size: (u32, u32)) -> Option<Rect>
        requires { seat < length self.now.state.sessions }
        ensures accepted { refusal (session self.now.state seat)
            (call.Refresh place.0 place.1 size.0 size.1)
            ≡ None
            → result ≡ Some (rectangle place.0 place.1 size.0 size.1) }
        ensures refused { (r : Reply) → refusal (session self.now.state seat)
            (call.Refresh place.0 place.1 size.0 size.1)
            ≡ Some r → result ≡ None }
    {
        match self.desktop.refused(seat, &refresh_of(place, size)) {
            Some(_refusal) => None,
            None => Rect::new(place.0, place.1, size.0, size.1),
        }
    }
}

/// The call that refreshes a part.
fn refresh_of(place: (i32, i32), size: (u32, u32)) -> Call
    ensures { result ≡ call.Refresh place.0 place.1 size.0 size.1 }
{
    Call::Refresh(place.0, place.1, size.0, size.1)
}

/// Whether a call asks for a new view.
fn asks_view(call: &Call) -> bool
    ensures { result ≡ asks_view call.now }
{
    matches!(*call, Call::View)
}
