//! Laws of a host's whole life, over plain lists of what it is asked, and of the words that it
//! shows.

ghost use Rattle.std.specs.Prelude.{All, ◌≡◌, ◌≢◌, ◌∷◌, ◌++◌, ◌<◌, ◌≤◌, ◌+◌, ◌*◌, ◌/◌, ◌%◌, ◌^◌};
ghost use Rattle.std.specs.Prelude.{◌⊎◌, ◌-ℤ◌, List, [], length, slice_index, None, Some, false};
ghost use Rattle.std.specs.Prelude.{pos, true, ℕ, ℤ};
ghost use Rattle.nit_host.specs.Terms.{Act, AreSteps, Black, Calls, CameBy, CameSince, Client};
ghost use Rattle.nit_host.specs.Terms.{Comes, Does, Flat, Gets, HasNoLook, HostModel, IsClickBy};
ghost use Rattle.nit_host.specs.Terms.{IsDown, IsFirst, IsInPart, IsKillBy, IsLive, IsLockedOut};
ghost use Rattle.nit_host.specs.Terms.{IsRestacked, IsTakenByClicks, Kill, KillsPointed, Looks};
ghost use Rattle.nit_host.specs.Terms.{Observation, Puts, Refreshes, Side, SwitchesMode};
ghost use Rattle.nit_host.specs.Terms.{TakesClick, TakesFocus, TellsFocus, TellsLeave, View};
ghost use Rattle.nit_host.specs.Terms.{WasShown, Word, Xray, after_act, after_acts, after_look};
ghost use Rattle.nit_host.specs.Terms.{after_steps, bare_word, deliveries_of, first_input};
ghost use Rattle.nit_host.specs.Terms.{is_accepted, is_button, is_client, is_held, is_held_after};
ghost use Rattle.nit_host.specs.Terms.{is_key, is_mode_key, kill_button, kill_key, kill_mode};
ghost use Rattle.nit_host.specs.Terms.{most_sessions, next_client, no_look, opening_of, owner_of};
ghost use Rattle.nit_host.specs.Terms.{owner_on, owner_shown, owner_then, picture_now, pixel};
ghost use Rattle.nit_host.specs.Terms.{pixel_count, projection, replies_from, replies_to, reply_to};
ghost use Rattle.nit_host.specs.Terms.{routed_of, session, sheet_in, since_coming, since_opening};
ghost use Rattle.nit_host.specs.Terms.{source_at, steps_of, to, under_pointer, unseated};
ghost use Rattle.nit_host.specs.Terms.{unserved_input, unserved_refresh, sheet_word, xray_key};
ghost use Rattle.nit_host.specs.Terms.{xray_mode};
ghost use Rattle.nit_host.specs.declared.refusal.Unserved.TheVariants as why;
ghost use Rattle.nit_journal.specs.Terms.{AreLive, Call, Delivery, Device};
ghost use Rattle.nit_events.specs.declared.call.Call.TheVariants as call;
ghost use Rattle.nit_events.specs.declared.device.Device.TheVariants as device;
ghost use Rattle.nit_events.specs.declared.event.Event.TheVariants as event;
ghost use Rattle.nit_events.specs.declared.event.Item.TheVariants as item;

use nit_journal::laws::{
    deliveries_fit, input_goes_where_it_is_meant_along_steps, live_sessions_stay,
    releases_follow_presses_since_opening, seats_stand_alone,
};

/// Whatever a host is asked, with looks wherever, what it serves are steps, each of the state
/// before it: an entry that agrees with it, or the opening of a session that is over. They lead to
/// the host's state. A look is no step.
pub fn hosts_go_by_steps()
    ensures steps { (h : HostModel) (acts : List Act) → AreSteps h.state (steps_of h acts) }
    ensures state { (h : HostModel) (acts : List Act)
        → (after_acts h acts).state ≡ after_steps h.state (steps_of h acts) }
{}

/// Whatever a host is asked, and whoever comes and goes at the other seats: each seat's client has
/// got the replies of a machine that serves it alone since it came, and each release that it was
/// told follows its press. The machine opens with the seat's donation and gets the client's own
/// calls and what was routed to it. `h` is the host as it opens.
pub fn clients_are_served_alone()
    ensures alone { (h : HostModel) (acts : List Act) (seat : ℕ)
        → length h.state.sessions ≡ length h.state.config.clients → seat < length h.state.sessions
        → let steps = steps_of h acts in
        replies_to seat (since_opening seat steps)
        ≡ replies_from (opening_of h.state seat steps)
        (projection seat (since_opening seat steps)) }
    ensures pressed { (h : HostModel) (acts : List Act) (seat k : ℕ)
        (before rest : List Observation)
        → AreLive h.state → h.state.input ≡ first_input
        → projection seat (since_opening seat (steps_of h acts))
        ≡ before ++ Gets (item.Event (event.Release k)) ∷ rest
        → IsDown k before }
    ensures live { (h : HostModel) (acts : List Act)
        → AreLive h.state → AreLive (after_acts h acts).state }
{
    hosts_go_by_steps();
    seats_stand_alone();
    releases_follow_presses_since_opening();
    live_sessions_stay();
}

/// Where keys and buttons go, by what [`Host::input`](crate::Host::input) answers.
///
/// In the mode Flat, with nothing held down, a key goes to the client that has the focus, and a
/// button to the one under the pointer; no other is told anything, but for the news of the focus.
/// While codes are held, all goes to one client, the receiver. A mode key goes to nobody: at most
/// the client that the pointer was on is told that it has left. Each item goes to a client that
/// sits.
///
/// Of a host that has opened, whatever it was asked since: the receiver got the press of each code
/// that is held, since it came. In the modes Xray and Kill, whatever the user does next, no client
/// gets a key, a button, a motion or a turn of the wheel: all that is told is, in Xray, who lost
/// the focus and who has it now, and in Kill, to the one under the pointer, that it is locked out.
pub fn input_goes_where_it_is_meant()
    ensures keys { (h : HostModel) (k : ℕ)
        → h.state.input.mode ≡ Flat → h.state.input.held ≡ [] → is_key k ≡ true
        → deliveries_of (routed_of h (device.Press k)) ≡ to h.state.input.focus (event.Press k) }
    ensures buttons { (h : HostModel) (k : ℕ)
        → h.state.input.mode ≡ Flat → h.state.input.held ≡ [] → is_button k ≡ true
        → (news : List Delivery) × All (TellsFocus h.state) news
        × (deliveries_of (routed_of h (device.Press k))
        ≡ news ++ to (under_pointer h.state) (event.Press k)) }
    ensures held { (h : HostModel) (dev : Device) → h.state.input.held ≢ []
        → All (λ d. h.state.input.receiver ≡ Some d.sid) (deliveries_of (routed_of h dev)) }
    ensures mode_keys { (h : HostModel) (k : ℕ) → is_mode_key k ≡ true
        → All (TellsLeave h.state) (deliveries_of (routed_of h (device.Press k))) }
    ensures live { (h : HostModel) (acts : List Act) (dev : Device)
        → AreLive h.state → let now = after_acts h acts in
        All (λ d. IsLive now.state d.sid) (deliveries_of (routed_of now dev)) }
    ensures receiver { (h : HostModel) (acts : List Act) (seat k : ℕ)
        → AreLive h.state → h.state.input ≡ first_input → let now = after_acts h acts in
        now.state.input.receiver ≡ Some seat → is_held now.state.input k ≡ true
        → IsDown k (projection seat (since_opening seat (steps_of h acts))) }
    ensures xray { (h : HostModel) (acts : List Act) (dev : Device)
        → h.state.input ≡ first_input → let now = after_acts h acts in
        now.state.input.mode ≡ Xray
        → All (TellsFocus now.state) (deliveries_of (routed_of now dev)) }
    ensures kill { (h : HostModel) (acts : List Act) (dev : Device)
        → h.state.input ≡ first_input → let now = after_acts h acts in
        now.state.input.mode ≡ Kill
        → All (KillsPointed now.state) (deliveries_of (routed_of now dev)) }
{
    hosts_go_by_steps();
    deliveries_fit();
    live_sessions_stay();
    nit_journal::laws::input_goes_where_it_is_meant();
    input_goes_where_it_is_meant_along_steps();
}

/// Nothing but the user's click gives a client the focus: with nothing held, a button goes down in
/// mode Flat or Xray over one of the client's pixels, and the client takes the focus by clicks.
/// Each such click that is served gives it, and one where no client has the pixel leaves nobody
/// with it. A client loses it by such a click elsewhere, as it leaves, or as the user locks it out,
/// and by nothing else.
pub fn focus_is_the_users()
    ensures comes { (h : HostModel) (act : Act) (seat : ℕ)
        → (after_act h act).state.input.focus ≡ Some seat
        → (h.state.input.focus ≡ Some seat) ⊎ IsClickBy act h.state seat }
    ensures goes { (h : HostModel) (act : Act) (seat : ℕ)
        → h.state.input.focus ≡ Some seat
        → ((after_act h act).state.input.focus ≡ Some seat) ⊎ TakesFocus act h.state seat }
    ensures clicked { (h : HostModel) (k : ℕ)
        → unserved_input h (device.Press k) ≡ None → is_button k ≡ true
        → h.state.input.held ≡ [] → h.state.input.mode ≢ Kill → IsTakenByClicks h.state
        → (after_act h (Does (device.Press k))).state.input.focus ≡ under_pointer h.state }
{}

/// Nothing but the user switches the mode: with nothing held, by a mode key, or in mode Kill by the
/// click that ends it. Each of these that is served does so. A mode key goes to nobody
/// ([`input_goes_where_it_is_meant`]).
pub fn modes_are_the_users()
    ensures others { (h : HostModel) (act : Act)
        → ((after_act h act).state.input.mode ≡ h.state.input.mode) ⊎ SwitchesMode act h.state }
    ensures xray_key { (h : HostModel)
        → unserved_input h (device.Press xray_key) ≡ None → h.state.input.held ≡ []
        → let now = after_act h (Does (device.Press xray_key)) in
        now.state.input.mode ≡ xray_mode h.state.input.mode }
    ensures kill_key { (h : HostModel)
        → unserved_input h (device.Press kill_key) ≡ None → h.state.input.held ≡ []
        → let now = after_act h (Does (device.Press kill_key)) in
        now.state.input.mode ≡ kill_mode h.state.input.mode }
    ensures kill_click { (h : HostModel)
        → unserved_input h (device.Press kill_button) ≡ None → h.state.input.held ≡ []
        → h.state.input.mode ≡ Kill
        → (after_act h (Does (device.Press kill_button))).state.input.mode ≡ Flat }
{}

/// A click goes to the client that the user saw there.
///
/// Let a host have been asked `acts`, then looked, then been asked `rest`, without another look.
/// Where it serves the press of a button while nothing is held, the seat whose client has the pixel
/// under the pointer is the one whose client had it as the host looked, or it is nobody's in both;
/// and nobody has come to that seat since, so that it is the same client. So only the client that
/// the look showed there gets the focus by a click, or is locked out by one; and nobody is locked
/// out by anything else. Before the first look no client is clicked.
///
/// What the look showed is told by [`Host::owner_shown`](crate::Host::owner_shown). No other press
/// is refused for it: what is refused is a button, while nothing is held, where the
/// pixel is another's now, or its seat has another client.
pub fn clicks_go_where_the_user_saw()
    ensures seat { (h : HostModel) (acts rest : List Act) (k : ℕ) → HasNoLook rest
        → let now = after_look h acts rest in TakesClick now k
        → owner_then (after_acts h acts).state now.state ≡ under_pointer now.state }
    ensures client { (h : HostModel) (acts rest : List Act) (k seat : ℕ) → HasNoLook rest
        → let now = after_look h acts rest in TakesClick now k
        → under_pointer now.state ≡ Some seat → CameSince h acts rest seat → ⊥ }
    ensures focus { (h : HostModel) (acts rest : List Act) (act : Act) (seat : ℕ)
        → HasNoLook rest → let now = after_look h acts rest in
        (after_act now act).state.input.focus ≡ Some seat
        → (now.state.input.focus ≡ Some seat)
        ⊎ (IsClickBy act now.state seat × WasShown h acts rest seat) }
    ensures locked { (h : HostModel) (acts rest : List Act) (act : Act) (seat : ℕ)
        → HasNoLook rest → let now = after_look h acts rest in
        IsLockedOut (after_act now act).state seat
        → IsLockedOut now.state seat ⊎ (IsKillBy act now.state seat × WasShown h acts rest seat) }
    ensures first { (h : HostModel) (acts : List Act) (k : ℕ) → h.seen ≡ no_look
        → HasNoLook acts → let now = after_acts h acts in TakesClick now k
        → under_pointer now.state ≡ None }
    ensures unseen { (h : HostModel) (acts : List Act) (act : Act) (seat : ℕ) → h.seen ≡ no_look
        → HasNoLook acts → let now = after_acts h acts in
        ((after_act now act).state.input.focus ≡ Some seat → now.state.input.focus ≡ Some seat)
        × (IsLockedOut (after_act now act).state seat → IsLockedOut now.state seat) }
    ensures shown { (h : HostModel) (acts rest : List Act) (x y : ℕ) → HasNoLook rest
        → owner_shown (after_look h acts rest) x y ≡ owner_on (after_acts h acts).state x y }
    ensures refused { (h : HostModel) (dev : Device) → unserved_input h dev ≡ Some why.Moved
        → (k : ℕ) × (dev ≡ device.Press k) × (is_button k ≡ true) × (h.state.input.held ≡ []) }
    ensures moved { (h : HostModel) (acts rest : List Act) (dev : Device) → HasNoLook rest
        → let now = after_look h acts rest in unserved_input now dev ≡ Some why.Moved
        → owner_then (after_acts h acts).state now.state ≡ under_pointer now.state
        → (seat : ℕ) × (under_pointer now.state ≡ Some seat)
        × (seat < most_sessions → CameSince h acts rest seat) }
{}

/// The user puts a client's view in front of its layer or behind it, and no client is told: each
/// session is as it was, so that every reply and every event of its client comes as ever, and so is
/// all else but the place of that view. It is a step of no client, so that
/// [`clients_are_served_alone`] holds however the user restacks.
pub fn restacking_is_the_users()
    ensures { (h : HostModel) (side : Side) (client : Client) (view : ℕ)
        → IsRestacked h (after_act h (Puts side client view)) client.seat view }
{}

/// Each client has a name of its own, and a call that names a former client of a seat reaches
/// nobody.
///
/// Let a client come to a seat of a host, whatever that was asked since it opened. As long as no
/// other comes to the seat the client is the one of its seat; and from then on it never is again,
/// whatever the host is asked.
pub fn former_clients_reach_nobody()
    ensures calls { (h : HostModel) (client : Client) (asked : Call) → is_client h client ≡ false
        → after_act h (Calls client asked) ≡ h }
    ensures refreshes { (h : HostModel) (client : Client) (x y : ℤ) (width height : ℕ)
        (words : List ℕ)
        → is_client h client ≡ false
        → after_act h (Refreshes client x y width height words) ≡ h }
    ensures restacks { (h : HostModel) (side : Side) (client : Client) (view : ℕ)
        → is_client h client ≡ false → after_act h (Puts side client view) ≡ h }
    ensures present { (first : HostModel) (acts rest : List Act) (seat : ℕ) (label : List ℕ)
        → IsFirst first → seat < most_sessions → let h = after_acts first acts in
        unseated h seat label ≡ None
        → (CameBy (after_act h (Comes seat label)) rest seat → ⊥)
        → is_client (since_coming h seat label rest) (next_client h seat) ≡ true }
    ensures former { (first : HostModel) (acts rest : List Act) (seat : ℕ) (label : List ℕ)
        → IsFirst first → seat < most_sessions → let h = after_acts first acts in
        unseated h seat label ≡ None
        → CameBy (after_act h (Comes seat label)) rest seat
        → is_client (since_coming h seat label rest) (next_client h seat) ≡ false }
{}

/// A code is held from its press to its release, but a mode key never, whoever comes and goes
/// meanwhile. So a release that the host does not hand in leaves its code held.
pub fn codes_are_held_until_released()
    ensures user { (h : HostModel) (dev : Device) (k : ℕ) → unserved_input h dev ≡ None
        → is_held (after_act h (Does dev)).state.input k
        ≡ is_held_after dev k (is_held h.state.input k) }
    ensures others { (h : HostModel) (act : Act) → ((dev : Device) → act ≢ Does dev)
        → (after_act h act).state.input.held ≡ h.state.input.held }
{}

/// Of each host, whatever it was asked since it opened, by [`Host::vacant`](crate::Host::vacant) or
/// [`Host::seated`](crate::Host::seated): what [`clients_are_served_alone`] and
/// [`input_goes_where_it_is_meant`] say of one that begins in a state where whoever is known sits,
/// and the user has done nothing yet.
pub fn laws_hold_since_opening()
    ensures alone { (first : HostModel) (acts : List Act) (seat : ℕ)
        → IsFirst first → seat < length first.state.sessions → let steps = steps_of first acts in
        replies_to seat (since_opening seat steps)
        ≡ replies_from (opening_of first.state seat steps)
        (projection seat (since_opening seat steps)) }
    ensures pressed { (first : HostModel) (acts : List Act) (seat k : ℕ)
        (before rest : List Observation)
        → IsFirst first
        → projection seat (since_opening seat (steps_of first acts))
        ≡ before ++ Gets (item.Event (event.Release k)) ∷ rest
        → IsDown k before }
    ensures live { (first : HostModel) (acts : List Act) (dev : Device)
        → IsFirst first → let now = after_acts first acts in
        All (λ d. IsLive now.state d.sid) (deliveries_of (routed_of now dev)) }
    ensures known { (first : HostModel) (acts : List Act)
        → IsFirst first → AreLive (after_acts first acts).state }
    ensures receiver { (first : HostModel) (acts : List Act) (seat k : ℕ)
        → IsFirst first → let now = after_acts first acts in
        now.state.input.receiver ≡ Some seat → is_held now.state.input k ≡ true
        → IsDown k (projection seat (since_opening seat (steps_of first acts))) }
    ensures xray { (first : HostModel) (acts : List Act) (dev : Device)
        → IsFirst first → let now = after_acts first acts in
        now.state.input.mode ≡ Xray
        → All (TellsFocus now.state) (deliveries_of (routed_of now dev)) }
    ensures kill { (first : HostModel) (acts : List Act) (dev : Device)
        → IsFirst first → let now = after_acts first acts in
        now.state.input.mode ≡ Kill
        → All (KillsPointed now.state) (deliveries_of (routed_of now dev)) }
{
    clients_are_served_alone();
    input_goes_where_it_is_meant();
    live_sessions_stay();
}

/// What a client has handed in, word by word. A refresh that is served and accepted sets the words
/// of the part, each by its index in the buffer, to the low three bytes of those that stand there,
/// and no other word of any seat; one that is refused sets none. Neither does a call, what the user
/// does ([`restacking_is_the_users`] too), or a look. A client that comes finds each of its words 0,
/// and no other seat's changed.
///
/// A seat has at least the words of its buffer ([`Host::buffer`](crate::Host::buffer)).
pub fn words_are_those_handed_in()
    ensures handed { (h : HostModel) (client : Client) (x y : ℤ) (w height : ℕ) (words : List ℕ)
        (i j : ℕ)
        → let seat = client.seat in unserved_refresh h client words ≡ None
        → is_accepted (reply_to h seat (call.Refresh x y w height)) ≡ true
        → let s = session h.state seat in
        s.bw * s.bh ≤ length (sheet_in h.sheets seat) → IsInPart s x y w height i j
        → sheet_word (after_act h (Refreshes client x y w height words)) seat (j * s.bw + i)
        ≡ slice_index words (j * s.bw + i) % 2 ^ 24 }
    ensures others { (h : HostModel) (client : Client) (x y : ℤ) (w height : ℕ) (words : List ℕ)
        (t n : ℕ)
        → let s = session h.state client.seat in
        (t ≡ client.seat → (i j : ℕ) → IsInPart s x y w height i j → n ≢ j * s.bw + i)
        → sheet_word (after_act h (Refreshes client x y w height words)) t n ≡ sheet_word h t n }
    ensures refused { (h : HostModel) (client : Client) (x y : ℤ) (w height : ℕ) (words : List ℕ)
        → is_accepted (reply_to h client.seat (call.Refresh x y w height)) ≡ false
        → (after_act h (Refreshes client x y w height words)).sheets ≡ h.sheets }
    ensures calls { (h : HostModel) (client : Client) (call : Call)
        → (after_act h (Calls client call)).sheets ≡ h.sheets }
    ensures user { (h : HostModel) (dev : Device) → (after_act h (Does dev)).sheets ≡ h.sheets }
    ensures looks { (h : HostModel) → (after_act h Looks).sheets ≡ h.sheets }
    ensures comes { (h : HostModel) (seat : ℕ) (label : List ℕ) (n : ℕ)
        → unseated h seat label ≡ None → sheet_word (after_act h (Comes seat label)) seat n ≡ 0 }
    ensures stay { (h : HostModel) (seat : ℕ) (label : List ℕ) (t n : ℕ)
        → t ≢ seat → sheet_word (after_act h (Comes seat label)) t n ≡ sheet_word h t n }
{}

/// Which of these words each pixel shows, before the mode lays anything over it. Where a view is
/// the front-most one at a pixel below the bar, that is the word of the view's seat at the place of
/// its buffer which lies under the pixel, by column and row: counted from the view's corner, and
/// moved by its offset. It is 0 where the buffer does not reach, and the bare word where no view
/// is.
pub fn pixels_show_words_of_their_seats()
    ensures source { (h : HostModel) (k seat n : ℕ) → k < pixel_count h.state
        → source_at h.state k ≡ Word seat n → slice_index (picture_now h) k ≡ sheet_word h seat n }
    ensures shown { (h : HostModel) (k i j : ℕ) (v : View) → k < pixel_count h.state
        → let width = h.state.config.width in let s = session h.state v.sid in
        owner_of h.state (pixel width k) ≡ Some v
        → (pos (k % width) -ℤ v.rect.x) -ℤ v.ox ≡ pos i → i < s.bw
        → (pos (k / width) -ℤ v.rect.y) -ℤ v.oy ≡ pos j → j < s.bh
        → slice_index (picture_now h) k ≡ sheet_word h v.sid (j * s.bw + i) }
    ensures past { (h : HostModel) (k : ℕ) (v : View) → k < pixel_count h.state
        → let width = h.state.config.width in let s = session h.state v.sid in
        owner_of h.state (pixel width k) ≡ Some v
        → ((i j : ℕ) → (pos (k % width) -ℤ v.rect.x) -ℤ v.ox ≡ pos i → i < s.bw
        → (pos (k / width) -ℤ v.rect.y) -ℤ v.oy ≡ pos j → j < s.bh → ⊥)
        → slice_index (picture_now h) k ≡ 0 }
    ensures black { (h : HostModel) (k : ℕ) → k < pixel_count h.state
        → source_at h.state k ≡ Black → slice_index (picture_now h) k ≡ 0 }
    ensures bare { (h : HostModel) (k : ℕ) → k < pixel_count h.state
        → owner_of h.state (pixel h.state.config.width k) ≡ None
        → slice_index (picture_now h) k ≡ bare_word }
{}
