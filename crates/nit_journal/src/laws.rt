//! Laws of journals, over plain lists.

ghost use Rattle.std.specs.Prelude.{All, ◌≡◌, ◌≢◌, ◌+◌, ◌++◌, ◌∷◌, [], ℕ, List, length, ◌<◌, ◌⊎◌};
ghost use Rattle.std.specs.Prelude.{true, map, Some, None};
ghost use Rattle.nit_journal.specs.Terms.{Agrees, AreLive, AreSteps, Call, Close, Configuration};
ghost use Rattle.nit_journal.specs.Terms.{Delivery, Device, Entry, Event, Flat, Gets, InputState};
ghost use Rattle.nit_journal.specs.Terms.{IsClickAt, IsDown, IsKillAlone, IsLegal, IsLive, IsOpen};
ghost use Rattle.nit_journal.specs.Terms.{Kill, KillsPointed, LegalFrom, Observation, Reply};
ghost use Rattle.nit_journal.specs.Terms.{Routed, State, Step, Take, TellsFocus, TellsLeave, Xray};
ghost use Rattle.nit_journal.specs.Terms.{action_of, after, after_observations, after_steps, alone};
ghost use Rattle.nit_journal.specs.Terms.{alone_machine, deliveries_of, donation_of, first_input};
ghost use Rattle.nit_journal.specs.Terms.{first_state, is_accepted, is_button, is_held, is_key};
ghost use Rattle.nit_journal.specs.Terms.{is_mode_key, opened, opening_of, own_machine, projection};
ghost use Rattle.nit_journal.specs.Terms.{replay, replay_from, replies_from, replies_to, route};
ghost use Rattle.nit_journal.specs.Terms.{serve, session, shots, since_opening, to, under_pointer};
ghost use Rattle.nit_journal.specs.Terms.{vacant_state};
ghost use Rattle.nit_events.specs.declared.call.Reply.TheVariants as reply;
ghost use Rattle.nit_events.specs.declared.device.Device.TheVariants as device;
ghost use Rattle.nit_events.specs.declared.event.Event.TheVariants as event;
ghost use Rattle.nit_events.specs.declared.event.Item.TheVariants as item;
ghost use Rattle.nit_events.specs.declared.event.Status.TheVariants as status;
ghost use Rattle.nit_events.specs.declared.entry.Entry.TheVariants as entry;
ghost use Rattle.nit_stack.specs.declared.view.View.{View};

/// A journal with one more entry: it leads to the state after that entry, and it is legal where the
/// entry agrees with the state and the shots before it, and only there.
pub fn one_more_entry()
    ensures replayed { (s : State) (journal : List Entry) (e : Entry)
        → replay_from s (journal ++ e ∷ []) ≡ after (replay_from s journal) e }
    ensures legal { (s : State) (taken : ℕ) (journal : List Entry) (e : Entry)
        → LegalFrom s taken journal → IsOpen journal
        → Agrees (replay_from s journal) (taken + shots journal) e
        → LegalFrom s taken (journal ++ e ∷ []) }
    ensures agrees { (s : State) (taken : ℕ) (journal : List Entry) (e : Entry)
        → LegalFrom s taken (journal ++ e ∷ [])
        → Agrees (replay_from s journal) (taken + shots journal) e }
{}

/// A front of a legal journal is legal. Where an entry stands after it, the last picture was not
/// taken in it, and that entry agrees with the state that the front leads to and with its shots.
pub fn fronts_are_legal()
    ensures legal { (config : Configuration) (front rest : List Entry)
        → IsLegal config (front ++ rest) → IsLegal config front }
    ensures unended { (config : Configuration) (front : List Entry) (e : Entry) (rest : List Entry)
        → IsLegal config (front ++ e ∷ rest) → IsOpen front }
    ensures agrees { (config : Configuration) (front : List Entry) (e : Entry) (rest : List Entry)
        → IsLegal config (front ++ e ∷ rest) → Agrees (replay config front) (shots front) e }
{}

/// Two legal journals of one configuration are equal where their entries are of the same: the same
/// calls of the same sessions, the same device events, shots and last picture, in the same order.
pub fn same_acts_same_journal()
    ensures { (config : Configuration) (js ks : List Entry)
        → IsLegal config js → IsLegal config ks → map action_of js ≡ map action_of ks → js ≡ ks }
{}

/// No entry changes the configuration, and whatever happens there is one session for each client.
pub fn configuration_stays()
    ensures step { (s : State) (e : Entry) → (after s e).config ≡ s.config }
    ensures configuration { (config : Configuration) (journal : List Entry)
        → (replay config journal).config ≡ config }
    ensures sessions { (config : Configuration) (journal : List Entry)
        → length (replay config journal).sessions ≡ length config.clients }
{}

/// An entry of a device event that agrees with the state before it keeps every delivery of the
/// event, in order.
pub fn deliveries_fit()
    ensures { (s : State) (taken : ℕ) (dev : Device) (routed : Routed)
        → Agrees s taken (entry.Input dev routed)
        → deliveries_of routed ≡ (route s.config s.input s.stack dev).deliveries }
{}

/// Where a device event locks a session out, nothing else is delivered.
pub fn kills_stand_alone()
    ensures { (config : Configuration) (i : InputState) (stack : List View) (dev : Device)
        → IsKillAlone (route config i stack dev).deliveries }
{}

/// In a legal journal each delivery goes to a session that is live in the state before its entry.
/// So it is with whatever entry of a device event comes next.
pub fn deliveries_go_to_live_sessions()
    ensures legal { (config : Configuration) (journal : List Entry)
        → (dev : Device) (routed : Routed) (rest : List Entry)
        → IsLegal config (journal ++ entry.Input dev routed ∷ rest)
        → All (λ d. IsLive (replay config journal) d.sid) (deliveries_of routed) }
    ensures next { (config : Configuration) (journal : List Entry) (dev : Device)
        → IsLegal config journal → let s = replay config journal in
        All (λ d. IsLive s d.sid) (route s.config s.input s.stack dev).deliveries }
{}

/// In a state in which whoever the input knows and whoever has a view is live, a device event tells
/// live sessions alone. States are such before the first step, and stay such along any steps.
pub fn live_sessions_stay()
    ensures first { (config : Configuration) → AreLive (first_state config) }
    ensures vacant { (config : Configuration) → AreLive (vacant_state config) }
    ensures entry { (s : State) (taken : ℕ) (e : Entry) → AreLive s → Agrees s taken e → AreLive
        (after s e) }
    ensures opened { (s : State) (sid : ℕ) (label : List ℕ) → AreLive s → AreLive
        (opened sid label s) }
    ensures steps { (s : State) (steps : List Step) → AreLive s → AreSteps s steps → AreLive
        (after_steps s steps) }
    ensures told { (s : State) (dev : Device) → AreLive s
        → All (λ d. IsLive s d.sid) (route s.config s.input s.stack dev).deliveries }
{}

/// Along any steps, whatever the other sessions do, whoever opens, and however the user restacks
/// views, each session is served as if it were alone since it last opened: its replies and its
/// machine come from the donation that it opened with, its own calls and the items that were routed
/// to it since then. What was before its opening does not matter. A session that did not open goes
/// on from where it was.
pub fn seats_stand_alone()
    ensures replies { (s : State) (steps : List Step) (x : ℕ)
        → length s.sessions ≡ length s.config.clients → AreSteps s steps → x < length s.sessions
        → replies_to x (since_opening x steps)
        ≡ replies_from (opening_of s x steps) (projection x (since_opening x steps)) }
    ensures machine { (s : State) (steps : List Step) (x : ℕ)
        → length s.sessions ≡ length s.config.clients → AreSteps s steps → x < length s.sessions
        → session (after_steps s steps) x
        ≡ after_observations (opening_of s x steps) (projection x (since_opening x steps)) }
{}

/// Along any steps from a state in which the user has done nothing, each release that was routed to
/// a session since it last opened follows a press of the same code that was routed to it since
/// then, with no other release of it between.
pub fn releases_follow_presses_since_opening()
    ensures { (s : State) (steps : List Step) (x k : ℕ) (before rest : List Observation)
        → AreLive s → s.input ≡ first_input → AreSteps s steps
        → projection x (since_opening x steps)
        ≡ before ++ Gets (item.Event (event.Release k)) ∷ rest
        → IsDown k before }
{}

/// Among the items that a legal journal routes to a session, each release of a code follows a press
/// of it, with no other release of it between.
pub fn releases_follow_presses()
    ensures { (config : Configuration) (journal : List Entry) (s k : ℕ)
        (before rest : List Observation)
        → IsLegal config journal
        → projection s journal ≡ before ++ Gets (item.Event (event.Release k)) ∷ rest
        → IsDown k before }
{}

/// Each session of a legal journal gets the replies of a machine that serves it alone: they come
/// from its donation, its own calls and the items that were routed to it.
pub fn isolation()
    ensures { (config : Configuration) (journal : List Entry) (s : ℕ)
        → IsLegal config journal → s < length config.clients
        → replies_to s journal ≡ alone (donation_of config s) (projection s journal) }
{}

/// The machine of each session, after a legal journal, is the one that serves it alone: what it
/// lost, what is still queued and whether it is served come from its donation, its own calls and
/// the items that were routed to it.
pub fn machines_stand_alone()
    ensures { (config : Configuration) (journal : List Entry) (s : ℕ)
        → IsLegal config journal → s < length config.clients
        → session (replay config journal) s
        ≡ alone_machine (donation_of config s) (projection s journal) }
{}

/// Two legal journals, of any two configurations, that give a session the same donation. Where it
/// sees the same in both, it gets the same replies; and where what it sees in the one goes on in
/// the other, so do its replies.
pub fn two_worlds()
    ensures same { (c d : Configuration) (js ks : List Entry) (s t : ℕ)
        → IsLegal c js → IsLegal d ks → s < length c.clients → t < length d.clients
        → donation_of c s ≡ donation_of d t
        → projection s js ≡ projection t ks → replies_to s js ≡ replies_to t ks }
    ensures longer { (c d : Configuration) (js ks : List Entry) (s t : ℕ)
        → IsLegal c js → IsLegal d ks → s < length c.clients → t < length d.clients
        → donation_of c s ≡ donation_of d t
        → (more : List Observation) → projection t ks ≡ projection s js ++ more
        → (rest : List Reply) × (replies_to t ks ≡ replies_to s js ++ rest) }
{}

/// A call leaves the machine of every other session as it was, and it puts no event into any queue:
/// it can only take some from the front.
pub fn calls_touch_no_other()
    ensures others { (s : State) (sid : ℕ) (call : Call) (r : Reply) (x : ℕ)
        → x ≢ sid → session (after s (entry.Call sid call r)) x ≡ session s x }
    ensures queues { (s : State) (sid : ℕ) (call : Call) (r : Reply) (x : ℕ)
        → let now = session (after s (entry.Call sid call r)) x in
        (taken : List Event) × ((session s x).queue ≡ taken ++ now.queue) }
{}

/// While a session is live, the user's input changes nothing of its machine but the queue and the
/// count of lost events. The rest is that of a machine that gets its calls alone: donation,
/// reserve, buffer, handles and the next handle. So every call but `Take` is answered, and refused
/// for quota or reserve, by its own donation and calls.
pub fn quota_is_its_own()
    ensures machine { (config : Configuration) (journal : List Entry) (s : ℕ)
        → s < length config.clients → (session (replay config journal) s).status ≡ status.Live
        → let now = session (replay config journal) s in
        now ≡ record (own_machine config s journal) { queue = now.queue; lost = now.lost } }
    ensures replies { (config : Configuration) (journal : List Entry) (s : ℕ)
        → s < length config.clients → (session (replay config journal) s).status ≡ status.Live
        → (call : Call) → call ≢ Take
        → let now = session (replay config journal) s in
        (serve now call).reply ≡ (serve (own_machine config s journal) call).reply }
{}

/// Where a legal journal refuses a call for want of quota or reserve, less is left than the call
/// needs. And the machine that got the session's own calls before it, and nothing else, refuses it
/// with the same numbers.
pub fn refusals_are_its_own()
    ensures quota { (config : Configuration) (front rest : List Entry)
        → (sid : ℕ) (call : Call) (need left : ℕ)
        → IsLegal config (front ++ entry.Call sid call (reply.OutOfQuota need left) ∷ rest)
        → let refused = reply.OutOfQuota need left in
        (left < need) × ((serve (own_machine config sid front) call).reply ≡ refused) }
    ensures reserve { (config : Configuration) (front rest : List Entry)
        → (sid : ℕ) (call : Call) (need left : ℕ)
        → IsLegal config (front ++ entry.Call sid call (reply.NoReserve need left) ∷ rest)
        → let refused = reply.NoReserve need left in
        (left < need) × ((serve (own_machine config sid front) call).reply ≡ refused) }
{}

/// No call moves the focus, but for an accepted `Close` of the focused session, which leaves none.
/// And a device event gives the focus to a session only by a click on a pixel of its own: a button
/// is pressed in mode `Flat` or `Xray`, and the configuration says that the session takes the focus
/// by clicks.
pub fn focus_is_the_users()
    ensures calls { (s : State) (sid : ℕ) (call : Call) (r : Reply)
        → ((after s (entry.Call sid call r)).input.focus ≡ s.input.focus)
        ⊎ ((call ≡ Close) × (is_accepted r ≡ true) × (s.input.focus ≡ Some sid)) }
    ensures closed { (s : State) (sid : ℕ) (r : Reply)
        → is_accepted r ≡ true → s.input.focus ≡ Some sid
        → (after s (entry.Call sid Close r)).input.focus ≡ None }
    ensures clicks { (s : State) (dev : Device) (routed : Routed) (x : ℕ)
        → (after s (entry.Input dev routed)).input.focus ≡ Some x
        → (s.input.focus ≡ Some x) ⊎ IsClickAt s dev x }
{}

/// Where keys and buttons go. In mode Flat, with nothing held down, a key goes to the focused
/// session, and a button to the session that owns the pixel under the pointer. No other session is
/// told anything, but for the news of the focus that a click moves. While something is held, all
/// that the user does goes to one session, the receiver, which got the press of each code that is
/// held. A mode key goes to nobody.
///
/// Behind any journal, in the modes Xray and Kill, no session gets a key, a button, a motion or a
/// turn of the wheel, whatever the user does. All that is told there is, in mode Xray, who lost the
/// focus and who has it now, and in mode Kill, to the session under the pointer, that it is locked
/// out.
pub fn input_goes_where_it_is_meant()
    ensures keys { (s : State) (k : ℕ)
        → s.input.mode ≡ Flat → s.input.held ≡ [] → is_key k ≡ true
        → (route s.config s.input s.stack (device.Press k)).deliveries
        ≡ to s.input.focus (event.Press k) }
    ensures buttons { (s : State) (k : ℕ)
        → s.input.mode ≡ Flat → s.input.held ≡ [] → is_button k ≡ true
        → (told : List Delivery) × All (TellsFocus s) told
        × ((route s.config s.input s.stack (device.Press k)).deliveries
        ≡ told ++ to (under_pointer s) (event.Press k)) }
    ensures held { (s : State) (dev : Device) → s.input.held ≢ []
        → All (λ d. s.input.receiver ≡ Some d.sid) (route s.config s.input s.stack dev).deliveries }
    ensures receiver { (config : Configuration) (journal : List Entry) (x k : ℕ)
        → IsLegal config journal → let s = replay config journal in
        s.input.receiver ≡ Some x → is_held s.input k ≡ true → IsDown k (projection x journal) }
    ensures mode_keys { (s : State) (k : ℕ) → is_mode_key k ≡ true
        → All (TellsLeave s) (route s.config s.input s.stack (device.Press k)).deliveries }
    ensures xray { (config : Configuration) (journal : List Entry) (dev : Device)
        → let s = replay config journal in
        s.input.mode ≡ Xray
        → All (TellsFocus s) (route s.config s.input s.stack dev).deliveries }
    ensures kill { (config : Configuration) (journal : List Entry) (dev : Device)
        → let s = replay config journal in
        s.input.mode ≡ Kill
        → All (KillsPointed s) (route s.config s.input s.stack dev).deliveries }
{}

/// Where input goes along any steps from a state in which the user has done nothing yet. The
/// session that receives what is held got the press of each code that is held, since it last
/// opened. In the modes Xray and Kill no session gets a key, a button, a motion or a turn of the
/// wheel, as [`input_goes_where_it_is_meant`] says of journals.
pub fn input_goes_where_it_is_meant_along_steps()
    ensures receiver { (s : State) (steps : List Step) (x k : ℕ)
        → AreLive s → s.input ≡ first_input → AreSteps s steps → let now = after_steps s steps in
        now.input.receiver ≡ Some x → is_held now.input k ≡ true
        → IsDown k (projection x (since_opening x steps)) }
    ensures xray { (s : State) (steps : List Step) (dev : Device)
        → s.input ≡ first_input → let now = after_steps s steps in
        now.input.mode ≡ Xray
        → All (TellsFocus now) (route now.config now.input now.stack dev).deliveries }
    ensures kill { (s : State) (steps : List Step) (dev : Device)
        → s.input ≡ first_input → let now = after_steps s steps in
        now.input.mode ≡ Kill
        → All (KillsPointed now) (route now.config now.input now.stack dev).deliveries }
{}
