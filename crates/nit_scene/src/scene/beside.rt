//! Steps of a screen by glasses: the caller's own for its session, and a list of those of all
//! others. After each the frame is made.

ghost use Rattle.std.specs.Prelude.{◌≡◌, ◌-◌, ◌^◌, ◌<◌, false, length, map};
ghost use Rattle.std.specs.Prelude.{All};
ghost use Rattle.nit_scene.specs.Terms.{AreGlasses, AreRaw, IsDevice, IsLive, MayLose, Painted};
ghost use Rattle.nit_scene.specs.Terms.{after, deliveries_of, glass_in, glasses_of_call};
ghost use Rattle.nit_scene.specs.Terms.{is_accepted, kills, routed_as, routing_of, serve, session};
ghost use Rattle.nit_scene.specs.Terms.{session_in, state_of};
ghost use Rattle.nit_events.specs.declared.entry.Entry.TheVariants as entry;

use nit_events::{Call, Device, Reply, Routed};
use nit_screen::Screen;
use nit_screen::laws::raw_stays_raw;
use nit_word::{Beside, Glass, Glasses, Lent};

/// Serves a call of a session, whose words are loaded through `own`, and those of all others
/// through their glasses in the list.
pub(crate) fn call_beside<G: Glass + Drop, C: Glass>(
    screen: &mut Screen,
    sid: u32,
    call: &Call,
    others: &mut Vec<G>,
    own: &mut C,
) -> Reply
    requires session { sid < length screen.old.serving.sessions }
    requires handles { (session_in screen.old.serving.sessions sid).next < 2 ^ 32 - 1 }
    requires glasses { AreGlasses screen.old.serving.config
        (glasses_of_call (map G.sight others.old.items) sid (C.sight own.old)) }
    requires raw { AreRaw (state_of screen.old.serving) screen.old.raw }
    ensures reply { result ≡ (serve (session (state_of screen.old.serving) sid) call.now).reply }
    ensures state { state_of screen.new.serving ≡ after (state_of screen.old.serving)
        (entry.Call sid call.now result) }
    ensures painted { Painted (state_of screen.old.serving) (entry.Call sid call.now result)
        (state_of screen.new.serving)
        (glasses_of_call (map G.sight others.old.items) sid (C.sight own.old))
        (glasses_of_call (map G.sight others.new.items) sid (C.sight own.new))
        screen.old.raw screen.new.raw }
    ensures idle { glass_in (map G.sight others.new.items) sid ≡ glass_in
        (map G.sight others.old.items) sid }
    ensures rest { C.rest own.new ≡ C.rest own.old }
    ensures rests { map G.rest others.new.items ≡ map G.rest others.old.items }
    ensures refused { is_accepted result ≡ false → (screen.new.raw ≡ screen.old.raw) ×
        (others.new.items ≡ others.old.items) × (C.sight own.new ≡ C.sight own.old) }
    ensures fresh { screen.new.is_stale ≡ false }
{
    raw_stays_raw();
    let reply = screen.call(sid, call, &mut Beside { others, sid, own });
    screen.show();
    reply
}

/// Serves a device event.
pub(crate) fn input_shown<L: Glasses>(screen: &mut Screen, dev: Device, glasses: &mut L) -> Routed
    requires device { IsDevice dev }
    requires live { All (λ d. IsLive (state_of screen.old.serving) d.sid)
        (routing_of screen.old.serving dev).deliveries }
    requires lost { MayLose 3 screen.old.serving }
    requires glasses { AreGlasses screen.old.serving.config (L.sights glasses.old) }
    requires raw { AreRaw (state_of screen.old.serving) screen.old.raw }
    ensures routed { result ≡ routed_as (routing_of screen.old.serving dev).deliveries }
    ensures delivered { deliveries_of result ≡ (routing_of screen.old.serving dev).deliveries }
    ensures state { state_of screen.new.serving ≡ after (state_of screen.old.serving)
        (entry.Input dev result) }
    ensures painted { Painted (state_of screen.old.serving) (entry.Input dev result)
        (state_of screen.new.serving) (L.sights glasses.old) (L.sights glasses.new)
        screen.old.raw screen.new.raw }
    ensures rest { L.rest glasses.new ≡ L.rest glasses.old }
    ensures quiet { kills (deliveries_of result) ≡ false
        → (screen.new.raw ≡ screen.old.raw) × (glasses.new ≡ glasses.old) }
    ensures fresh { screen.new.is_stale ≡ false }
{
    raw_stays_raw();
    let routed = screen.input(dev, glasses);
    screen.show();
    routed
}

/// Loads every pixel again, through a glass for each session, in order.
pub(crate) fn load_all_through<C: Glass>(screen: &mut Screen, owns: &mut [C])
    requires glasses { AreGlasses screen.old.serving.config (glass_in (map C.sight owns.old)) }
    requires raw { AreRaw (state_of screen.old.serving) screen.old.raw }
    ensures serving { screen.new.serving ≡ screen.old.serving }
    ensures painted { Painted (state_of screen.old.serving) entry.Final
        (state_of screen.new.serving) (glass_in (map C.sight owns.old))
        (glass_in (map C.sight owns.new)) screen.old.raw screen.new.raw }
    ensures rests { map C.rest owns.new ≡ map C.rest owns.old }
    ensures fresh { screen.new.is_stale ≡ false }
{
    raw_stays_raw();
    screen.load_all(&mut Lent { glasses: owns });
    screen.show();
}
