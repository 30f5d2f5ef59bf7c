//! A server is opened, and closed.

ghost use Rattle.std.specs.Prelude.{◌≡◌, ◌≢◌, ◌≤◌, ℕ, None, Some, IfOk, MatchResult, Err, length};
ghost use Rattle.std.specs.Prelude.{take};
ghost use Rattle.nit_c.specs.Terms.{IsClosed, IsConfiguration, IsMadeByPlan, IsOpened, IsOpenedBy};
ghost use Rattle.nit_c.specs.Terms.{IsConfigLine, IsRead, IsShut, are_seats, have_clicks, host_of};
ghost use Rattle.nit_c.specs.Terms.{lettered, plan_number, planned_config, refused_words};
ghost use Rattle.nit_c.specs.Terms.{screen_plan, seat_count, seats_in};
ghost use Rattle.nit_host.specs.Terms.{first_host, first_state, vacant_state};

use crate::handle::NitServer;
use crate::numbers::{
    BAD_PLAN, CONFIG_TOO_LONG, DONE, IS_OPEN, NO_MEMORY, NO_SERVER, config_number, number_or_none,
};
use nit_config::{Config, fault_line, read_config, run_is_configured};
use nit_glyph::{Glyphs, Lettering};
use nit_host::{Host, PlanError, ScreenPlan, SeatPlan, plan};
use nit_rect::{MOST_SESSIONS, NoMemory};
use std::alloc::Global;

/// So many bytes may the text of a configuration have.
const MOST_TEXT: usize = 1048576;

/// A seat that is not in a plan.
const NO_PLAN: SeatPlan = SeatPlan {
    donation: 0,
    layer: 0,
    clicks: false,
};

/// The screen of these numbers, if there is one: a bar for 1 and none for 0, small glyphs for 0 and
/// large ones for 1, and the side of a dot.
fn screen_plan(width: u32, height: u32, bar: u32, glyphs: u32, scale: u32) -> Option<ScreenPlan>
    ensures { result ≡ screen_plan width height bar glyphs scale }
{
    if bar > 1 || glyphs > 1 {
        return None;
    }
    let glyphs = if glyphs == 1 {
        Glyphs::Large
    } else {
        Glyphs::Small
    };
    Some(ScreenPlan {
        width,
        height,
        bar: bar == 1,
        lettering: Lettering { glyphs, scale },
    })
}

/// Whether there are three words for each of at most 64 seats, the third of which is 0 or 1.
fn are_seats(words: &[u32]) -> bool
    ensures { result ≡ are_seats words.now }
{
    words.len() <= 3 * MOST_SESSIONS && words.len() == 3 * (words.len() / 3) && have_clicks(words)
}

/// Whether the third word of each seat is 0 or 1.
fn have_clicks(words: &[u32]) -> bool
    ensures { result ≡ have_clicks words.now }
{
    'seats: for seat in 0..words.len() / 3 {
        if words[3 * seat + 2] > 1 {
            return false;
        }
    }
    true
}

/// Reads the seats, which are at most 64.
fn read_seats(words: &[u32], seats: &mut [SeatPlan])
    requires { seat_count words.now ≤ length seats.old }
    ensures seats { take (seat_count words.now) seats.new ≡ seats_in words.now }
    ensures length { length seats.new ≡ length seats.old }
{
    'seats: for seat in 0..words.len() / 3 {
        seats[seat] = SeatPlan {
            donation: words[3 * seat],
            layer: words[3 * seat + 1],
            clicks: words[3 * seat + 2] == 1,
        };
    }
}

/// The number of a refusal of a plan.
fn plan_number(why: PlanError) -> u32
    ensures { result ≡ plan_number why }
{
    match why {
        PlanError::NoMemory => NO_MEMORY,
        PlanError::Screen | PlanError::Seats | PlanError::Donation | PlanError::Layer => BAD_PLAN,
    }
}

/// The configuration of a plan whose seats are words.
fn configuration(alloc: Global, screen: &ScreenPlan, words: &[u32]) -> Result<Config, u32>
    ensures refused { (why : ℕ) → refused_words screen.now words.now ≡ Some why
        → result ≡ Err why }
    ensures planned { refused_words screen.now words.now ≡ None
        → MatchResult result
        (λ config. lettered screen.now.lettering config ≡ planned_config screen.now words.now)
        (λ why. why ≡ 42) }
    ensures configured { IfOk result
        (λ config. IsConfiguration (lettered screen.now.lettering config)) }
{
    if !are_seats(words) {
        return Err(BAD_PLAN);
    }
    let mut seats = [NO_PLAN; MOST_SESSIONS];
    read_seats(words, &mut seats);
    match plan(alloc, screen, &seats[..words.len() / 3]) {
        Ok(config) => Ok(config),
        Err(why) => Err(plan_number(why)),
    }
}

/// A server in a box whose seats are all free. Texts are drawn so.
fn vacant(
    alloc: Global,
    config: &Config,
    lettering: Lettering,
) -> Result<Box<Host, Global>, NoMemory>
    requires { IsConfiguration (lettered lettering config.now) }
    ensures { let drawn = lettered lettering config.now in
        IfOk result (λ b. b.value ≡ first_host (vacant_state drawn) drawn) }
{
    Ok(Box::new(alloc, Host::vacant(alloc, config, lettering)?)?)
}

/// A server in a box whose seats are all taken. Texts are drawn plainly.
fn seated(alloc: Global, config: &Config) -> Result<Box<Host, Global>, NoMemory>
    requires { IsConfiguration config.now }
    ensures { IfOk result (λ b. b.value ≡ first_host (first_state config.now) config.now) }
{
    // a configuration that is read has plain texts: so says its model, which reading it shows
    let _bar = config.bar;
    Ok(Box::new(alloc, Host::seated(alloc, config, Lettering::PLAIN)?)?)
}

/// A server of a plan of a screen, if there is one, and of seats in words, or the number of what
/// refuses it.
fn planned(
    alloc: Global,
    screen: Option<ScreenPlan>,
    words: &[u32],
) -> Result<Box<Host, Global>, u32>
    ensures { MatchResult result
        (λ b. IsMadeByPlan screen words.now (Some b.value) 1)
        (λ why. IsMadeByPlan screen words.now None why) }
{
    let Some(screen) = screen else {
        return Err(BAD_PLAN);
    };
    let config = match configuration(alloc, &screen, words) {
        Ok(config) => config,
        Err(why) => return Err(why),
    };
    match vacant(alloc, &config, screen.lettering) {
        Ok(host) => Ok(host),
        Err(NoMemory) => Err(NO_MEMORY),
    }
}

/// A server of the configuration that a text is, or the number of what refuses it.
fn configured(alloc: Global, text: &[u8]) -> Result<Box<Host, Global>, u32>
    ensures { MatchResult result
        (λ b. IsRead text.now (Some b.value) 1)
        (λ why. IsRead text.now None why) }
{
    run_is_configured();
    let config = match read_config(alloc, text) {
        Ok(config) => config,
        Err(error) => return Err(config_number(error)),
    };
    match seated(alloc, &config) {
        Ok(host) => Ok(host),
        Err(NoMemory) => Err(NO_MEMORY),
    }
}

/// Opens a server whose seats are all free. The screen has this width, 1..=4096, and height,
/// 1..=4096, and a status bar where `bar` is 1 and not 0. Its texts have small glyphs where
/// `glyphs` is 0, large ones where it is 1, and dots of `scale` by `scale` pixels, 1..=8. `seats`
/// has three words for each of 1 to 64 seats: its donation, 256..=268,435,456, its layer, 0..=7,
/// and 1 where a click moves the focus, or 0.
#[unsafe(no_mangle)]
pub extern "C" fn nit_open_seats_3(
    alloc: Global,
    server: &mut NitServer,
    width: u32,
    height: u32,
    bar: u32,
    glyphs: u32,
    scale: u32,
    seats: &[u32],
) -> u32
    ensures opened { IsOpened (host_of server.old.mark server.old.value)
        (host_of server.new.mark server.new.value)
        (screen_plan width height bar glyphs scale) seats.now result }
    ensures kept { result ≢ 1 → server.new ≡ server.old }
{
    if server.is_live() {
        return IS_OPEN;
    }
    let screen = screen_plan(width, height, bar, glyphs, scale);
    match planned(alloc, screen, seats) {
        Ok(host) => {
            *server = NitServer::of(host);
            DONE
        }
        Err(why) => why,
    }
}

/// Opens a server by the text of a configuration, of at most 1,048,576 bytes. Its clients sit on
/// the seats from the start, and its texts have small glyphs with dots of one pixel.
#[unsafe(no_mangle)]
pub extern "C" fn nit_open_config_3(alloc: Global, server: &mut NitServer, text: &[u8]) -> u32
    ensures opened { IsOpenedBy (host_of server.old.mark server.old.value)
        (host_of server.new.mark server.new.value) text.now result }
    ensures kept { result ≢ 1 → server.new ≡ server.old }
{
    if server.is_live() {
        return IS_OPEN;
    }
    if text.len() > MOST_TEXT {
        return CONFIG_TOO_LONG;
    }
    match configured(alloc, text) {
        Ok(host) => {
            *server = NitServer::of(host);
            DONE
        }
        Err(why) => why,
    }
}

/// The line in which a text of at most 1,048,576 bytes stops being TOML, counted from 1: for a text
/// that opening refuses as no TOML. It is 0 where the text is TOML, and 2^32 - 1 where it is too
/// long or memory ran out.
#[unsafe(no_mangle)]
pub extern "C" fn nit_config_line(alloc: Global, text: &[u8]) -> u32
    ensures { IsConfigLine text.now result }
{
    if text.len() > MOST_TEXT {
        return number_or_none(None);
    }
    match fault_line(alloc, text) {
        Ok(None) => 0,
        Ok(Some(line)) => line as u32,
        Err(NoMemory) => number_or_none(None),
    }
}

/// Frees all of a server. The handle is closed then, and may be opened again.
#[unsafe(no_mangle)]
pub extern "C" fn nit_close(alloc: Global, server: &mut NitServer) -> u32
    ensures shut { IsShut (host_of server.old.mark server.old.value)
        (host_of server.new.mark server.new.value) result }
    ensures closed { result ≡ 1 → IsClosed server.new.at server.new.mark }
    ensures kept { result ≢ 1 → server.new ≡ server.old }
{
    if !server.is_live() {
        return NO_SERVER;
    }
    drop(server.take(alloc));
    DONE
}
