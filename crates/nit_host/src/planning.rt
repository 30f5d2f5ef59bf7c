//! A configuration by values: a screen and its seats.

ghost use Rattle.std.specs.Prelude.{◌≡◌, ◌<◌, ◌≤◌, None, Some, Ok, Err, IfOk, MatchResult, length};
ghost use Rattle.std.specs.Prelude.{map, nat_le};
ghost use Rattle.nit_host.specs.Terms.{IsConfiguration, PlanError, enumerate_from, hex_digit};
ghost use Rattle.nit_host.specs.Terms.{is_screen, is_within, least_units, lettered, list_all};
ghost use Rattle.nit_host.specs.Terms.{most_sessions};
ghost use Rattle.nit_host.specs.Terms.{most_units, no_script, planned, refused_plan, waiting_label};
ghost use Rattle.nit_host.specs.Terms.{waiting_member};

use crate::refusal::PlanError;
use nit_config::{Config, FileName, Member};
use nit_glyph::{Label, Lettering, text_size};
use nit_rect::{LEAST_UNITS, MOST_HEIGHT, MOST_SESSIONS, MOST_UNITS, MOST_WIDTH, NoMemory};
use std::alloc::Global;

/// The most pixels of the side of a dot.
const MOST_SCALE: u32 = 8;

/// What a seat gives to whoever sits there.
#[derive(Clone, Copy, Debug, PartialEq, Eq)]
pub struct SeatPlan {
    /// The donation in units: 256..=268,435,456. It pays for views and for the words of the buffer.
    pub donation: u32,
    /// The layer of the client's views: 0..=7, of which 0 is the front-most.
    pub layer: u32,
    /// Whether a click on one of its views moves the focus to it.
    pub clicks: bool,
}

/// What a screen has.
#[derive(Clone, Copy, Debug, PartialEq, Eq)]
pub struct ScreenPlan {
    /// The width in pixels: 1..=4096.
    pub width: u32,
    /// The height in pixels: 1..=4096.
    pub height: u32,
    /// Whether the topmost rows are the status bar. It has as many as a text is high, and leaves a
    /// row below.
    pub bar: bool,
    /// How labels and the status bar are drawn. A dot is 1 to 8 pixels wide and high.
    pub lettering: Lettering,
}

/// The configuration of this screen with these seats, 1 to 64 of them; a server of it is opened
/// with the screen's lettering. At a seat waits a label, `.00` to `.3f`, until a client brings
/// another. The scripts are named `-`.
///
/// # Errors
///
/// `Screen`, `Seats`, `Donation` and `Layer`, the first of them that applies, and else `NoMemory`
/// where memory runs out.
pub fn plan(alloc: Global, screen: &ScreenPlan, seats: &[SeatPlan]) -> Result<Config, PlanError>
    ensures planned { refused_plan screen.now seats.now ≡ None
        → MatchResult result
        (λ config. lettered screen.now.lettering config ≡ planned screen.now seats.now)
        (λ why. why ≡ PlanError.NoMemory) }
    ensures refused { (why : PlanError) → refused_plan screen.now seats.now ≡ Some why
        → result ≡ Err why }
    ensures configured { IfOk result
        (λ config. IsConfiguration (lettered screen.now.lettering config)) }
{
    if let Some(why) = refusal(screen, seats) {
        return Err(why);
    }
    match configuration(alloc, screen, seats) {
        Ok(config) => Ok(config),
        Err(NoMemory) => Err(PlanError::NoMemory),
    }
}

/// Why a plan is refused, if it is.
fn refusal(screen: &ScreenPlan, seats: &[SeatPlan]) -> Option<PlanError>
    ensures { result ≡ refused_plan screen.now seats.now }
{
    if !is_screen(screen) {
        Some(PlanError::Screen)
    } else if !is_count(seats.len()) {
        Some(PlanError::Seats)
    } else if !have_donations(seats) {
        Some(PlanError::Donation)
    } else if !have_layers(seats) {
        Some(PlanError::Layer)
    } else {
        None
    }
}

/// Whether a screen may have this size and draw its texts so, and the status bar fits where there
/// is one.
fn is_screen(screen: &ScreenPlan) -> bool
    ensures { result ≡ is_screen screen.now }
{
    is_within(1, MOST_WIDTH, screen.width)
        && is_within(1, MOST_HEIGHT, screen.height)
        && is_within(1, MOST_SCALE, screen.lettering.scale)
        && (!screen.bar || text_size(screen.lettering, 1).1 < screen.height)
}

/// Whether there may be so many seats.
fn is_count(seats: usize) -> bool
    ensures { result ≡ is_within 1 most_sessions seats }
{
    1 <= seats && seats <= MOST_SESSIONS
}

/// Whether a number is from the first to the last.
fn is_within(first: u32, last: u32, number: u32) -> bool
    ensures { result ≡ is_within first last number }
{
    first <= number && number <= last
}

/// Whether each donation is in its range.
fn have_donations(seats: &[SeatPlan]) -> bool
    ensures { result ≡ list_all (λ s. is_within least_units most_units s.donation) seats.now }
{
    seats
        .iter()
        .all(|seat| is_within(LEAST_UNITS, MOST_UNITS, seat.donation))
}

/// Whether each layer is in its range.
fn have_layers(seats: &[SeatPlan]) -> bool
    ensures { result ≡ list_all (λ s. nat_le s.layer 7) seats.now }
{
    seats.iter().all(|seat| seat.layer <= 7)
}

/// The configuration of a plan that is not refused.
fn configuration(alloc: Global, screen: &ScreenPlan, seats: &[SeatPlan]) -> Result<Config, NoMemory>
    requires { refused_plan screen.now seats.now ≡ None }
    ensures { IfOk result
        (λ config. lettered screen.now.lettering config ≡ planned screen.now seats.now) }
{
    Ok(Config {
        width: screen.width,
        height: screen.height,
        bar: screen.bar,
        input: no_script(alloc)?,
        clients: members(alloc, seats)?,
    })
}

/// A client of the configuration for each seat, in order.
fn members(alloc: Global, seats: &[SeatPlan]) -> Result<Vec<Member>, NoMemory>
    requires { length seats.now ≤ most_sessions }
    ensures { IfOk result
        (λ v. v.items ≡ map (λ p. waiting_member p.0 p.1) (enumerate_from 0 seats.now)) }
{
    let mut members = Vec::new(alloc);
    'seats: for seat in 0..seats.len() {
        members.push(member(alloc, seat, seats[seat])?)?;
    }
    Ok(members)
}

/// A seat as a client of the configuration.
fn member(alloc: Global, seat: usize, plan: SeatPlan) -> Result<Member, NoMemory>
    requires { seat < most_sessions }
    ensures { IfOk result (λ m. m ≡ waiting_member seat plan) }
{
    Ok(Member {
        label: waiting_label(seat),
        donation: plan.donation,
        script: no_script(alloc)?,
        layer: plan.layer,
        clicks: plan.clicks,
    })
}

/// The name of a script that is not there.
fn no_script(alloc: Global) -> Result<FileName, NoMemory>
    ensures { IfOk result (λ name. name ≡ no_script) }
{
    FileName::new(alloc, b"-")
}

/// The label that waits at a free seat.
fn waiting_label(seat: usize) -> Label
    requires { seat < most_sessions }
    ensures { result ≡ waiting_label seat }
{
    let number = seat as u8;
    match Label::new(&[b'.', hex_digit(number / 16), hex_digit(number % 16)]) {
        Some(label) => label,
        None => unreachable!(),
    }
}

/// A digit to the base 16, of a number below 16.
fn hex_digit(number: u8) -> u8
    requires { number < 16 }
    ensures { result ≡ hex_digit number }
{
    if number < 10 {
        b'0' + number
    } else {
        b'a' - 10 + number
    }
}
