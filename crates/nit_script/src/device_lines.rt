//! What the user does, each line read from its first word to its last.

ghost use Rattle.nit_script.specs.Terms.{Gives, code_field, device_at, motion_at, pointer_field};
ghost use Rattle.nit_script.specs.Terms.{press_at, release_at, wheel_at, wheel_field};

use crate::bytes::take_word;
use crate::fields::{integer_field, natural_field};
use nit_events::Device;

/// The highest code of a key or button.
const MAX_CODE: u32 = 767;

/// The furthest that the wheel turns back.
const LEAST_TURN: i32 = -127;

/// The furthest that the wheel turns on.
const MOST_TURN: i32 = 127;

/// The highest column or row of the pointer.
const MAX_PLACE: u32 = 65_535;

/// The device event in front, and what follows it.
#[tactic(auto, unfolding(crate::specs::InputReaders::device_at))]
pub fn take_device(bytes: &[u8]) -> Option<(Device, &[u8])>
    ensures { Gives (λ x. (x.0, x.1.now)) result (device_at bytes.now) }
{
    if let Some(found) = press(bytes) {
        return Some(found);
    }
    if let Some(found) = release(bytes) {
        return Some(found);
    }
    if let Some(found) = motion(bytes) {
        return Some(found);
    }
    wheel(bytes)
}

#[tactic(auto, unfolding(crate::specs::InputReaders::press_at))]
fn press(bytes: &[u8]) -> Option<(Device, &[u8])>
    ensures { Gives (λ x. (x.0, x.1.now)) result (press_at bytes.now) }
{
    let rest = take_word(bytes, b"press")?;
    let (code, rest) = code_field(rest)?;
    Some((Device::Press(code), rest))
}

#[tactic(auto, unfolding(crate::specs::InputReaders::release_at))]
fn release(bytes: &[u8]) -> Option<(Device, &[u8])>
    ensures { Gives (λ x. (x.0, x.1.now)) result (release_at bytes.now) }
{
    let rest = take_word(bytes, b"release")?;
    let (code, rest) = code_field(rest)?;
    Some((Device::Release(code), rest))
}

#[tactic(auto, unfolding(crate::specs::InputReaders::motion_at))]
fn motion(bytes: &[u8]) -> Option<(Device, &[u8])>
    ensures { Gives (λ x. (x.0, x.1.now)) result (motion_at bytes.now) }
{
    let rest = take_word(bytes, b"motion")?;
    let (x, rest) = place_field(rest)?;
    let (y, rest) = place_field(rest)?;
    Some((Device::Motion(x, y), rest))
}

#[tactic(auto, unfolding(crate::specs::InputReaders::wheel_at))]
fn wheel(bytes: &[u8]) -> Option<(Device, &[u8])>
    ensures { Gives (λ x. (x.0, x.1.now)) result (wheel_at bytes.now) }
{
    let rest = take_word(bytes, b"wheel")?;
    let (turn, rest) = turn_field(rest)?;
    Some((Device::Wheel(turn), rest))
}

fn code_field(bytes: &[u8]) -> Option<(u16, &[u8])>
    ensures { Gives (λ x. (x.0, x.1.now)) result (code_field bytes.now) }
{
    let (code, rest) = natural_field(bytes)?;
    if code <= MAX_CODE {
        Some((code as u16, rest))
    } else {
        None
    }
}

fn place_field(bytes: &[u8]) -> Option<(u16, &[u8])>
    ensures { Gives (λ x. (x.0, x.1.now)) result (pointer_field bytes.now) }
{
    let (place, rest) = natural_field(bytes)?;
    if place <= MAX_PLACE {
        Some((place as u16, rest))
    } else {
        None
    }
}

fn turn_field(bytes: &[u8]) -> Option<(i8, &[u8])>
    ensures { Gives (λ x. (x.0, x.1.now)) result (wheel_field bytes.now) }
{
    let (turn, rest) = integer_field(bytes)?;
    if LEAST_TURN <= turn && turn <= MOST_TURN {
        Some((turn as i8, rest))
    } else {
        None
    }
}
