//! What clients ask, what the server answers, what the user's devices do, and the journal's
//! entries.
//!
//! Codes of keys and buttons are those of Linux's input codes: 0..=767, of which 272..=279 are the
//! buttons. A wheel turns by -127..=127. The pointer moves to any place that a `u16` names, and
//! stops at the screen's edges. A [`Routed`] has its deliveries in `a` first, then in `b`, then in
//! `c`.
//!
//! Codes and turns in range are a condition of the two calls that serve a device event:
//! `Focus::input` of nit_focus and `Scene::input` of nit_scene. What these deliver is in range, and
//! its places are on the screen; the lines of an input script are in range too. All other calls
//! take any value: a [`Queue`], a journal and a book keep any event or entry, and a text is written
//! of any. A journal's text is promised to be read back only where its entries are in range.
//!
//! All types but [`Queue`] are plain values. A queue keeps the events that wait for a session; it
//! takes memory once, in [`Queue::new`].
//!
//! The tests are in `nit_tests`: `parts`.
#![tactic(auto)]

mod call;
mod device;
mod entry;
mod event;
mod queue;
mod text;

pub use call::{Call, Reply};
pub use device::{Device, Mode};
pub use entry::Entry;
pub use event::{Delivery, Event, Item, Routed, Status};
pub use queue::Queue;
pub use text::Text;
