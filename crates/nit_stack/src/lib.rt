//! The one ordered stack of all views of all sessions, front first.
//!
//! At each pixel below the status bar the front-most view that covers it is shown. A view shows the
//! words of its session's buffer, moved by its offset.
//!
//! A [`Stack`] is seen as the list of its views with their slots, front first, beside each
//! session's buffer size and layer, the screen's size, the number of bar rows and the number of
//! slots. Each change is one change of that list: a view goes in front of or behind its layer,
//! directly in front of another, out, or is changed in its place. No two views have one slot or one
//! name, and along the list the layers never fall.
//!
//! [`Stack::owner`] and [`Stack::source`] answer for a pixel what the list says. All room is taken
//! by [`Stack::new`]; no other call takes memory.
//!
//! A [`ViewRef`] is the number of a slot, which is used again once its view is gone. What is done
//! to the view of a slot is the same as what is done to the view of that session and handle:
//! [`slots_and_names`] and [`seats_and_views`] say so. A view's place is how many views stand in
//! front of it ([`Stack::place_of`]).
//!
//! The tests are in `nit_tests`: `parts`, and by whole runs in `nit_top_tests`.
#![tactic(auto)]

mod laws;
mod order;
mod showing;
mod stack;
mod view;

pub use laws::{
    names_after, owners_by_slot, seats_and_views, slots_after, slots_and_names, views_at_places,
};
pub use showing::shown_index;
pub use stack::Stack;
pub use view::{Piece, Source, View, ViewRef};
