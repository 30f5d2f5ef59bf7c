//! Worked rows of the parts: what each of them answers by itself, and two or three together.
//!
//! The parts here are those that know nothing of scripts, configurations and journals: words,
//! glyphs, queues, labels, cuts, painting, a part of a picture, what changed of one and in which
//! areas, the book of entries, and films.
//!
//! Rows of shaded words are compared with the same words shaded one by one.

mod areas_tests;
mod damage_tests;
mod films;
mod ledger_tests;
mod look_tests;
mod overlay_tests;
mod paint_tests;
mod pictures;
mod place_tests;
mod play_tests;
mod queue_tests;
mod rect_and_stack_tests;
mod screens;
mod shade_tests;
mod stream_tests;
mod title_label_tests;
