//! Tests of scenes, of a room over a lock, and of what stands beside a run: how many words are
//! loaded at each entry, and that the frame that a scene keeps is the one that is made anew; the
//! clipboard through a hall; frames of a server that are shown by a client of another; and looks
//! at a host.
//!
//! A kept frame is compared with the last picture of its scene, for which all is loaded and shown
//! again; and along a worked run with the frame that is made of the raw words.

mod acting;
mod actors;
mod count_tests;
mod frame_sources_tests;
mod frame_tests;
mod glasses;
mod hall_opening;
mod hall_tests;
mod host_tests;
mod load_tests;
mod nest_tests;
mod stage;
