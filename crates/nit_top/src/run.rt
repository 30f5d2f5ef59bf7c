//! The work of each command that runs a setup: by turns, alone, on threads, with clips, with a
//! film, or with another run within it.

pub mod capture;
pub mod clips;
pub mod inner;
pub mod nested;
pub mod perform;
