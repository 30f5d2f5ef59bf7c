//! Tests of all crates but the top call's, in three folders: of the parts that know nothing of
//! scripts, configurations and journals (`parts`); of what is read and planned before a run and
//! told after it (`scripts`); and of scenes and rooms (`scenes`). Those of the top call are in
//! `nit_top_tests`.
//!
//! Each expected value was worked out apart from the code, and never comes from it, but for two
//! that the folders name. A file opens with its tests and cases, and what fails is told by a title
//! or by the case itself. The crate has nothing but tests.
#![tactic(auto)]

#[cfg(test)]
mod checks;
#[cfg(test)]
mod parts;
#[cfg(test)]
mod scenes;
#[cfg(test)]
mod scripts;
#[cfg(test)]
mod words;
