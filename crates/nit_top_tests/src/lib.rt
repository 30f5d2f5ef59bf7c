//! Worked cases of the top call, and rounds of scripts: the status, the files, the line and the
//! journal of given words and files, and the order in which lines are done.
//!
//! Each expected value stands in a case as it was worked out by hand, and never comes from the
//! program. `cases` has the language in which cases are written, on one page, and runs them. What
//! fails is told by the title of its case.
//!
//! The tests are listed below in three groups: what is refused, what each command does, and what
//! clients and users do to a scene, by whole runs. A file opens with its tests and cases, and then
//! has the texts and the code that they use.
//!
//! The crate has nothing but tests; those of the crates below are in `nit_tests`.
#![tactic(auto)]

#[cfg(test)]
mod cases;
#[cfg(test)]
mod checks;

// What is refused: words, configurations, scripts and clip scripts; and calls of a store that fail.
#[cfg(test)]
mod clip_refused_tests;
#[cfg(test)]
mod config_refused_tests;
#[cfg(test)]
mod failing_store_tests;
#[cfg(test)]
mod script_refused_tests;
#[cfg(test)]
mod usage_tests;

// What each command does, by its name; and in which order lines are done.
#[cfg(test)]
mod audit_edited_tests;
#[cfg(test)]
mod audit_tests;
#[cfg(test)]
mod capture_tests;
#[cfg(test)]
mod clip_tests;
#[cfg(test)]
mod gen_tests;
#[cfg(test)]
mod nested_tests;
#[cfg(test)]
mod round_tests;
#[cfg(test)]
mod run_gate_tests;
#[cfg(test)]
mod run_largest_tests;
#[cfg(test)]
mod run_tests;
#[cfg(test)]
mod still_tests;
#[cfg(test)]
mod turns_tests;

// What clients and users do: replies, views, modes and the bar, deliveries, events that are taken.
#[cfg(test)]
mod input_tests;
#[cfg(test)]
mod mode_tests;
#[cfg(test)]
mod reply_tests;
#[cfg(test)]
mod take_tests;
#[cfg(test)]
mod view_tests;
