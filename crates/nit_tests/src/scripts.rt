//! Tests of what is read and planned before a run, and of what is told after it: scripts that are
//! printed again, plans, the words that a script draws while others read them, the configuration of
//! a generated run, and the texts of journals.
//!
//! They also run calls that take the most memory of a run, where there is enough.

mod generated_tests;
mod memory_tests;
mod pixel_tests;
mod plan_tests;
mod print_tests;
mod text_tests;
