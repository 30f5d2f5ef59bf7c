//! How a command comes to its end, and the line that is said.

pub mod finish;
pub mod say;
