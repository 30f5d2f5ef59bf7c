//! Where a text stops being a table.

ghost use Rattle.std.specs.Prelude.{◌≡◌, ◌==◌, ◌≤◌, IfOk, count_by, length};
ghost use Rattle.nit_config.specs.Terms.{IsFaultLine, line_count};

use nit_rect::NoMemory;
use std::alloc::Global;

/// How many line feeds the bytes have.
fn line_feeds(bytes: &[u8]) -> usize
    ensures count { result ≡ count_by (λ c. c == 10) bytes.now }
    ensures most { result ≤ length bytes.now }
{
    bytes.iter().filter(|byte| **byte == b'\n').count()
}

/// The line, counted from 1, of the byte at an index of the text.
fn line_of(bytes: &[u8], index: usize) -> usize
    requires { index ≤ length bytes.now }
    ensures some { 1 ≤ result }
    ensures within { result ≤ line_count bytes.now }
{
    line_feeds(&bytes[..index]) + 1
}

/// The line, counted from 1, in which the bytes stop being a table to `toml`: where a text meets
/// [`ConfigError::Syntax`](crate::ConfigError::Syntax), a person looks there first. `None` exactly
/// where `toml` reads them as a table.
pub fn fault_line(alloc: Global, bytes: &[u8]) -> Result<Option<usize>, NoMemory>
    ensures { IfOk result (IsFaultLine bytes.now) }
{
    let fault = match toml::table_from_slice(alloc, bytes) {
        Ok(_) => return Ok(None),
        Err(fault) => fault,
    };
    match fault.span() {
        Some(span) => Ok(Some(line_of(bytes, span.start))),
        None => Err(NoMemory),
    }
}
