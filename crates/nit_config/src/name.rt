ghost use Rattle.std.specs.Prelude.{◌≡◌, IsTrue, IfOk, string_bytes};
ghost use Rattle.nit_config.specs.Terms.{is_file_name};

use nit_rect::NoMemory;
use std::alloc::Global;
use std::marker::Model;

/// The name of a file: 1 to 255 bytes of printable ASCII, 0x20..=0x7E, seen as their list.
#[derive(Drop)]
pub struct FileName {
    text: String,
}

impl Model for FileName {
    ghost use Rattle.std.specs.Prelude.{ℕ, List, string_bytes};

    ghost Value = { List ℕ };

    ghost view = { λ n. string_bytes n.text };
}

impl FileName {
    /// This name.
    #[tactic(auto, using(crate::proofs::AcceptedTables::file_name_utf8))]
    pub fn new(alloc: Global, text: &[u8]) -> Result<FileName, NoMemory>
        requires { IsTrue (is_file_name text.now) }
        ensures { IfOk result (λ n. n ≡ text.now) }
    {
        Ok(FileName {
            text: String::from_utf8_lossy(alloc, text)?,
        })
    }

    /// The text.
    pub fn as_str(&self) -> &str
        ensures { result.now ≡ self.now }
    {
        self.text.as_str()
    }
}
