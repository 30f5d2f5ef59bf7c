//! Names of files as text.

ghost use Rattle.std.specs.Prelude.{◌≡◌};
ghost use Rattle.nit_store.specs.Terms.{IsUtf8};

/// The name that these bytes spell, which are text.
pub fn name_of(bytes: &[u8]) -> &str
    requires { IsUtf8 bytes.now }
    ensures { result.now ≡ bytes.now }
{
    str::from_utf8(bytes).unwrap_or("")
}
