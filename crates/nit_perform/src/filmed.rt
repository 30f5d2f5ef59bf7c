//! A put of a picture that is filmed.

ghost use Rattle.std.specs.Prelude.{◌≡◌, ◌≢◌, ◌≤◌, ◌*◌, ◌++◌, OnOk, false, length, true, ℕ};
ghost use Rattle.nit_perform.specs.Terms.{AfterPut, cropped_bytes, final_name, next_record};
ghost use Rattle.nit_perform.specs.Terms.{shot_name, with_last};

use crate::film::Film;
use nit_rounds::{SHOT_NAME_BYTES, shot_name_into};
use nit_store::{PutError, Store};

/// Adds a picture to the film, and then puts it. Where memory runs out for the film, it is not put.
pub fn put_filmed<S: Store>(
    store: &mut S,
    film: &mut Film,
    name: &str,
    bytes: &[u8],
) -> Result<(), PutError>
    requires { 3 * (film.old.capture.width * film.old.capture.height) ≤ length bytes.now }
    ensures put { AfterPut (S.shown store.old) name.now bytes.now (S.shown store.new) result }
    ensures capture { OnOk result (film.new.capture
        ≡ with_last film.old.capture (cropped_bytes film.old.capture bytes.now)) }
    ensures film { OnOk result (film.new.bytes.items ≡ film.old.bytes.items
        ++ next_record film.old.capture (cropped_bytes film.old.capture bytes.now)) }
    ensures screen { film.new.capture ≡ with_last film.old.capture film.new.capture.before }
{
    if film.add(bytes).is_err() {
        return Err(PutError::NoMemory);
    }
    store.put(name, bytes)
}

/// Whether a file of this name may be a picture of a run. All files of shots are, and the last
/// picture.
pub fn is_picture_name(name: &str) -> bool
    ensures shots { (n : ℕ) → name.now ≡ shot_name n → result ≡ true }
    ensures last { name.now ≡ final_name → result ≡ true }
{
    matches!(name.as_bytes(), [b's', ..] | [b'f', ..])
}

/// Whether this is the name of the picture of the shot of this number.
pub fn is_shot_name(name: &str, shot: u32) -> bool
    ensures named { result ≡ true → name.now ≡ shot_name shot }
    ensures other { result ≡ false → name.now ≢ shot_name shot }
{
    let mut wanted = [0; SHOT_NAME_BYTES];
    let end = shot_name_into(&mut wanted, shot);
    name.as_bytes() == &wanted[..end]
}
