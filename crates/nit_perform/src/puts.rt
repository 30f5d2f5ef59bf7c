//! How a file is put behind others.

ghost use Rattle.std.specs.Prelude.{◌≡◌, ℕ, List, IfOk};
ghost use Rattle.nit_perform.specs.Terms.{HasTextName, PutsNext, output_name, put_state_of_run};

use crate::ran::PutFault;
use nit_rect::NoMemory;
use nit_run::{OUTPUT_NAME_BYTES, Output};
use nit_store::{PutError, Store, name_of};

/// Puts a file under its name, unless a put was refused before. Gives the put that was refused, if
/// there is one.
pub fn put_next<S: Store>(
    store: &mut S,
    fault: Option<PutFault>,
    file: Output,
    bytes: &[u8],
) -> Option<PutFault>
    requires { HasTextName file }
    ensures { PutsNext (output_name file, bytes.now)
        (put_state_of_run (S.shown store.old) fault) (put_state_of_run (S.shown store.new) result) }
{
    if fault.is_some() {
        return fault;
    }
    let mut name = [0; OUTPUT_NAME_BYTES];
    let end = file.name_into(&mut name);
    match store.put(name_of(&name[..end]), bytes) {
        Ok(()) => None,
        Err(error) => Some(PutFault { file, error }),
    }
}

/// Puts a file that was made under its name, unless a put was refused before. Gives the put that
/// was refused, if there is one. A file for which memory ran out is not put, and counts as refused.
pub fn put_made<S: Store>(
    store: &mut S,
    fault: Option<PutFault>,
    file: Output,
    made: Result<Vec<u8>, NoMemory>,
) -> Option<PutFault>
    requires { HasTextName file }
    ensures { (bytes : List ℕ) → IfOk made (λ v. v.items ≡ bytes)
        → PutsNext (output_name file, bytes)
        (put_state_of_run (S.shown store.old) fault) (put_state_of_run (S.shown store.new) result) }
{
    if fault.is_some() {
        return fault;
    }
    match made {
        Ok(bytes) => put_next(store, fault, file, &bytes),
        Err(_) => Some(PutFault {
            file,
            error: PutError::NoMemory,
        }),
    }
}
