//! The files of a generated run, which are put before it.

ghost use Rattle.std.specs.Prelude.{◌≡◌, map};
ghost use Rattle.nit_perform.specs.Terms.{PutsAll, client_text, generated, generated_files};
ghost use Rattle.nit_perform.specs.Terms.{put_state_of_run, range_with_len, script_files};
ghost use Rattle.nit_perform.specs.Terms.{unrefused};

use crate::puts::put_next;
use crate::ran::PutFault;
use nit_report::Files;
use nit_run::Output;
use nit_store::Store;
use nit_store::laws::puts_go_on;

/// How many clients a generated run has.
const CLIENTS: u32 = 8;

/// Puts the files of the generated run of this number, in order, until a put is refused. Gives that
/// put, if there is one.
pub fn put_files<S: Store>(store: &mut S, number: u32, files: &Files) -> Option<PutFault>
    requires { files.now ≡ generated number }
    ensures { PutsAll (generated_files number) (unrefused (S.shown store.old))
        (put_state_of_run (S.shown store.new) result) }
{
    puts_go_on();
    let fault = put_next(store, None, Output::GeneratedConfig, &files.config);
    let fault = put_scripts(store, fault, number, &files.clients);
    put_next(store, fault, Output::GeneratedInput, &files.input)
}

/// Puts the scripts of the clients, in order, unless a put was refused before, and until one is
/// refused. Gives that put, if there is one.
fn put_scripts<S: Store>(
    store: &mut S,
    fault: Option<PutFault>,
    number: u32,
    texts: &[Vec<u8>],
) -> Option<PutFault>
    requires { map (λ v. v.items) texts.now ≡ map (client_text number) (range_with_len 0 8) }
    ensures { PutsAll (script_files number 8) (put_state_of_run (S.shown store.old) fault)
        (put_state_of_run (S.shown store.new) result) }
{
    puts_go_on();
    let mut refused = fault;
    'clients: for client in 0..CLIENTS {
        let file = Output::GeneratedScript(client);
        refused = put_next(store, refused, file, &texts[client as usize]);
    }
    refused
}
