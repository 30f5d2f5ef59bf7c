//! Scripts that are read and printed again.

use crate::checks::same;
use nit_script::{parse_client, parse_input, print_client, print_input};
use std::alloc::Global;
use std::process::Abort;

#[test]
fn scripts(rt: HostRuntime) {
    assert_clients(&rt, rt.alloc(), &CLIENTS);
    assert_inputs(&rt, rt.alloc(), &INPUTS);
}

/// Titles, and scripts of clients.
const CLIENTS: [(&str, &str); 3] = [
    (
        "the red rectangle",
        "buffer 4 2\nfill 0 0 4 2 FF0000\nview\nplace 1 1 1 4 2\n",
    ),
    ("a client without lines", ""),
    (
        "each kind of a client's lines",
        "buffer 0 999999999\nview\nplace 7 -5 32768 0 1\noffset 1 -1 40000\nfront 1\nback 2\n\
     above 3 4\ntitle 1 =log 2\ntitle 1 =\ntitle 2 =<a > b>=\ndestroy 9\n\
     refresh -1 0 3 4\ntake\nupgrade 1\nclose\n\
     fill 1 2 3 4 00FF7A\ncheck 0 0 4 2 FF0000 00FF00\nphase\n",
    ),
];

/// Titles, and scripts of the user.
const INPUTS: [(&str, &str); 3] = [
    ("phases and a shot", "phase\nphase\nshot\nphase\n"),
    ("a user without lines", ""),
    (
        "each kind of the user's lines",
        "press 767\nrelease 0\nmotion 65535 0\nwheel -127\nwheel 127\nshot\nphase\n",
    ),
];

fn assert_clients(rt: &impl Abort, alloc: Global, rows: &[(&'static str, &'static str)]) {
    for (title, text) in rows {
        let again = client_again(rt, alloc, text);
        same(rt, title, &again.as_slice(), &text.as_bytes());
    }
}

fn assert_inputs(rt: &impl Abort, alloc: Global, rows: &[(&'static str, &'static str)]) {
    for (title, text) in rows {
        let again = input_again(rt, alloc, text);
        same(rt, title, &again.as_slice(), &text.as_bytes());
    }
}

fn client_again(rt: &impl Abort, alloc: Global, text: &str) -> Vec<u8> {
    let script = parse_client(alloc, text.as_bytes()).expect(rt, "a script");
    print_client(alloc, &script).expect(rt, "memory for a text")
}

fn input_again(rt: &impl Abort, alloc: Global, text: &str) -> Vec<u8> {
    let script = parse_input(alloc, text.as_bytes()).expect(rt, "a script");
    print_input(alloc, &script).expect(rt, "memory for a text")
}
