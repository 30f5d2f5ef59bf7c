//! The configuration of a generated run.

use crate::checks::same;
use nit_config::{Config, Member, read_config};
use nit_report::{gen_config, generate};
use std::alloc::Global;
use std::process::Abort;

/// The text of the configuration is read as its value.
#[test]
fn configuration(rt: HostRuntime) {
    let read = read_generated(&rt, rt.alloc());
    let made = gen_config(rt.alloc()).expect(&rt, "a configuration");
    same(&rt, "made", &(made.clients.len(), made.width), &(8, 320));
    assert_same(&rt, &read, &made);
}

fn assert_same(rt: &impl Abort, read: &Config, made: &Config) {
    same(rt, "configuration", &screen(read), &screen(made));
    for (client, member) in made.clients.iter().enumerate() {
        let found = read.clients.get(client).expect(rt, "the client is there");
        same(rt, "client", &told(found), &told(member));
    }
}

fn read_generated(rt: &impl Abort, alloc: Global) -> Config {
    let files = generate(alloc, 7).expect(rt, "files");
    read_config(alloc, &files.config).expect(rt, "a configuration")
}

/// The screen of this configuration, the script of the user, and how many clients there are.
fn screen(config: &Config) -> (u32, u32, bool, &str, usize) {
    let input = config.input.as_str();
    let clients = config.clients.len();
    (config.width, config.height, config.bar, input, clients)
}

/// What a client is told to be: its label, its script, its donation, its layer, and whether a click
/// on it moves the focus.
type Told<'a> = (&'a [u8], &'a str, u32, u32, bool);

fn told(member: &Member) -> Told<'_> {
    (
        member.label.as_bytes(),
        member.script.as_str(),
        member.donation,
        member.layer,
        member.clicks,
    )
}
