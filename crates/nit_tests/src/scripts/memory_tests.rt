//! Calls that may answer want of memory, for the most that they are asked for, where there is
//! enough.

use crate::checks::same;
use nit_clip::Clip;
use nit_journal::Journal;
use nit_slots::{Slots, Table};
use nit_stack::Stack;
use std::alloc::Global;
use std::process::Abort;

#[test]
fn greatest_of_all(rt: HostRuntime) {
    let taken = taken_of_all(&rt, rt.alloc());
    let last = last_of_none(&rt, rt.alloc());
    let size = greatest_size(&rt, rt.alloc());
    let count = entries_of_none(&rt, rt.alloc());
    let calls = calls_of_none(&rt, rt.alloc());
    let found = (taken, last, size, count, calls);
    same(
        &rt,
        "slots, table, stack, journal, clip list",
        &found,
        &(0, None, (1024, 768), 0, 0),
    );
}

fn taken_of_all(rt: &impl Abort, alloc: Global) -> u32 {
    let slots = Slots::new(alloc, 1024).expect(rt, "slots");
    slots.taken()
}

fn last_of_none(rt: &impl Abort, alloc: Global) -> Option<u32> {
    let table = Table::new(alloc, 64).expect(rt, "a table");
    table.last()
}

fn greatest_size(rt: &impl Abort, alloc: Global) -> (u32, u32) {
    let stack = Stack::new(alloc, 1024, 768, 16, 1024).expect(rt, "a stack");
    stack.size()
}

fn entries_of_none(rt: &impl Abort, alloc: Global) -> usize {
    let journal = Journal::with_room(alloc, 1_114_113).expect(rt, "a journal");
    journal.entries().len()
}

fn calls_of_none(rt: &impl Abort, alloc: Global) -> usize {
    let clip = Clip::with_room(alloc, 1_048_576).expect(rt, "a clip list");
    clip.entries().len()
}
