// Orders that are given by the calls of their names, at a server and at one with a journal.
use crate::bench::{File, UNMADE, drives, raw_map};
use crate::journals::says;
use crate::placing::FirstOnline;
use layout_ops::OrderKind;
use layout_server::{ServerCore, Step};
use osd_disk::{Disk, MemDisk};
use osd_lists::{Memory, Numbers};
use server_journal::{JournalErr, JournaledServer};
use std::alloc::Global;

// An order on file 0, whose objects aren't made yet, or on a drive, and what the server then notes and sends.
const ORDERS: &[(OrderKind, u32, &str)] = &[
    (OrderKind::Recall, 0, ""),
    (OrderKind::Revoke, 0, "busy 0"),
    (OrderKind::Rebuild, 0, "busy 0"),
    (OrderKind::Audit, 0, "busy 0"),
    (OrderKind::Declare, 0, ""),
    (OrderKind::Revoke, 0, "busy 1"),
];

// ---- a server

fn makes(core: &mut ServerCore, file: File, placer: &FirstOnline) -> bool {
    if !core.counters_low() || file.algorithm == 0 || file.algorithm > 4 {
        return false;
    }
    match core.create_file(0, raw_map(file), file.tag, placer) {
        Ok(_) => true,
        Err(_) => false,
    }
}

fn give(
    core: &mut ServerCore,
    kind: OrderKind,
    target: u32,
    placer: &FirstOnline,
) -> Result<Step, Memory> {
    if !core.counters_low() {
        return Err(Memory);
    }
    match kind {
        OrderKind::Recall => core.recall(target),
        OrderKind::Revoke => core.revoke(target, placer),
        OrderKind::Declare => core.declare(target, placer),
        OrderKind::Rebuild => core.rebuild(target, placer),
        OrderKind::Audit => core.audit(target, placer),
    }
}

// Whether it does what the orders want, one after the other.
fn obeys(alloc: Global, core: &mut ServerCore, placer: &FirstOnline) -> bool {
    for (kind, target, words) in ORDERS.iter() {
        let is_said = match give(core, *kind, *target, placer) {
            Ok(step) => says(alloc, &step, words),
            Err(_) => false,
        };
        if !is_said {
            return false;
        }
    }
    true
}

fn new_server_obeys(alloc: Global, placer: &FirstOnline) -> bool {
    let Ok(drives) = drives(alloc) else {
        return false;
    };
    match ServerCore::new(alloc, drives) {
        Ok(mut core) => makes(&mut core, UNMADE, placer) && obeys(alloc, &mut core, placer),
        Err(_) => false,
    }
}

#[test]
fn a_server_takes_orders_by_name(rt: HostRuntime) {
    let alloc = rt.alloc();
    assert!(rt; new_server_obeys(alloc, &FirstOnline { alloc }));
}

// ---- a server with a journal

fn makes_kept<D: Disk>(server: &mut JournaledServer<D>, file: File, placer: &FirstOnline) -> bool {
    if server.is_over() || !server.counters_low() || file.algorithm == 0 || file.algorithm > 4 {
        return false;
    }
    match server.create_file(0, raw_map(file), file.tag, placer) {
        Ok(_) => true,
        Err(_) => false,
    }
}

fn give_kept<D: Disk>(
    server: &mut JournaledServer<D>,
    kind: OrderKind,
    target: u32,
    placer: &FirstOnline,
) -> Result<Step, JournalErr> {
    if server.is_over() || !server.counters_low() {
        return Err(JournalErr::Memory);
    }
    match kind {
        OrderKind::Recall => server.recall(target),
        OrderKind::Revoke => server.revoke(target, placer),
        OrderKind::Declare => server.declare(target, placer),
        OrderKind::Rebuild => server.rebuild(target, placer),
        OrderKind::Audit => server.audit(target, placer),
    }
}

// Whether it does what the orders want, one after the other.
fn obeys_kept<D: Disk>(
    alloc: Global,
    server: &mut JournaledServer<D>,
    placer: &FirstOnline,
) -> bool {
    for (kind, target, words) in ORDERS.iter() {
        let is_said = match give_kept(server, *kind, *target, placer) {
            Ok(step) => says(alloc, &step, words),
            Err(_) => false,
        };
        if !is_said {
            return false;
        }
    }
    true
}

fn new_journal_obeys(alloc: Global, placer: &FirstOnline) -> bool {
    let Ok(drives) = drives(alloc) else {
        return false;
    };
    match JournaledServer::create(alloc, MemDisk::new(alloc, Numbers::new(alloc)), drives) {
        Ok(mut server) => {
            makes_kept(&mut server, UNMADE, placer) && obeys_kept(alloc, &mut server, placer)
        }
        Err(_) => false,
    }
}

#[test]
fn a_journal_takes_orders_by_name(rt: HostRuntime) {
    let alloc = rt.alloc();
    assert!(rt; new_journal_obeys(alloc, &FirstOnline { alloc }));
}
