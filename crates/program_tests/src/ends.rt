// What sources, sinks, links and ports in memory are made of.
use osd_lists::{ByteLists, Bytes, Numbers};
use port_loop::{Happening, MemPorts, Planned};
use std::alloc::Global;

/// The bytes, or none where memory is short.
pub fn copied(alloc: Global, bytes: &[u8]) -> Bytes {
    match Bytes::copied(alloc, bytes) {
        Ok(bytes) => bytes,
        Err(_) => Bytes::new(alloc),
    }
}

/// The numbers, or none where memory is short.
pub fn numbers(alloc: Global, numbers: &[u32]) -> Numbers {
    match Numbers::copied(alloc, numbers) {
        Ok(numbers) => numbers,
        Err(_) => Numbers::new(alloc),
    }
}

/// The lists of these members.
pub fn lists(alloc: Global, members: &[&[u8]]) -> ByteLists {
    let mut lists = ByteLists::new(alloc);
    for member in members {
        let _ = lists.push(copied(alloc, member));
    }
    lists
}

/// What happens next on the connections of a drive, by their numbers from 0.
#[derive(Clone, Copy)]
pub enum Next {
    Opens,
    Brings(u64, &'static [u8]),
    Drains(u64),
    Closes(u64),
}

/// The same, planned.
pub fn planned(alloc: Global, next: Next) -> Planned {
    match next {
        Next::Opens => Planned::Opens,
        Next::Brings(port, bytes) => Planned::Brings {
            port,
            bytes: copied(alloc, bytes),
        },
        Next::Drains(port) => Planned::Drains { port },
        Next::Closes(port) => Planned::Closes { port },
    }
}

/// What was put on a connection of ports.
pub fn put_on(alloc: Global, ports: &MemPorts, port: u64) -> Bytes {
    let mut all = Bytes::new(alloc);
    if let Some(happened) = ports.happened() {
        for happening in happened {
            match happening {
                Happening::Went { port: p, bytes, .. } if *p == port => {
                    let _ = all.extend_from_slice(bytes.as_slice());
                }
                _ => {}
            }
        }
    }
    all
}
