// Parts of ranges, and plans of reads and writes, on four components with a rotating parity, in units of one byte. Bytes 3, 4
// and 5 of the file are at positions 3, 0 and 1, and their parity at position 2, all at offset 1.
use data_map::{DataMap, RAID_5, RawMap};
use osd_lists::{Bytes, Numbers};
use std::alloc::Global;
use stripe_plan::{Column, Columns, Out, Pieces, Writes, plan_gather, plan_read, plan_scatter};

const RAW: RawMap = RawMap {
    comps: 4,
    unit: 1,
    width: 0,
    depth: 0,
    mirrors: 0,
    algorithm: RAID_5,
};

// A position or a component, an offset and a length.
type Place = (u32, u64, u64);

// The parts of bytes 3 and 4, in the order of the file.
fn has_parts(alloc: Global, map: &DataMap) -> bool {
    let wanted: [Place; 2] = [(3, 1, 1), (0, 1, 1)];
    match map.extents(alloc, 3, 2) {
        Ok(parts) => {
            parts.len() == wanted.len()
                && parts.as_slice().iter().zip(wanted.iter()).all(|(part, place)| (
                    part.position,
                    part.offset,
                    part.length,
                ) == *place)
        }
        Err(_) => false,
    }
}

// Whether a plan asks for these.
fn are_at(pieces: &Pieces, wanted: &[Place]) -> bool {
    pieces.len() == wanted.len()
        && pieces.as_slice().iter().zip(wanted.iter()).all(|(piece, place)| (
            piece.component,
            piece.offset,
            piece.length,
        ) == *place)
}

fn out(alloc: Global, components: &[u32]) -> Out {
    let components = match Numbers::copied(alloc, components) {
        Ok(components) => components,
        Err(_) => Numbers::new(alloc),
    };
    Out { components }
}

// What a read of bytes 3 and 4 asks for if these components are out.
fn reads(alloc: Global, map: &DataMap, lost: &[u32], wanted: &[Place]) -> bool {
    match plan_read(alloc, map, 3, 2, &out(alloc, lost)) {
        Ok(pieces) => are_at(&pieces, wanted),
        Err(_) => false,
    }
}

// What a write of byte 3 reads first.
fn gathers(alloc: Global, map: &DataMap, wanted: &[Place]) -> bool {
    match plan_gather(alloc, map, 3, 1, &out(alloc, &[])) {
        Ok(pieces) => are_at(&pieces, wanted),
        Err(_) => false,
    }
}

// A byte of a position.
fn push(alloc: Global, columns: &mut Columns, position: u32, byte: &[u8]) -> bool {
    match Bytes::copied(alloc, byte) {
        Ok(bytes) => columns
            .push(Column {
                position,
                offset: 1,
                bytes,
            })
            .is_ok(),
        Err(_) => false,
    }
}

// Whether the writes are those of the parity and of the byte.
fn are_written(writes: &Writes) -> bool {
    let [parity, byte] = writes.as_slice() else {
        return false;
    };
    (parity.component, parity.offset, parity.bytes.as_slice()) == (2, 1, b"p")
        && (byte.component, byte.offset, byte.bytes.as_slice()) == (3, 1, b"b")
}

// What a write of byte 3 writes of these columns.
fn scatters(alloc: Global, map: &DataMap) -> bool {
    let mut columns = Columns::new(alloc);
    if !push(alloc, &mut columns, 2, b"p") || !push(alloc, &mut columns, 3, b"b") {
        return false;
    }
    match plan_scatter(alloc, map, 3, 1, &columns, &out(alloc, &[])) {
        Ok(writes) => are_written(&writes),
        Err(_) => false,
    }
}

fn plans(alloc: Global, map: &DataMap) -> bool {
    reads(alloc, map, &[], &[(0, 1, 1), (3, 1, 1)])
        && reads(alloc, map, &[3], &[(0, 1, 1), (1, 1, 1), (2, 1, 1)])
        && gathers(alloc, map, &[(2, 1, 1), (3, 1, 1)])
        && scatters(alloc, map)
}

#[test]
fn ranges_and_plans_name_their_places(rt: HostRuntime) {
    let alloc = rt.alloc();
    match DataMap::check(RAW) {
        Ok(map) => assert!(rt; has_parts(alloc, &map) && plans(alloc, &map)),
        Err(_) => assert!(rt; false),
    }
}
