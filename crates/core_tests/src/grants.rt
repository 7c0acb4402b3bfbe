// The grants of all files in one table, which no server keeps so.
use grant_table::{Grant, GrantErr, Grants};
use std::alloc::Global;

// A grant's number and client, whether it writes and extends, its first stripe and the one behind its last.
type Row = (u32, u32, bool, bool, u64, u64);

// A grant on a file.
fn grant(file: u32, row: Row) -> Grant {
    let (number, client, rw, extending, first, end) = row;
    Grant {
        number,
        client,
        file,
        rw,
        extending,
        first,
        end,
        expiry: 90,
    }
}

// The file of a grant that is added, the grant, and why it is refused.
const ADDED: &[(u32, Row, Option<GrantErr>)] = &[
    (0, (1, 0, false, false, 0, 4), None),
    (0, (2, 1, false, false, 2, 6), None),
    (
        0,
        (3, 2, true, false, 3, 5),
        Some(GrantErr::Conflict { holder: 0 }),
    ),
    (
        0,
        (3, 2, true, false, 4, 5),
        Some(GrantErr::Conflict { holder: 1 }),
    ),
    (0, (3, 1, true, false, 6, 7), Some(GrantErr::Twice)),
    (0, (3, 2, true, false, 6, 7), None),
    (7, (4, 2, true, true, 0, 9), None),
];

// The number of a grant that is taken out, and the grant.
const REMOVED: &[(u32, Option<Row>)] = &[
    (5, None),
    (2, Some((2, 1, false, false, 2, 6))),
    (2, None),
];

// Files, and the grants that are left on them.
const LEFT: &[(u32, &[Row])] = &[
    (0, &[(1, 0, false, false, 0, 4), (3, 2, true, false, 6, 7)]),
    (7, &[(4, 2, true, true, 0, 9)]),
    (1, &[]),
];

fn adds(grants: &mut Grants, file: u32, row: Row, want: Option<GrantErr>) -> bool {
    match grants.add(grant(file, row)) {
        Ok(()) => want.is_none(),
        Err(e) => want == Some(e),
    }
}

fn removes(grants: &mut Grants, number: u32, want: Option<Row>) -> bool {
    match (grants.remove(number), want) {
        (Ok(found), Some(row)) => found == grant(0, row),
        (Err(_), None) => true,
        _ => false,
    }
}

fn are(found: &[Grant], file: u32, rows: &[Row]) -> bool {
    if found.len() != rows.len() {
        return false;
    }
    for i in 0..rows.len() {
        if found[i] != grant(file, rows[i]) {
            return false;
        }
    }
    true
}

fn has(grants: &Grants, file: u32, rows: &[Row]) -> bool {
    match grants.of_file(file) {
        Ok(found) => are(found.as_slice(), file, rows),
        Err(_) => false,
    }
}

fn takes_and_gives(grants: &mut Grants) -> bool {
    for (file, row, want) in ADDED.iter() {
        if !adds(grants, *file, *row, *want) {
            return false;
        }
    }
    for (number, want) in REMOVED.iter() {
        if !removes(grants, *number, *want) {
            return false;
        }
    }
    for (file, rows) in LEFT.iter() {
        if !has(grants, *file, rows) {
            return false;
        }
    }
    true
}

fn empty_table_does(alloc: Global) -> bool {
    let mut grants = Grants::new(alloc);
    takes_and_gives(&mut grants)
}

#[test]
fn a_table_takes_grants_that_fit(rt: HostRuntime) {
    assert!(rt; empty_table_does(rt.alloc()));
}
