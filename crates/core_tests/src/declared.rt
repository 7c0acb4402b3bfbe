use crate::bench::{Case, MIRRORS, RAID_PQ, RAID5, UNMADE, play};
use crate::moves::Move;
use crate::starts::{
    CHECKS, FENCES, FETCHES, FILLS, GATHERS, LENGTHS, MIRRORS_FETCHES, STORES, TARGETS, WRITTEN,
};
use layout_ops::OrderKind;

// When a drive is declared, the file, and the moves.
const CASES: &[Case] = &[
    (
        "while its objects are made",
        UNMADE,
        &[],
        &[
            (Move::Orders(OrderKind::Declare, 9), "order 3"),
            (Move::Orders(OrderKind::Declare, 1), "order 0"),
            (Move::Performs(0, b""), ""),
            (Move::Performs(2, b""), "ready"),
        ],
    ),
    (
        "the last of them",
        UNMADE,
        &[],
        &[
            (Move::Performs(0, b""), ""),
            (Move::Performs(2, b""), ""),
            (Move::Orders(OrderKind::Declare, 1), "ready; order 0"),
        ],
    ),
    (
        "in a fence",
        RAID5,
        &[FENCES],
        &[
            (Move::Orders(OrderKind::Declare, 1), "order 0"),
            (Move::Performs(0, b""), ""),
            (Move::Performs(2, b""), "fenced 2; repaired 1 1"),
        ],
    ),
    (
        "the last that a fence waits for",
        RAID5,
        &[FENCES],
        &[
            (Move::Performs(0, b""), ""),
            (Move::Performs(2, b""), ""),
            (
                Move::Orders(OrderKind::Declare, 1),
                "fenced 2; repaired 1 1; order 0",
            ),
        ],
    ),
    (
        "while a piece is read",
        RAID5,
        &[FENCES, FETCHES],
        &[
            (Move::Performs(0, b"abcd"), ""),
            (Move::Orders(OrderKind::Declare, 1), "repaired 1 1; order 0"),
        ],
    ),
    (
        "while a piece is read and written, with another replica",
        MIRRORS,
        &[MIRRORS_FETCHES],
        &[
            (Move::Performs(0, b"abcd"), ""),
            (
                Move::Orders(OrderKind::Declare, 1),
                "read d0 0 4; read d2 0 4; read d3 0 4; order 0",
            ),
            (Move::PerformsFormer(2), ""),
            (Move::Performs(0, b"abcd"), ""),
            (Move::Performs(2, b"efgh"), ""),
            (Move::Performs(3, b"efgx"), "write d3 3 h"),
            (Move::Orders(OrderKind::Declare, 2), "order 0"),
            (Move::Performs(3, b""), "read d0 0 4; read d3 0 4"),
            (Move::Performs(0, b"abcd"), ""),
            (Move::Performs(3, b"efgh"), "repaired 1 0"),
        ],
    ),
    (
        "the one that is written",
        RAID5,
        &[FENCES, FETCHES, STORES],
        &[(Move::Orders(OrderKind::Declare, 2), "repaired 1 1; order 0")],
    ),
    (
        "another than the one that is written",
        RAID5,
        &[FENCES, FETCHES, STORES],
        &[
            (Move::Orders(OrderKind::Declare, 0), "order 0"),
            (Move::Performs(2, b""), "repaired 1 1"),
        ],
    ),
    (
        "the target while it is made",
        RAID5,
        &[WRITTEN, TARGETS],
        &[
            (Move::Orders(OrderKind::Declare, 4), "order 0"),
            (Move::Orders(OrderKind::Declare, 3), "nodrive 1; order 0"),
        ],
    ),
    (
        "a source while the target is made",
        RAID5,
        &[WRITTEN, TARGETS],
        &[
            (Move::Orders(OrderKind::Declare, 0), "order 0"),
            (Move::Performs(3, b""), "lost 1 0 1"),
        ],
    ),
    (
        "a source while it is read",
        RAID5,
        &[WRITTEN, TARGETS, GATHERS],
        &[(Move::Orders(OrderKind::Declare, 0), "lost 1 0 1; order 0")],
    ),
    (
        "the target while its sources are read",
        RAID5,
        &[WRITTEN, TARGETS, GATHERS],
        &[(Move::Orders(OrderKind::Declare, 3), "nodrive 1; order 0")],
    ),
    (
        "a source while the target is written",
        RAID5,
        &[WRITTEN, TARGETS, GATHERS, FILLS],
        &[(Move::Orders(OrderKind::Declare, 0), "lost 1 0 1; order 0")],
    ),
    (
        "the target while it is written",
        RAID5,
        &[WRITTEN, TARGETS, GATHERS, FILLS],
        &[(Move::Orders(OrderKind::Declare, 3), "nodrive 1; order 0")],
    ),
    (
        "a source beside which others are left",
        RAID_PQ,
        &[WRITTEN],
        &[
            (Move::Orders(OrderKind::Declare, 1), "order 0"),
            (
                Move::Orders(OrderKind::Rebuild, 0),
                "settag d0; settag d2; settag d3; order 0",
            ),
            (Move::Performs(0, b""), ""),
            (Move::Performs(2, b""), ""),
            (Move::Performs(3, b""), "fenced 2; repaired 0 0; create d4"),
            (
                Move::Performs(4, b""),
                "read d0 0 4; read d2 0 4; read d3 0 4",
            ),
            (
                Move::Orders(OrderKind::Declare, 0),
                "read d2 0 4; read d3 0 4; order 0",
            ),
            (Move::Performs(2, b"\x04\x04\x04\x0c"), ""),
            (Move::Performs(3, b"\xab\xae\xad\xb4"), "write d4 0 efgh"),
            (Move::Performs(4, b""), "rebuilt 1 4"),
        ],
    ),
    (
        "while lengths are read",
        RAID5,
        &[WRITTEN, LENGTHS],
        &[
            (Move::Performs(0, b"\0\0\0\0\0\0\0\x08"), ""),
            (Move::Orders(OrderKind::Declare, 1), "order 0"),
            (
                Move::Performs(2, b"\0\0\0\0\0\0\0\x08"),
                "read d0 0 4; read d2 0 4",
            ),
            (Move::Performs(0, b"abcd"), ""),
            (Move::Performs(2, b"abcd"), "audit 1 1 0 16"),
        ],
    ),
    (
        "while stripes are read",
        RAID5,
        &[WRITTEN, LENGTHS, CHECKS],
        &[
            (Move::Performs(0, b"abcd"), ""),
            (
                Move::Orders(OrderKind::Declare, 1),
                "read d0 0 4; read d2 0 4; order 0",
            ),
            (Move::Performs(0, b"abcd"), ""),
            (Move::Performs(2, b"abcd"), "audit 1 1 0 16"),
        ],
    ),
];

#[test]
fn a_declared_drive_is_waited_for_no_more(rt: HostRuntime) {
    play(&rt, rt.alloc(), CASES);
}
