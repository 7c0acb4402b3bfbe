use crate::bench::{Case, RAID5, UNMADE, play};
use crate::moves::{Ask, Move, RW};
use crate::starts::{CHECKS, FENCES, FETCHES, FILLS, GATHERS, LENGTHS, STORES, TARGETS, WRITTEN};
use layout_ops::OrderKind;
use server_rules::OLD_FORMAT;

// When a drive answers that the format is too old, the file, and the moves.
const CASES: &[Case] = &[
    (
        "to a CREATE",
        UNMADE,
        &[],
        &[
            (Move::Refuses(1, OLD_FORMAT, 0), "create d1 f2"),
            (Move::Performs(0, b""), ""),
            (Move::Performs(2, b""), ""),
            (Move::Performs(1, b""), "ready"),
            (
                Move::Asks(0, 1, Ask::Get(0, RW, 0, 8)),
                "answer c0 1 0 0 0 layout",
            ),
            (
                Move::Orders(OrderKind::Revoke, 0),
                "settag d0 f2; settag d1 f2; settag d2 f2; order 0",
            ),
        ],
    ),
    (
        "in a fence",
        RAID5,
        &[FENCES],
        &[
            (Move::Refuses(1, OLD_FORMAT, 0), "settag d1 f2"),
            (Move::PerformsFormer(1), ""),
            (Move::Performs(0, b""), ""),
            (Move::Performs(2, b""), ""),
            (
                Move::Performs(1, b""),
                "fenced 2; read d0 0 4 f2; read d1 0 4 f2; read d2 0 4 f2",
            ),
        ],
    ),
    (
        "while a piece is read",
        RAID5,
        &[FENCES, FETCHES],
        &[
            (Move::Refuses(0, OLD_FORMAT, 0), "read d0 0 4 f2"),
            (Move::Performs(1, b"efgh"), ""),
            (Move::Performs(2, b"\0\0\0\0"), ""),
            (Move::Performs(0, b"abcd"), "write d2 0 \x04\x04\x04\x0c f2"),
        ],
    ),
    (
        "while a piece is written",
        RAID5,
        &[FENCES, FETCHES, STORES],
        &[
            (
                Move::Refuses(2, OLD_FORMAT, 0),
                "write d2 0 \x04\x04\x04\x0c f2",
            ),
            (Move::Performs(2, b""), "repaired 1 0"),
        ],
    ),
    (
        "while a target is made",
        RAID5,
        &[WRITTEN, TARGETS],
        &[
            (Move::Refuses(3, OLD_FORMAT, 0), "create d3 f2"),
            (Move::Performs(3, b""), "read d0 0 4 f2; read d2 0 4 f2"),
        ],
    ),
    (
        "while sources are read",
        RAID5,
        &[WRITTEN, TARGETS, GATHERS],
        &[
            (Move::Refuses(0, OLD_FORMAT, 0), "read d0 0 4 f2"),
            (Move::Performs(2, b"\x04\x04\x04\x0c"), ""),
            (Move::Performs(0, b"abcd"), "write d3 0 efgh f2"),
        ],
    ),
    (
        "while a target is written",
        RAID5,
        &[WRITTEN, TARGETS, GATHERS, FILLS],
        &[
            (Move::Refuses(3, OLD_FORMAT, 0), "write d3 0 efgh f2"),
            (Move::Performs(3, b""), "rebuilt 1 3"),
        ],
    ),
    (
        "while lengths are read",
        RAID5,
        &[WRITTEN, LENGTHS],
        &[
            (Move::Refuses(1, OLD_FORMAT, 0), "getattr d1 f2"),
            (Move::Performs(0, b"\0\0\0\0\0\0\0\x08"), ""),
            (Move::Performs(2, b"\0\0\0\0\0\0\0\x08"), ""),
            (
                Move::Performs(1, b"\0\0\0\0\0\0\0\x08"),
                "read d0 0 4 f2; read d1 0 4 f2; read d2 0 4 f2",
            ),
        ],
    ),
    (
        "while stripes are read",
        RAID5,
        &[WRITTEN, LENGTHS, CHECKS],
        &[
            (Move::Refuses(1, OLD_FORMAT, 0), "read d1 0 4 f2"),
            (Move::Performs(0, b"abcd"), ""),
            (Move::Performs(2, b"\x04\x04\x04\x0c"), ""),
            (Move::Performs(1, b"efgh"), "audit 1 0 0 24"),
        ],
    ),
];

#[test]
fn a_drive_that_takes_format_2_alone_is_asked_again(rt: HostRuntime) {
    play(&rt, rt.alloc(), CASES);
}
