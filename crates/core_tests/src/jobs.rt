use crate::bench::{Case, MIRRORS, RAID_PQ, RAID5, play};
use crate::moves::{Ask, Move, RW, UNREACHABLE};
use crate::starts::{FENCES, FETCHES, FILLS, GATHERS, MIRRORS_FETCHES, STORES, TARGETS, WRITTEN};
use layout_ops::OrderKind;
use server_rules::{EXISTS, NO_SPACE, OTHER_TAG};

// A verdict that no rule of the server names.
const EXPIRED: u16 = 3;

// What each shows, the file, and the moves. The rows are in four tables, since one of all of them is more than a check of a
// single function takes.
const FENCES_AND_REPAIRS: &[Case] = &[
    (
        "a fence waits for each present component, for the next tag or a missing one",
        RAID5,
        &[FENCES],
        &[
            (Move::Orders(OrderKind::Revoke, 0), "busy 0; order 1"),
            (Move::Orders(OrderKind::Revoke, 9), "order 3"),
            (Move::Performs(0, b""), ""),
            (Move::Orders(OrderKind::Audit, 0), "busy 1; order 1"),
            (Move::Refuses(1, OTHER_TAG, 3), ""),
            (Move::Refuses(1, NO_SPACE, 0), ""),
            (Move::Refuses(1, OTHER_TAG, 2), ""),
            (
                Move::Performs(2, b""),
                "fenced 2; read d0 0 4; read d1 0 4; read d2 0 4",
            ),
        ],
    ),
    (
        "what differs from the codeword of the first replicas is written",
        RAID5,
        &[FENCES, FETCHES],
        &[
            (Move::Performs(0, b"abcd"), ""),
            (Move::Performs(1, b"efgh"), ""),
            (Move::Performs(2, b"\x04\x05\x04\x0c"), "write d2 1 \x04"),
            (Move::Refuses(2, EXPIRED, 0), ""),
            (Move::Performs(2, b""), "repaired 1 0"),
            (
                Move::Asks(1, 1, Ask::Get(0, RW, 0, 8)),
                "answer c1 1 0 0 0 layout",
            ),
        ],
    ),
    (
        "both parities of a torn stripe are written where they differ",
        RAID_PQ,
        &[],
        &[
            (
                Move::Asks(0, 1, Ask::Get(0, RW, 0, 8)),
                "answer c0 1 0 0 0 layout",
            ),
            (
                Move::Orders(OrderKind::Revoke, 0),
                "settag d0; settag d1; settag d2; settag d3; order 0",
            ),
            (Move::Performs(0, b""), ""),
            (Move::Performs(1, b""), ""),
            (Move::Performs(2, b""), ""),
            (
                Move::Performs(3, b""),
                "fenced 2; read d0 0 4; read d1 0 4; read d2 0 4; read d3 0 4",
            ),
            (Move::Performs(0, b"abcd"), ""),
            (Move::Performs(1, b"\x01\x02\x03\x04"), ""),
            (Move::Performs(2, b"``x`"), ""),
            (Move::Performs(3, b"cXel"), "write d2 2 `; write d3 1 f"),
            (Move::Performs(2, b""), ""),
            (Move::Performs(3, b""), "repaired 1 0"),
        ],
    ),
    (
        "the first replica that is there decides",
        MIRRORS,
        &[],
        &[
            (Move::Orders(OrderKind::Declare, 0), "order 0"),
            (
                Move::Asks(0, 1, Ask::Get(0, RW, 0, 8)),
                "answer c0 1 0 0 0 layout",
            ),
            (
                Move::Orders(OrderKind::Revoke, 0),
                "settag d1; settag d2; settag d3; order 0",
            ),
            (Move::Performs(1, b""), ""),
            (Move::Performs(2, b""), ""),
            (
                Move::Performs(3, b""),
                "fenced 2; read d1 0 4; read d2 0 4; read d3 0 4",
            ),
            (Move::Performs(1, b"abxy"), ""),
            (Move::Performs(2, b"efgh"), ""),
            (Move::Performs(3, b"eYgh"), "write d3 1 f"),
            (Move::Performs(3, b""), "repaired 1 0"),
        ],
    ),
];

const LOSSES: &[Case] = &[
    (
        "a component without parity or a replica is lost with its drive",
        MIRRORS,
        &[WRITTEN],
        &[
            (Move::Orders(OrderKind::Declare, 0), "order 0"),
            (Move::Orders(OrderKind::Declare, 1), "order 0"),
            (
                Move::Orders(OrderKind::Rebuild, 0),
                "settag d2; settag d3; order 0",
            ),
            (Move::Performs(2, b""), ""),
            (Move::Performs(3, b""), "fenced 2; repaired 0 0; create d4"),
            (Move::Performs(4, b""), "lost 0 0; create d4"),
            (Move::Performs(4, b""), "lost 1 0"),
        ],
    ),
    (
        "two components are made from one unit and Q",
        RAID_PQ,
        &[WRITTEN],
        &[
            (Move::Orders(OrderKind::Declare, 0), "order 0"),
            (Move::Orders(OrderKind::Declare, 2), "order 0"),
            (
                Move::Orders(OrderKind::Rebuild, 0),
                "settag d1; settag d3; order 0",
            ),
            (Move::Performs(1, b""), ""),
            (Move::Performs(3, b""), "fenced 2; repaired 0 0; create d4"),
            (Move::Performs(4, b""), "read d1 0 4; read d3 0 4"),
            (Move::Performs(1, b"\x01\x02\x03\x04"), ""),
            (Move::Performs(3, b"cfel"), "write d4 0 abcd"),
            (Move::Performs(4, b""), "rebuilt 0 4; create d5"),
            (
                Move::Performs(5, b""),
                "read d4 0 4; read d1 0 4; read d3 0 4",
            ),
            (Move::Performs(4, b"abcd"), ""),
            (Move::Performs(1, b"\x01\x02\x03\x04"), ""),
            (Move::Performs(3, b"cfel"), "write d5 0 ````"),
            (Move::Performs(5, b""), "rebuilt 2 5"),
        ],
    ),
    (
        "a repair without space leaves the stripe short",
        RAID5,
        &[FENCES, FETCHES, STORES],
        &[(Move::Refuses(2, NO_SPACE, 0), "nospace 2; repaired 1 1")],
    ),
    (
        "or goes on with the other replica",
        MIRRORS,
        &[MIRRORS_FETCHES],
        &[
            (Move::Performs(0, b"abcd"), ""),
            (Move::Performs(1, b"abxy"), ""),
            (Move::Performs(2, b"efgh"), ""),
            (Move::Performs(3, b"efgh"), "write d1 2 cd"),
            (
                Move::Refuses(1, NO_SPACE, 0),
                "nospace 1; read d0 0 4; read d2 0 4; read d3 0 4",
            ),
            (Move::Performs(0, b"abcd"), ""),
            (Move::Performs(2, b"efgh"), ""),
            (Move::Performs(3, b"efgh"), "repaired 1 0"),
        ],
    ),
];

const REBUILDS: &[Case] = &[
    (
        "a component is made from the others",
        RAID5,
        &[WRITTEN, TARGETS, GATHERS, FILLS],
        &[
            (Move::Performs(3, b""), "rebuilt 1 3"),
            (
                Move::Orders(OrderKind::Rebuild, 0),
                "settag d0; settag d3; settag d2; order 0",
            ),
        ],
    ),
    (
        "bytes that are 0 are not written",
        RAID5,
        &[WRITTEN, TARGETS, GATHERS],
        &[
            (Move::Performs(0, b"abcd"), ""),
            (Move::Performs(2, b"acbd"), "write d3 1 \x01\x01"),
            (Move::Performs(3, b""), "rebuilt 1 3"),
        ],
    ),
    (
        "nor is a piece of them",
        RAID5,
        &[WRITTEN, TARGETS, GATHERS],
        &[
            (Move::Performs(0, b"abcd"), ""),
            (Move::Performs(2, b"abcd"), "rebuilt 1 3"),
        ],
    ),
    (
        "or from the other replica",
        MIRRORS,
        &[WRITTEN],
        &[
            (Move::Orders(OrderKind::Declare, 2), "order 0"),
            (
                Move::Orders(OrderKind::Rebuild, 0),
                "settag d0; settag d1; settag d3; order 0",
            ),
            (Move::Performs(0, b""), ""),
            (Move::Performs(1, b""), ""),
            (Move::Performs(3, b""), "fenced 2; repaired 0 0; create d4"),
            (Move::Refuses(4, EXISTS, 0), "read d3 0 4"),
            (Move::Performs(3, b"efgh"), "write d4 0 efgh"),
            (Move::Performs(4, b""), "rebuilt 2 4"),
        ],
    ),
    (
        "what the code does not bring back is lost",
        RAID5,
        &[WRITTEN],
        &[
            (Move::Orders(OrderKind::Declare, 0), "order 0"),
            (Move::Orders(OrderKind::Declare, 1), "order 0"),
            (Move::Orders(OrderKind::Rebuild, 0), "settag d2; order 0"),
            (Move::Performs(2, b""), "fenced 2; repaired 0 0; create d3"),
            (Move::Performs(3, b""), "lost 0 0 1; create d3"),
            (Move::Performs(3, b""), "lost 1 0 1"),
        ],
    ),
];

const ENDS: &[Case] = &[
    (
        "a target without space is left",
        RAID5,
        &[WRITTEN, TARGETS, GATHERS, FILLS],
        &[(Move::Refuses(3, NO_SPACE, 0), "nospace 1")],
    ),
    (
        "no drive is taken on which a component last stood",
        RAID5,
        &[],
        &[
            (Move::Orders(OrderKind::Declare, 3), "order 0"),
            (Move::Orders(OrderKind::Declare, 4), "order 0"),
            (Move::Orders(OrderKind::Declare, 5), "order 0"),
            (
                Move::Asks(0, 1, Ask::Get(0, RW, 0, 8)),
                "answer c0 1 0 0 0 layout",
            ),
            (
                Move::Asks(0, 2, Ask::Return(&[(1, 65537, UNREACHABLE)])),
                "reported 1; answer c0 2 0 1 0",
            ),
            (
                Move::Orders(OrderKind::Rebuild, 0),
                "settag d0; settag d2; order 0",
            ),
            (Move::Performs(0, b""), ""),
            (Move::Performs(2, b""), "fenced 2; repaired 0 0; nodrive 1"),
        ],
    ),
    (
        "an audit counts bad stripes and lengths",
        RAID5,
        &[],
        &[
            (
                Move::Asks(0, 1, Ask::Get(0, RW, 0, 16)),
                "answer c0 1 0 0 0 layout",
            ),
            (Move::Asks(0, 2, Ask::Return(&[])), "answer c0 2 0 0 0"),
            (
                Move::Orders(OrderKind::Audit, 0),
                "settag d0; settag d1; settag d2; order 0",
            ),
            (Move::Performs(0, b""), ""),
            (Move::Performs(1, b""), ""),
            (
                Move::Performs(2, b""),
                "fenced 2; repaired 0 0; getattr d0; getattr d1; getattr d2",
            ),
            (Move::Performs(0, b"\0\0\0\0\0\0\0\x08"), ""),
            (Move::Performs(1, b"\0\0\0\0\0\0\0\x08"), ""),
            (
                Move::Performs(2, b"\x08"),
                "read d0 0 4; read d1 0 4; read d2 0 4",
            ),
            (Move::Performs(0, b"abcd"), ""),
            (Move::Performs(1, b"efgh"), ""),
            (
                Move::Performs(2, b"\x04\x04\x04\x0c"),
                "read d0 4 4; read d1 4 4; read d2 4 4",
            ),
            (Move::Performs(0, b"abcd"), ""),
            (Move::Performs(1, b"abcd"), ""),
            (Move::Performs(2, b"abcd"), "audit 2 0 1 16"),
        ],
    ),
];

#[test]
fn fences_and_repairs_go_on_by_the_replies_of_drives(rt: HostRuntime) {
    play(&rt, rt.alloc(), FENCES_AND_REPAIRS);
}

#[test]
fn components_are_lost_or_brought_back(rt: HostRuntime) {
    play(&rt, rt.alloc(), LOSSES);
}

#[test]
fn missing_components_are_made_anew(rt: HostRuntime) {
    play(&rt, rt.alloc(), REBUILDS);
}

#[test]
fn jobs_end_by_the_replies_of_drives(rt: HostRuntime) {
    play(&rt, rt.alloc(), ENDS);
}
