use crate::bench::{Case, RAID5, SPENT, UNMADE, play};
use crate::moves::{Ask, Move, READ, RW};
use crate::starts::{FENCES, FETCHES, LENGTHS, WRITTEN};
use layout_ops::OrderKind;
use server_rules::EXISTS;

// What each shows, the file, and the moves.
const CASES: &[Case] = &[
    (
        "a grant that nothing ended is fenced, and one that was returned isn't",
        RAID5,
        &[],
        &[
            (
                Move::Asks(0, 1, Ask::Get(0, RW, 0, 8)),
                "answer c0 1 0 0 0 layout",
            ),
            (Move::Restarts, "settag d0; settag d1; settag d2"),
            (
                Move::Asks(1, 1, Ask::Get(0, READ, 0, 8)),
                "answer c1 1 10061 0 0",
            ),
            (Move::Performs(0, b""), ""),
            (Move::Performs(1, b""), ""),
            (
                Move::Performs(2, b""),
                "fenced 2; read d0 0 4; read d1 0 4; read d2 0 4",
            ),
            (Move::Performs(0, b"abcd"), ""),
            (Move::Performs(1, b"efgh"), ""),
            (Move::Performs(2, b"\x04\x04\x04\x0c"), "repaired 1 0"),
            (
                Move::Asks(1, 2, Ask::Get(0, READ, 0, 8)),
                "answer c1 2 0 0 0 layout",
            ),
            (Move::Asks(1, 3, Ask::Return(&[])), "answer c1 3 0 0 0"),
            (Move::Restarts, ""),
        ],
    ),
    (
        "a fence that was cut off goes to the same tag, and late replies to it count for nothing",
        RAID5,
        &[FENCES],
        &[
            (Move::Performs(0, b""), ""),
            (Move::Restarts, "settag d0; settag d1; settag d2"),
            (Move::PerformsFormer(1), ""),
            (Move::PerformsFormer(2), ""),
            (Move::Performs(1, b""), ""),
            (Move::Performs(2, b""), ""),
            (
                Move::Performs(0, b""),
                "fenced 2; read d0 0 4; read d1 0 4; read d2 0 4",
            ),
        ],
    ),
    (
        "a repair that was cut off begins again behind a fence to the next tag",
        RAID5,
        &[FENCES, FETCHES],
        &[
            (Move::Performs(0, b"abcd"), ""),
            (Move::Restarts, "settag d0; settag d1; settag d2"),
            (Move::Performs(0, b""), ""),
            (Move::Performs(1, b""), ""),
            (
                Move::Performs(2, b""),
                "fenced 3; read d0 0 4; read d1 0 4; read d2 0 4",
            ),
            (Move::Performs(0, b"abcd"), ""),
            (Move::Performs(1, b"efgh"), ""),
            (Move::Performs(2, b"\x04\x04\x04\x0c"), "repaired 1 0"),
        ],
    ),
    (
        "an audit is gone without a note",
        RAID5,
        &[WRITTEN, LENGTHS],
        &[
            (Move::Restarts, ""),
            (
                Move::Orders(OrderKind::Revoke, 0),
                "settag d0; settag d1; settag d2; order 0",
            ),
        ],
    ),
    (
        "a file that isn't ready is made again, and one that is there by now is taken",
        UNMADE,
        &[],
        &[
            (Move::Performs(0, b""), ""),
            (Move::Restarts, "create d0; create d1; create d2"),
            (Move::Refuses(0, EXISTS, 0), ""),
            (Move::PerformsFormer(1), ""),
            (Move::Refuses(1, EXISTS, 0), ""),
            (Move::Performs(2, b""), "ready"),
            (Move::Restarts, ""),
        ],
    ),
    (
        "a component that is missing isn't made again",
        UNMADE,
        &[],
        &[
            (Move::Orders(OrderKind::Declare, 1), "order 0"),
            (Move::Restarts, "create d0; create d2"),
            (Move::Performs(0, b""), ""),
            (Move::Performs(2, b""), "ready"),
        ],
    ),
    (
        "with the greatest tag the fence is refused, and so are layouts until the next opening",
        SPENT,
        &[],
        &[
            (
                Move::Asks(0, 1, Ask::Get(0, RW, 0, 8)),
                "answer c0 1 0 0 0 layout",
            ),
            (Move::Restarts, "spent"),
            (
                Move::Asks(1, 1, Ask::Get(0, READ, 0, 8)),
                "answer c1 1 10059 4294967295 0",
            ),
            (Move::Restarts, "spent"),
            (Move::Asks(0, 2, Ask::Return(&[])), "answer c0 2 0 0 0"),
            (
                Move::Asks(1, 2, Ask::Get(0, READ, 0, 8)),
                "answer c1 2 10059 4294967295 0",
            ),
            (Move::Restarts, ""),
            (
                Move::Asks(1, 3, Ask::Get(0, READ, 0, 8)),
                "answer c1 3 0 0 0 layout",
            ),
        ],
    ),
];

#[test]
fn a_server_that_is_opened_again_ends_what_a_crash_cut_off(rt: HostRuntime) {
    play(&rt, rt.alloc(), CASES);
}
