use crate::bench::{Case, RAID5, SPENT, play};
use crate::moves::{ANY, Ask, EIO, Move, READ, RW, UNREACHABLE};
use layout_ops::OrderKind;

// What each shows, the file, and the moves.
const CASES: &[Case] = &[
    (
        "no file, then a bad iomode, then a bad range",
        RAID5,
        &[],
        &[
            (
                Move::Asks(0, 1, Ask::Get(9, ANY, 0, 0)),
                "answer c0 1 2 0 0",
            ),
            (
                Move::Asks(0, 2, Ask::Get(0, ANY, 0, 0)),
                "answer c0 2 10049 0 0",
            ),
            (
                Move::Asks(0, 3, Ask::Get(0, READ, 0, 0)),
                "answer c0 3 22 0 0",
            ),
            (
                Move::Asks(0, 4, Ask::Get(0, RW, 16_777_215, 2)),
                "answer c0 4 22 0 0",
            ),
            (
                Move::Asks(0, 5, Ask::Get(0, RW, 16_777_215, 1)),
                "answer c0 5 0 0 0 layout",
            ),
        ],
    ),
    (
        "these come before a job that waits",
        RAID5,
        &[],
        &[
            (
                Move::Orders(OrderKind::Revoke, 0),
                "settag d0; settag d1; settag d2; order 0",
            ),
            (Move::Performs(0, b""), ""),
            (
                Move::Asks(0, 1, Ask::Get(9, ANY, 0, 0)),
                "answer c0 1 2 0 0",
            ),
            (
                Move::Asks(0, 2, Ask::Get(0, ANY, 0, 0)),
                "answer c0 2 10049 0 0",
            ),
            (
                Move::Asks(0, 3, Ask::Get(0, RW, 0, 0)),
                "answer c0 3 22 0 0",
            ),
            (
                Move::Asks(0, 4, Ask::Get(0, RW, 0, 8)),
                "answer c0 4 10061 1 0",
            ),
            (Move::Performs(1, b""), ""),
            (Move::Performs(2, b""), "fenced 2; repaired 0 0"),
            (
                Move::Asks(0, 5, Ask::Get(0, RW, 0, 8)),
                "answer c0 5 0 0 0 layout",
            ),
        ],
    ),
    (
        "a client that asks again is fenced first",
        RAID5,
        &[],
        &[
            (
                Move::Asks(0, 1, Ask::Get(0, READ, 0, 8)),
                "answer c0 1 0 0 0 layout",
            ),
            (
                Move::Asks(0, 2, Ask::Get(0, READ, 0, 8)),
                "settag d0; settag d1; settag d2; answer c0 2 10061 0 0",
            ),
        ],
    ),
    (
        "a holder is recalled until its grant has expired, and then fenced",
        RAID5,
        &[],
        &[
            (
                Move::Asks(0, 1, Ask::Get(0, RW, 0, 8)),
                "answer c0 1 0 0 0 layout",
            ),
            (Move::Waits(90), ""),
            (
                Move::Asks(1, 1, Ask::Get(0, READ, 0, 8)),
                "recall c0; answer c1 1 10058 0 0",
            ),
            (Move::Waits(91), ""),
            (
                Move::Asks(1, 2, Ask::Get(0, READ, 0, 8)),
                "settag d0; settag d1; settag d2; answer c1 2 10061 0 0",
            ),
        ],
    ),
    (
        "the oldest holder is named, and each is recalled",
        RAID5,
        &[],
        &[
            (
                Move::Asks(2, 1, Ask::Get(0, READ, 0, 8)),
                "answer c2 1 0 0 0 layout",
            ),
            (
                Move::Asks(1, 1, Ask::Get(0, READ, 0, 8)),
                "answer c1 1 0 0 0 layout",
            ),
            (
                Move::Asks(0, 1, Ask::Get(0, RW, 0, 8)),
                "recall c2; recall c1; answer c0 1 10058 2 0",
            ),
        ],
    ),
    (
        "a writer needs what the code brings back, whoever holds a grant",
        RAID5,
        &[],
        &[
            (Move::Orders(OrderKind::Declare, 0), "order 0"),
            (
                Move::Asks(0, 1, Ask::Get(0, RW, 0, 8)),
                "answer c0 1 0 0 0 layout",
            ),
            (Move::Asks(0, 2, Ask::Return(&[])), "answer c0 2 0 0 0"),
            (Move::Orders(OrderKind::Declare, 2), "order 0"),
            (
                Move::Asks(0, 3, Ask::Get(0, RW, 0, 8)),
                "answer c0 3 10059 0 0",
            ),
            (
                Move::Asks(0, 4, Ask::Get(0, READ, 0, 8)),
                "answer c0 4 0 0 0 layout",
            ),
            (
                Move::Asks(1, 1, Ask::Get(0, RW, 0, 8)),
                "answer c1 1 10059 0 0",
            ),
        ],
    ),
    (
        "a fence that waits for nobody is over at once, and the later rows answer",
        RAID5,
        &[],
        &[
            (
                Move::Asks(0, 1, Ask::Get(0, RW, 0, 8)),
                "answer c0 1 0 0 0 layout",
            ),
            (Move::Orders(OrderKind::Declare, 0), "order 0"),
            (Move::Orders(OrderKind::Declare, 1), "order 0"),
            (Move::Orders(OrderKind::Declare, 2), "order 0"),
            (
                Move::Asks(0, 2, Ask::Get(0, READ, 0, 8)),
                "fenced 2; repaired 1 1; answer c0 2 0 0 0 layout",
            ),
            (
                Move::Asks(0, 3, Ask::Get(0, RW, 0, 8)),
                "fenced 3; repaired 0 0; answer c0 3 10059 0 0",
            ),
        ],
    ),
    (
        "with the greatest tag nobody is fenced",
        SPENT,
        &[],
        &[
            (
                Move::Asks(0, 1, Ask::Get(0, RW, 0, 8)),
                "answer c0 1 0 0 0 layout",
            ),
            (
                Move::Asks(0, 2, Ask::Get(0, RW, 0, 8)),
                "spent; answer c0 2 10059 4294967295 0",
            ),
            (
                Move::Asks(1, 1, Ask::Get(0, RW, 0, 8)),
                "recall c0; answer c1 1 10058 0 0",
            ),
            (Move::Orders(OrderKind::Revoke, 0), "spent; order 2"),
            (Move::Orders(OrderKind::Rebuild, 0), "spent; order 2"),
            (Move::Orders(OrderKind::Audit, 0), "spent; order 2"),
            (
                Move::Asks(0, 3, Ask::Return(&[(1, 65537, EIO)])),
                "spent; answer c0 3 10059 4294967295 0",
            ),
            (
                Move::Asks(1, 2, Ask::Get(0, RW, 0, 8)),
                "recall c0; answer c1 2 10058 0 0",
            ),
            (
                Move::Asks(0, 4, Ask::Return(&[(1, 65537, UNREACHABLE)])),
                "reported 1; answer c0 4 0 1 0",
            ),
            (
                Move::Asks(1, 3, Ask::Get(0, RW, 0, 8)),
                "answer c1 3 0 0 0 layout",
            ),
        ],
    ),
];

#[test]
fn the_first_row_of_layoutget_that_applies_answers(rt: HostRuntime) {
    play(&rt, rt.alloc(), CASES);
}
