use crate::bench::{Case, RAID5, play};
use crate::moves::{Ask, Move, READ, RW};

// What each shows, the file, and the moves.
const CASES: &[Case] = &[
    (
        "a request has the number behind the last one",
        RAID5,
        &[],
        &[
            (
                Move::Asks(0, 2, Ask::Get(0, READ, 0, 8)),
                "answer c0 2 10063 1 0",
            ),
            (
                Move::Asks(0, 0, Ask::Get(0, READ, 0, 8)),
                "answer c0 0 10063 1 0",
            ),
            (
                Move::Asks(0, 1, Ask::Get(0, RW, 0, 8)),
                "answer c0 1 0 0 0 layout",
            ),
            (Move::Asks(0, 3, Ask::Return(&[])), "answer c0 3 10063 2 0"),
            (
                Move::Asks(1, 1, Ask::Get(0, RW, 0, 8)),
                "recall c0; answer c1 1 10058 0 0",
            ),
        ],
    ),
    (
        "one with the last number gets the kept answer and does nothing",
        RAID5,
        &[],
        &[
            (
                Move::Asks(0, 1, Ask::Get(0, RW, 0, 8)),
                "answer c0 1 0 0 0 layout",
            ),
            (
                Move::Asks(0, 1, Ask::Get(0, RW, 0, 8)),
                "answer c0 1 0 0 0 layout",
            ),
            (
                Move::Asks(0, 1, Ask::Return(&[])),
                "answer c0 1 0 0 0 layout",
            ),
            (
                Move::Asks(1, 1, Ask::Get(0, RW, 0, 8)),
                "recall c0; answer c1 1 10058 0 0",
            ),
            (Move::Asks(0, 2, Ask::Return(&[])), "answer c0 2 0 0 0"),
            (
                Move::Asks(1, 1, Ask::Get(0, RW, 0, 8)),
                "answer c1 1 10058 0 0",
            ),
            (
                Move::Asks(1, 2, Ask::Get(0, RW, 0, 8)),
                "answer c1 2 0 0 0 layout",
            ),
        ],
    ),
    (
        "there are sixteen clients",
        RAID5,
        &[],
        &[
            (Move::Asks(16, 1, Ask::Get(0, RW, 0, 8)), ""),
            (
                Move::Asks(15, 1, Ask::Get(0, RW, 0, 8)),
                "answer c15 1 0 0 0 layout",
            ),
        ],
    ),
    (
        "a commit makes a file longer, never shorter, and inside its grant",
        RAID5,
        &[],
        &[
            (
                Move::Asks(0, 1, Ask::Commit(Some(3))),
                "answer c0 1 10050 0 0",
            ),
            (
                Move::Asks(0, 2, Ask::Get(0, RW, 0, 8)),
                "answer c0 2 0 0 0 layout",
            ),
            (Move::Asks(0, 3, Ask::Commit(None)), "answer c0 3 22 0 0"),
            (Move::Asks(0, 4, Ask::Commit(Some(8))), "answer c0 4 22 0 0"),
            (Move::Asks(0, 5, Ask::Commit(Some(7))), "answer c0 5 0 0 8"),
            (Move::Asks(0, 6, Ask::Commit(Some(3))), "answer c0 6 0 0 8"),
            (Move::Asks(0, 7, Ask::Return(&[])), "answer c0 7 0 0 8"),
            (
                Move::Asks(0, 8, Ask::Get(0, RW, 0, 8)),
                "answer c0 8 0 0 8 layout",
            ),
            (Move::Asks(0, 9, Ask::Commit(Some(3))), "answer c0 9 22 0 8"),
        ],
    ),
];

#[test]
fn requests_are_carried_out_once_and_in_order(rt: HostRuntime) {
    play(&rt, rt.alloc(), CASES);
}
