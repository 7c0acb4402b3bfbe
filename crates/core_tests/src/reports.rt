use crate::bench::{Case, RAID5, play};
use crate::moves::{Ask, ENOSPC, Move, READ, RW, UNREACHABLE};

// What each shows, the file, and the moves.
const CASES: &[Case] = &[
    (
        "a writer alone tells that a drive is lost",
        RAID5,
        &[],
        &[
            (
                Move::Asks(0, 1, Ask::Get(0, RW, 0, 8)),
                "answer c0 1 0 0 0 layout",
            ),
            (
                Move::Asks(0, 2, Ask::Return(&[(1, 65537, UNREACHABLE)])),
                "reported 1; answer c0 2 0 1 0",
            ),
            (
                Move::Asks(0, 3, Ask::Get(0, RW, 0, 8)),
                "answer c0 3 0 0 0 layout",
            ),
            (
                Move::Asks(0, 4, Ask::Return(&[(1, 65537, UNREACHABLE)])),
                "reported 1; answer c0 4 0 1 0",
            ),
            (
                Move::Asks(0, 5, Ask::Get(0, RW, 0, 8)),
                "answer c0 5 0 0 0 layout",
            ),
            (
                Move::Asks(0, 6, Ask::Return(&[(2, 65538, UNREACHABLE)])),
                "settag d0; settag d2; answer c0 6 0 0 0",
            ),
        ],
    ),
    (
        "of another error, or of two that are too many, no loss is taken",
        RAID5,
        &[],
        &[
            (
                Move::Asks(0, 1, Ask::Get(0, RW, 0, 8)),
                "answer c0 1 0 0 0 layout",
            ),
            (
                Move::Asks(
                    0,
                    2,
                    Ask::Return(&[(1, 65537, UNREACHABLE), (1, 65537, ENOSPC)]),
                ),
                "settag d0; settag d1; settag d2; answer c0 2 0 0 0",
            ),
        ],
    ),
    (
        "nor where the code brings fewer back",
        RAID5,
        &[],
        &[
            (
                Move::Asks(0, 1, Ask::Get(0, RW, 0, 8)),
                "answer c0 1 0 0 0 layout",
            ),
            (
                Move::Asks(
                    0,
                    2,
                    Ask::Return(&[(2, 65538, UNREACHABLE), (1, 65537, UNREACHABLE)]),
                ),
                "settag d0; settag d1; settag d2; answer c0 2 0 0 0",
            ),
        ],
    ),
    (
        "nor of an object that the file never had there",
        RAID5,
        &[],
        &[
            (
                Move::Asks(0, 1, Ask::Get(0, RW, 0, 8)),
                "answer c0 1 0 0 0 layout",
            ),
            (
                Move::Asks(0, 2, Ask::Return(&[(1, 65536, UNREACHABLE)])),
                "settag d0; settag d1; settag d2; answer c0 2 0 0 0",
            ),
        ],
    ),
    (
        "nor from a reader",
        RAID5,
        &[],
        &[
            (
                Move::Asks(0, 1, Ask::Get(0, READ, 0, 8)),
                "answer c0 1 0 0 0 layout",
            ),
            (
                Move::Asks(0, 2, Ask::Return(&[(1, 65537, UNREACHABLE)])),
                "settag d0; settag d1; settag d2; answer c0 2 0 0 0",
            ),
        ],
    ),
    (
        "nor beside another grant",
        RAID5,
        &[],
        &[
            (
                Move::Asks(0, 1, Ask::Get(0, RW, 0, 8)),
                "answer c0 1 0 0 0 layout",
            ),
            (Move::Asks(0, 2, Ask::Commit(Some(7))), "answer c0 2 0 0 8"),
            (Move::Asks(0, 3, Ask::Return(&[])), "answer c0 3 0 0 8"),
            (
                Move::Asks(0, 4, Ask::Get(0, RW, 0, 8)),
                "answer c0 4 0 0 8 layout",
            ),
            (
                Move::Asks(1, 1, Ask::Get(0, READ, 8, 8)),
                "answer c1 1 0 0 8 layout",
            ),
            (
                Move::Asks(0, 5, Ask::Return(&[(1, 65537, UNREACHABLE)])),
                "settag d0; settag d1; settag d2; answer c0 5 0 0 8",
            ),
        ],
    ),
    (
        "of a client without a grant nothing is taken",
        RAID5,
        &[],
        &[
            (
                Move::Asks(0, 1, Ask::Return(&[(1, 65537, UNREACHABLE)])),
                "answer c0 1 0 0 0",
            ),
            (
                Move::Asks(0, 2, Ask::Get(0, RW, 0, 8)),
                "answer c0 2 0 0 0 layout",
            ),
        ],
    ),
];

#[test]
fn a_report_is_a_loss_or_starts_a_fence(rt: HostRuntime) {
    play(&rt, rt.alloc(), CASES);
}
