// What many cases begin with, of a file with one stripe.
use crate::bench::Steps;
use crate::moves::{Ask, Move, RW};
use layout_ops::OrderKind;

/// A writer has a grant, and a fence begins.
pub const FENCES: Steps = &[
    (
        Move::Asks(0, 1, Ask::Get(0, RW, 0, 8)),
        "answer c0 1 0 0 0 layout",
    ),
    (
        Move::Orders(OrderKind::Revoke, 0),
        "settag d0; settag d1; settag d2; order 0",
    ),
];

/// Behind [`FENCES`]: the stripe is read for its repair.
pub const FETCHES: Steps = &[
    (Move::Performs(0, b""), ""),
    (Move::Performs(1, b""), ""),
    (
        Move::Performs(2, b""),
        "fenced 2; read d0 0 4; read d1 0 4; read d2 0 4",
    ),
];

/// Behind [`FETCHES`]: its parity is wrong, and is written.
pub const STORES: Steps = &[
    (Move::Performs(0, b"abcd"), ""),
    (Move::Performs(1, b"efgh"), ""),
    (
        Move::Performs(2, b"\0\0\0\0"),
        "write d2 0 \x04\x04\x04\x0c",
    ),
];

/// A writer's grant is given and returned.
pub const WRITTEN: Steps = &[
    (
        Move::Asks(0, 1, Ask::Get(0, RW, 0, 8)),
        "answer c0 1 0 0 0 layout",
    ),
    (Move::Asks(0, 2, Ask::Return(&[])), "answer c0 2 0 0 0"),
];

/// Behind [`WRITTEN`]: drive 1 is lost, and an object for component 1 is made on drive 3.
pub const TARGETS: Steps = &[
    (Move::Orders(OrderKind::Declare, 1), "order 0"),
    (
        Move::Orders(OrderKind::Rebuild, 0),
        "settag d0; settag d2; order 0",
    ),
    (Move::Performs(0, b""), ""),
    (Move::Performs(2, b""), "fenced 2; repaired 0 0; create d3"),
];

/// Behind [`TARGETS`]: the sources of the stripe are read.
pub const GATHERS: Steps = &[(Move::Performs(3, b""), "read d0 0 4; read d2 0 4")];

/// Behind [`GATHERS`]: what they make is written.
pub const FILLS: Steps = &[
    (Move::Performs(0, b"abcd"), ""),
    (Move::Performs(2, b"\x04\x04\x04\x0c"), "write d3 0 efgh"),
];

/// Behind [`WRITTEN`]: an audit asks for lengths.
pub const LENGTHS: Steps = &[
    (
        Move::Orders(OrderKind::Audit, 0),
        "settag d0; settag d1; settag d2; order 0",
    ),
    (Move::Performs(0, b""), ""),
    (Move::Performs(1, b""), ""),
    (
        Move::Performs(2, b""),
        "fenced 2; repaired 0 0; getattr d0; getattr d1; getattr d2",
    ),
];

/// Behind [`LENGTHS`]: the stripe is read.
pub const CHECKS: Steps = &[
    (Move::Performs(0, b"\0\0\0\0\0\0\0\x08"), ""),
    (Move::Performs(1, b"\0\0\0\0\0\0\0\x08"), ""),
    (
        Move::Performs(2, b"\0\0\0\0\0\0\0\x08"),
        "read d0 0 4; read d1 0 4; read d2 0 4",
    ),
];

/// A writer of mirrors has a grant, a fence begins, and the stripe is read.
pub const MIRRORS_FETCHES: Steps = &[
    (
        Move::Asks(0, 1, Ask::Get(0, RW, 0, 8)),
        "answer c0 1 0 0 0 layout",
    ),
    (
        Move::Orders(OrderKind::Revoke, 0),
        "settag d0; settag d1; settag d2; settag d3; order 0",
    ),
    (Move::Performs(0, b""), ""),
    (Move::Performs(1, b""), ""),
    (Move::Performs(2, b""), ""),
    (
        Move::Performs(3, b""),
        "fenced 2; read d0 0 4; read d1 0 4; read d2 0 4; read d3 0 4",
    ),
];
