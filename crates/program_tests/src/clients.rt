// The command of a client, also by streams that are cut.
use crate::runs::{Case, NOTHING, play};
use crate::scripts::{
    AUDIT_BUSY, AUDIT_STARTED, COMMIT, COMMITTED, DATA, DECLARE_UNKNOWN, GET_MISORDERED, GET_READ,
    GET_WRITE, GRANTED_READ, GRANTED_WRITE, MISORDERED, ORDER_AUDIT, ORDER_DECLARE, OTHER_WRITTEN,
    READ, REPORT, REPORTED, RETURN, RETURN_READ, RETURNED, RETURNED_READ, WRITE, WRITTEN,
};

/// The words of a client that writes AB.
#[rattlefmt::skip]
pub const WRITES: &[&str] = &["client", "--number", "0", "--sequence", "1", "--call", "write f0 0 4142"];

#[rattlefmt::skip]
const AUDITS: &[&str] = &["client", "--number", "3", "--sequence", "7", "--call", "audit f0"];

/// The words of a client that reads them with its fourth request.
#[rattlefmt::skip]
pub const READS: &[&str] = &["client", "--number=0", "--call=read f0 0 2", "--sequence=4"];

const CALLS: &[Case] = &[
    Case {
        name: "a write is granted, done and committed, and the grant goes back",
        words: WRITES,
        asked: &[GRANTED_WRITE, WRITTEN, COMMITTED, RETURNED],
        sent: &[GET_WRITE, WRITE, COMMIT, RETURN],
        output: "o c0 write ok 2\nnext 4\n",
        ..NOTHING
    },
    Case {
        name: "a read",
        words: READS,
        asked: &[GRANTED_READ, DATA, RETURNED_READ],
        sent: &[GET_READ, READ, RETURN_READ],
        output: "o c0 read ok 4142\nnext 6\n",
        ..NOTHING
    },
    Case {
        name: "a request out of order is refused",
        words: &[
            "client",
            "--number",
            "0",
            "--sequence",
            "9",
            "--call",
            "read f0 0 2",
        ],
        asked: &[MISORDERED],
        sent: &[GET_MISORDERED],
        exit_code: 10,
        output: "o c0 read status 10063 6\nnext 10\n",
        ..NOTHING
    },
    Case {
        name: "a write of no byte asks nobody",
        words: &[
            "client",
            "--number",
            "0",
            "--sequence",
            "1",
            "--call",
            "write f0 0 -",
        ],
        output: "o c0 write ok 0\nnext 1\n",
        ..NOTHING
    },
    Case {
        name: "a range that passes a limit isn't taken",
        words: &[
            "client",
            "--number",
            "15",
            "--sequence",
            "2",
            "--call",
            "read f0 0 262145",
        ],
        exit_code: 10,
        output: "x c15 badrange\nnext 2\n",
        ..NOTHING
    },
    Case {
        name: "a call isn't taken where too few numbers are left",
        words: &[
            "client",
            "--number",
            "0",
            "--sequence",
            "4294967295",
            "--call",
            "read f0 0 1",
        ],
        exit_code: 10,
        output: "x c0 slotspent\nnext 4294967295\n",
        ..NOTHING
    },
];

const LOSSES: &[Case] = &[
    Case {
        name: "a drive that ends two connections times out",
        words: WRITES,
        asked: &[GRANTED_WRITE, b"", b"", REPORTED],
        sent: &[GET_WRITE, WRITE, WRITE, REPORT],
        exit_code: 10,
        output: "t c0 0\no c0 write silent 0\nnext 3\n",
        ..NOTHING
    },
    Case {
        name: "so does one that answers another command",
        words: WRITES,
        asked: &[GRANTED_WRITE, OTHER_WRITTEN, REPORTED],
        sent: &[GET_WRITE, WRITE, REPORT],
        exit_code: 10,
        output: "t c0 0\no c0 write silent 0\nnext 3\n",
        ..NOTHING
    },
    Case {
        name: "a server that ends the connection is lost",
        words: WRITES,
        asked: &[b""],
        sent: &[GET_WRITE],
        exit_code: 8,
        output: "error link\n",
        ..NOTHING
    },
    Case {
        name: "so is one that answers another request",
        words: WRITES,
        asked: &[GRANTED_READ],
        sent: &[GET_WRITE],
        exit_code: 8,
        output: "error link\n",
        ..NOTHING
    },
];

const ORDERS: &[Case] = &[
    Case {
        name: "an order that has begun",
        words: AUDITS,
        asked: &[AUDIT_STARTED],
        sent: &[ORDER_AUDIT],
        output: "order 0\nnext 7\n",
        ..NOTHING
    },
    Case {
        name: "an order that is refused",
        words: AUDITS,
        asked: &[AUDIT_BUSY],
        sent: &[ORDER_AUDIT],
        exit_code: 10,
        output: "order 1\nnext 7\n",
        ..NOTHING
    },
    Case {
        name: "an order on a drive that there isn't",
        words: &[
            "client",
            "--number",
            "0",
            "--sequence",
            "1",
            "--call",
            "declare d7",
        ],
        asked: &[DECLARE_UNKNOWN],
        sent: &[ORDER_DECLARE],
        exit_code: 10,
        output: "order 3\nnext 1\n",
        ..NOTHING
    },
    Case {
        name: "an answer to another order is none",
        words: AUDITS,
        asked: &[DECLARE_UNKNOWN],
        sent: &[ORDER_AUDIT],
        exit_code: 8,
        output: "error link\n",
        ..NOTHING
    },
    Case {
        name: "nor is what spells no message",
        words: AUDITS,
        asked: &[b"\x80\0\0\x01?"],
        sent: &[ORDER_AUDIT],
        exit_code: 8,
        output: "error link\n",
        ..NOTHING
    },
    Case {
        name: "a server that ends the connection doesn't answer",
        words: AUDITS,
        asked: &[b""],
        sent: &[ORDER_AUDIT],
        exit_code: 8,
        output: "error link\n",
        ..NOTHING
    },
];

// What comes in the place of the answer to an order.
const STREAMS: &[Case] = &[
    Case {
        name: "the first record is taken, and what follows isn't looked at",
        words: AUDITS,
        asked: &[b"\x80\0\0\x0c\0\0\0\x06\0\0\0\x05\0\0\0\0\x80\x04\x93\xe1"],
        sent: &[ORDER_AUDIT],
        output: "order 0\nnext 7\n",
        ..NOTHING
    },
    Case {
        name: "in two fragments, with a part of another behind it",
        words: AUDITS,
        asked: &[b"\0\0\0\x04\0\0\0\x06\x80\0\0\x08\0\0\0\x05\0\0\0\0\x80\0\0\x01"],
        sent: &[ORDER_AUDIT],
        output: "order 0\nnext 7\n",
        ..NOTHING
    },
    Case {
        name: "no record",
        words: AUDITS,
        asked: &[b""],
        sent: &[ORDER_AUDIT],
        exit_code: 8,
        output: "error link\n",
        ..NOTHING
    },
    Case {
        name: "a part of one",
        words: AUDITS,
        asked: &[b"\x80\0\0\x01"],
        sent: &[ORDER_AUDIT],
        exit_code: 8,
        output: "error link\n",
        ..NOTHING
    },
    Case {
        name: "a fragment that isn't the last",
        words: AUDITS,
        asked: &[b"\0\0\0\x01a"],
        sent: &[ORDER_AUDIT],
        exit_code: 8,
        output: "error link\n",
        ..NOTHING
    },
    Case {
        name: "one that is too long",
        words: AUDITS,
        asked: &[b"\x80\x04\x93\xe1"],
        sent: &[ORDER_AUDIT],
        exit_code: 8,
        output: "error link\n",
        ..NOTHING
    },
    Case {
        name: "two fragments that are too long together",
        words: AUDITS,
        asked: &[b"\0\0\0\x01a\x80\x04\x93\xe0"],
        sent: &[ORDER_AUDIT],
        exit_code: 8,
        output: "error link\n",
        ..NOTHING
    },
    Case {
        name: "the second part of a record isn't received",
        words: AUDITS,
        fails: &[4],
        asked: &[b"\x80\0\0\x01"],
        sent: &[ORDER_AUDIT],
        exit_code: 8,
        output: "error link\n",
        ..NOTHING
    },
];

#[test]
fn calls_of_a_client(rt: HostRuntime) {
    play(&rt, rt.alloc(), CALLS);
    play(&rt, rt.alloc(), LOSSES);
}

#[test]
fn orders_of_a_client(rt: HostRuntime) {
    play(&rt, rt.alloc(), ORDERS);
    play(&rt, rt.alloc(), STREAMS);
}
