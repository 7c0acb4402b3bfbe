// The commands of a drive over ports, and of the metadata server over links of which calls fail.
use crate::ends::Next;
use crate::messages::{
    ASK_LENGTH, ASKS_AGAIN, ASKS_ON, ASKS_THRICE, BOTH_ARE_TOLD, CREATE, CREATE_NINE, CREATE_THREE,
    CREATED, CREATED_TOO, EXISTS, LENGTH, NEITHER_IS, NO_COMMAND, NOISE_AND_ASKS, ONE_IS_TOLD,
    REVOKES_AND_ASKS, SET_TAG, TAG_SET, TOLD_AGAIN, TOLD_ON, TWICE_NO_COMMAND, TWO_ASK,
};
use crate::runs::{CLUSTER, Case, FILELESS, KEYLESS, NOTHING, TWO_FILES, play};
use crate::scripts::{AUDIT_STARTED, ORDER_AUDIT};
use port_loop::Room;

// What a drive tells of it, at most once a second.
const REFUSED: &str = "drive 0 refused: format (detail 0, object 0, nonce 0)";

// Messages of which none is a command come to a drive.
const DRIVES: &[Case] = &[
    Case {
        name: "each record of each connection is answered, in the order in which they come, at its own time",
        words: &["drive", "--number", "0", "--connections", "2"],
        input: FILELESS,
        happens: &[
            Next::Opens,
            Next::Opens,
            Next::Brings(1, b"\x80\0\0\x0ano command"),
            Next::Brings(0, b"\x80\0\0\x01a\x80\0\0\0"),
            Next::Brings(1, b"\x80\0\0\x02no"),
            Next::Closes(0),
            Next::Closes(1),
        ],
        replies: &[TWICE_NO_COMMAND, TWICE_NO_COMMAND],
        notes: &[REFUSED, REFUSED, REFUSED, REFUSED],
        next_time: 9,
        output: "listening\nserved 2\n",
        ..NOTHING
    },
    Case {
        name: "one that doesn't come whole holds no other up, and is none",
        words: &["drive", "--number", "0", "--connections", "2"],
        input: FILELESS,
        happens: &[
            Next::Opens,
            Next::Brings(0, b"\x80\0\0\x01a\x80\0\0\x09part"),
            Next::Opens,
            Next::Brings(1, b"\x80\0\0\0"),
            Next::Closes(1),
            Next::Closes(0),
        ],
        replies: &[NO_COMMAND, NO_COMMAND],
        notes: &[REFUSED, REFUSED],
        next_time: 7,
        output: "listening\nserved 2\n",
        ..NOTHING
    },
    Case {
        name: "records before one that is too long are answered, none after it, and the connection is over",
        words: &["drive", "--number", "0", "--connections", "1"],
        input: FILELESS,
        happens: &[
            Next::Opens,
            Next::Brings(
                0,
                b"\x80\0\0\x01a\0\0\0\x01b\x80\0\0\x01c\x80\x04\x93\xe1\x80\0\0\x01a",
            ),
        ],
        replies: &[TWICE_NO_COMMAND],
        notes: &[REFUSED, REFUSED],
        next_time: 7,
        output: "listening\nserved 1\n",
        ..NOTHING
    },
    Case {
        name: "a connection on which no answer goes out is over",
        words: &["drive", "--number", "0", "--connections", "2"],
        input: FILELESS,
        happens: &[
            Next::Opens,
            Next::Opens,
            Next::Brings(0, b"\x80\0\0\x01a\x80\0\0\0"),
            Next::Brings(1, b"\x80\0\0\x01a\x80\0\0\0"),
            Next::Closes(1),
        ],
        rooms: &[Room::Fails],
        replies: &[b"", TWICE_NO_COMMAND],
        notes: &[REFUSED, REFUSED, REFUSED, REFUSED],
        next_time: 9,
        output: "listening\nserved 2\n",
        ..NOTHING
    },
    Case {
        name: "one on which there is room for a part of it gets the rest later",
        words: &["drive", "--number", "0", "--connections", "1"],
        input: FILELESS,
        happens: &[
            Next::Opens,
            Next::Brings(0, b"\x80\0\0\x01a"),
            Next::Drains(0),
            Next::Closes(0),
        ],
        rooms: &[Room::Takes { count: 3 }],
        replies: &[NO_COMMAND],
        notes: &[REFUSED],
        next_time: 6,
        output: "listening\nserved 1\n",
        ..NOTHING
    },
    Case {
        name: "a drive that serves no connection waits for none",
        words: &["drive", "--number", "0", "--connections", "0"],
        input: FILELESS,
        output: "listening\nserved 0\n",
        ..NOTHING
    },
];

// Requests come to a server without files.
const SERVERS: &[Case] = &[
    Case {
        name: "each record of each connection is answered in order, at its own time",
        words: &["server", "--connections", "2"],
        input: FILELESS,
        accepted: &[TWO_ASK, REVOKES_AND_ASKS],
        put: &[BOTH_ARE_TOLD, NEITHER_IS],
        next_time: 9,
        output: "listening\nserved 2\n",
        ..NOTHING
    },
    Case {
        name: "a record that spells nothing takes a time and no answer",
        words: &["server", "--connections", "1"],
        input: FILELESS,
        accepted: &[NOISE_AND_ASKS],
        put: &[ONE_IS_TOLD],
        next_time: 7,
        output: "listening\nserved 1\n",
        ..NOTHING
    },
    Case {
        name: "a request that comes again is answered again, and one out of order is told the next number",
        words: &["server", "--connections", "1"],
        input: FILELESS,
        accepted: &[ASKS_AGAIN],
        put: &[TOLD_AGAIN],
        next_time: 8,
        output: "listening\nserved 1\n",
        ..NOTHING
    },
    Case {
        // Call 0 settles the links, 1 and 2 accept and take, 3 puts the first answer, 4 would put the second.
        name: "behind an answer that failed a server handles records without one",
        words: &["server", "--connections", "2"],
        input: FILELESS,
        accepted: &[ASKS_THRICE, ASKS_ON],
        fails: &[4],
        put: &[ONE_IS_TOLD, TOLD_ON],
        next_time: 9,
        output: "listening\nserved 2\n",
        ..NOTHING
    },
    Case {
        // Call 0 settles the links. Of two connections with two records each 1 and 6 accept, 2 and 7 take, 3, 4, 8 and 9 put.
        name: "a connection of which nothing can be taken",
        words: &["server", "--connections", "2"],
        input: FILELESS,
        accepted: &[TWO_ASK, TWO_ASK],
        fails: &[2],
        put: &[b"", BOTH_ARE_TOLD],
        next_time: 7,
        output: "listening\nserved 2\n",
        ..NOTHING
    },
    Case {
        name: "one on which no answer goes out: the kept ones do on the next",
        words: &["server", "--connections", "2"],
        input: FILELESS,
        accepted: &[TWO_ASK, TWO_ASK],
        fails: &[3],
        put: &[b"", BOTH_ARE_TOLD],
        next_time: 9,
        output: "listening\nserved 2\n",
        ..NOTHING
    },
    Case {
        name: "one whose end can't be taken, behind its records",
        words: &["server", "--connections", "2"],
        input: FILELESS,
        accepted: &[TWO_ASK, TWO_ASK],
        fails: &[5],
        put: &[BOTH_ARE_TOLD, BOTH_ARE_TOLD],
        next_time: 9,
        output: "listening\nserved 2\n",
        ..NOTHING
    },
    Case {
        name: "no second connection can be accepted",
        words: &["server", "--connections", "2"],
        input: FILELESS,
        accepted: &[TWO_ASK, TWO_ASK],
        fails: &[6],
        put: &[BOTH_ARE_TOLD],
        next_time: 7,
        exit_code: 8,
        output: "listening\nerror link\n",
        ..NOTHING
    },
    Case {
        // Calls 1 and 2 serve the first connection, which is empty; 3 would accept the next.
        name: "a server that can accept no further connection",
        words: &["server", "--connections", "2"],
        input: FILELESS,
        accepted: &[b""],
        fails: &[3],
        put: &[b""],
        exit_code: 8,
        output: "listening\nerror link\n",
        ..NOTHING
    },
    Case {
        name: "a server that can accept none",
        words: &["server", "--connections", "1"],
        input: FILELESS,
        fails: &[1],
        exit_code: 8,
        output: "listening\nerror link\n",
        ..NOTHING
    },
    Case {
        name: "a server whose links can't be settled",
        words: &["server", "--connections", "0"],
        input: CLUSTER,
        fails: &[0],
        exit_code: 8,
        output: "error link\n",
        ..NOTHING
    },
    Case {
        name: "a server that can't ask a drive while it makes its files",
        words: &["server", "--connections", "0"],
        input: CLUSTER,
        asked: &[CREATED],
        fails: &[2],
        sent: &[b""],
        notes: &["d0 gave no answer while the files were made"],
        exit_code: 8,
        output: "error link\n",
        ..NOTHING
    },
    Case {
        name: "a server that gets no reply while it makes its files",
        words: &["server", "--connections", "0"],
        input: CLUSTER,
        asked: &[CREATED],
        fails: &[3],
        sent: &[CREATE],
        notes: &["d0 gave no answer while the files were made"],
        exit_code: 8,
        output: "error link\n",
        ..NOTHING
    },
    Case {
        // Call 1 would connect to the drive.
        name: "a server that doesn't reach a drive while it makes its files",
        words: &["server", "--connections", "0"],
        input: CLUSTER,
        asked: &[b""],
        fails: &[1],
        notes: &["d0 gave no answer while the files were made"],
        exit_code: 8,
        output: "error link\n",
        ..NOTHING
    },
];

// A server makes its files, by commands of whose replies some come.
const MAKERS: &[Case] = &[
    Case {
        name: "each file has a command of its own, in the format of the cluster",
        words: &["server", "--connections", "0"],
        input: TWO_FILES,
        asked: &[CREATED, CREATED_TOO],
        sent: &[CREATE_NINE, CREATE_THREE],
        notes: &["f f9 ready", "f f3 ready"],
        next_time: 7,
        output: "listening\nserved 0\n",
        ..NOTHING
    },
    Case {
        name: "the drive gives no record for the second file",
        words: &["server", "--connections", "0"],
        input: TWO_FILES,
        asked: &[CREATED, b""],
        sent: &[CREATE_NINE, CREATE_THREE],
        notes: &["f f9 ready", "d0 gave no answer while the files were made"],
        next_time: 6,
        exit_code: 8,
        output: "error link\n",
        ..NOTHING
    },
    Case {
        name: "the drive holds the object of an earlier run",
        words: &["server", "--connections", "0"],
        input: CLUSTER,
        asked: &[EXISTS],
        sent: &[CREATE],
        notes: &[
            "d0 holds object 65536 already: is this the right journal, and are these the right drives? (docs/use/OPERATIONS.md)",
        ],
        exit_code: 8,
        output: "error link\n",
        ..NOTHING
    },
    Case {
        name: "what an audit finds is told, and what the server notes before it",
        words: &["server", "--connections", "1"],
        input: CLUSTER,
        accepted: &[ORDER_AUDIT],
        asked: &[CREATED, TAG_SET, LENGTH],
        put: &[AUDIT_STARTED],
        sent: &[CREATE, SET_TAG, ASK_LENGTH],
        notes: &[
            "f f0 ready",
            "f f0 fenced 2",
            "f f0 repaired 0 0",
            "f f0 audit 0 0 0 0",
        ],
        next_time: 9,
        output: "listening\nserved 1\n",
        ..NOTHING
    },
    Case {
        // Call 0 settles, 1 to 3 are the exchange with the drive, and 4 would accept a connection.
        name: "no connection can be accepted",
        words: &["server", "--connections", "1"],
        input: CLUSTER,
        asked: &[CREATED],
        fails: &[4],
        sent: &[CREATE],
        notes: &["f f0 ready"],
        next_time: 6,
        exit_code: 8,
        output: "listening\nerror link\n",
        ..NOTHING
    },
    Case {
        name: "a server needs the key of each drive",
        words: &["server", "--connections", "0"],
        input: KEYLESS,
        exit_code: 9,
        output: "error cluster missing\n",
        ..NOTHING
    },
];

#[test]
fn a_drive_serves_connections(rt: HostRuntime) {
    play(&rt, rt.alloc(), DRIVES);
}

#[test]
fn a_server_serves_connections(rt: HostRuntime) {
    play(&rt, rt.alloc(), SERVERS);
    play(&rt, rt.alloc(), MAKERS);
}
