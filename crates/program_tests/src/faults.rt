// Clients of whose calls of links each fails in turn. Call 0 settles them; then each exchange connects, sends and receives. A
// drive of which no record came is asked once more.
use crate::clients::{READS, WRITES};
use crate::runs::{Case, NOTHING, play};
use crate::scripts::{
    COMMIT, COMMITTED, DATA, GET_READ, GET_WRITE, GRANTED_READ, GRANTED_WRITE, READ, REPORT,
    REPORTED, RETURN, RETURN_READ, RETURNED, RETURNED_READ, WRITE, WRITTEN,
};

// Those of a write.
const FAULTS: &[Case] = &[
    Case {
        name: "settling",
        words: WRITES,
        fails: &[0],
        asked: &[GRANTED_WRITE, WRITTEN, COMMITTED, RETURNED],
        exit_code: 8,
        output: "error link\n",
        ..NOTHING
    },
    Case {
        name: "connecting for a grant",
        words: WRITES,
        fails: &[1],
        asked: &[GRANTED_WRITE, WRITTEN, COMMITTED, RETURNED],
        exit_code: 8,
        output: "error link\n",
        ..NOTHING
    },
    Case {
        name: "asking for it",
        words: WRITES,
        fails: &[2],
        asked: &[GRANTED_WRITE, WRITTEN, COMMITTED, RETURNED],
        sent: &[b""],
        exit_code: 8,
        output: "error link\n",
        ..NOTHING
    },
    Case {
        name: "receiving it",
        words: WRITES,
        fails: &[3],
        asked: &[GRANTED_WRITE, WRITTEN, COMMITTED, RETURNED],
        sent: &[GET_WRITE],
        exit_code: 8,
        output: "error link\n",
        ..NOTHING
    },
    Case {
        name: "connecting to the drive",
        words: WRITES,
        fails: &[4],
        asked: &[GRANTED_WRITE, WRITTEN, WRITTEN, COMMITTED, RETURNED],
        sent: &[GET_WRITE, WRITE, COMMIT, RETURN],
        output: "o c0 write ok 2\nnext 4\n",
        ..NOTHING
    },
    Case {
        name: "sending the WRITE",
        words: WRITES,
        fails: &[5],
        asked: &[GRANTED_WRITE, WRITTEN, WRITTEN, COMMITTED, RETURNED],
        sent: &[GET_WRITE, b"", WRITE, COMMIT, RETURN],
        output: "o c0 write ok 2\nnext 4\n",
        ..NOTHING
    },
    Case {
        name: "receiving its reply",
        words: WRITES,
        fails: &[6],
        asked: &[GRANTED_WRITE, WRITTEN, WRITTEN, COMMITTED, RETURNED],
        sent: &[GET_WRITE, WRITE, WRITE, COMMIT, RETURN],
        output: "o c0 write ok 2\nnext 4\n",
        ..NOTHING
    },
    Case {
        name: "connecting to the drive twice",
        words: WRITES,
        fails: &[4, 5],
        asked: &[GRANTED_WRITE, WRITTEN, WRITTEN, REPORTED],
        sent: &[GET_WRITE, REPORT],
        exit_code: 10,
        output: "t c0 0\no c0 write silent 0\nnext 3\n",
        ..NOTHING
    },
];

// The later ones: a constant has a limit, and the messages count.
const LATER_FAULTS: &[Case] = &[
    Case {
        name: "connecting for the commit",
        words: WRITES,
        fails: &[7],
        asked: &[GRANTED_WRITE, WRITTEN, COMMITTED, RETURNED],
        sent: &[GET_WRITE, WRITE],
        exit_code: 8,
        output: "error link\n",
        ..NOTHING
    },
    Case {
        name: "sending it",
        words: WRITES,
        fails: &[8],
        asked: &[GRANTED_WRITE, WRITTEN, COMMITTED, RETURNED],
        sent: &[GET_WRITE, WRITE, b""],
        exit_code: 8,
        output: "error link\n",
        ..NOTHING
    },
    Case {
        name: "receiving its answer",
        words: WRITES,
        fails: &[9],
        asked: &[GRANTED_WRITE, WRITTEN, COMMITTED, RETURNED],
        sent: &[GET_WRITE, WRITE, COMMIT],
        exit_code: 8,
        output: "error link\n",
        ..NOTHING
    },
    Case {
        name: "connecting for the return",
        words: WRITES,
        fails: &[10],
        asked: &[GRANTED_WRITE, WRITTEN, COMMITTED, RETURNED],
        sent: &[GET_WRITE, WRITE, COMMIT],
        exit_code: 8,
        output: "o c0 write ok 2\nerror link\n",
        ..NOTHING
    },
    Case {
        name: "sending it, with the write acknowledged",
        words: WRITES,
        fails: &[11],
        asked: &[GRANTED_WRITE, WRITTEN, COMMITTED, RETURNED],
        sent: &[GET_WRITE, WRITE, COMMIT, b""],
        exit_code: 8,
        output: "o c0 write ok 2\nerror link\n",
        ..NOTHING
    },
    Case {
        name: "receiving its answer, with the write acknowledged",
        words: WRITES,
        fails: &[12],
        asked: &[GRANTED_WRITE, WRITTEN, COMMITTED, RETURNED],
        sent: &[GET_WRITE, WRITE, COMMIT, RETURN],
        exit_code: 8,
        output: "o c0 write ok 2\nerror link\n",
        ..NOTHING
    },
    Case {
        name: "a call behind the last one",
        words: WRITES,
        fails: &[13],
        asked: &[GRANTED_WRITE, WRITTEN, COMMITTED, RETURNED],
        sent: &[GET_WRITE, WRITE, COMMIT, RETURN],
        output: "o c0 write ok 2\nnext 4\n",
        ..NOTHING
    },
];

// Those of a read. It reports nothing: a reader's grant goes back clean.
const READ_FAULTS: &[Case] = &[
    Case {
        name: "settling",
        words: READS,
        fails: &[0],
        asked: &[GRANTED_READ, DATA, RETURNED_READ],
        exit_code: 8,
        output: "error link\n",
        ..NOTHING
    },
    Case {
        name: "connecting for a grant",
        words: READS,
        fails: &[1],
        asked: &[GRANTED_READ, DATA, RETURNED_READ],
        exit_code: 8,
        output: "error link\n",
        ..NOTHING
    },
    Case {
        name: "asking for it",
        words: READS,
        fails: &[2],
        asked: &[GRANTED_READ, DATA, RETURNED_READ],
        sent: &[b""],
        exit_code: 8,
        output: "error link\n",
        ..NOTHING
    },
    Case {
        name: "receiving it",
        words: READS,
        fails: &[3],
        asked: &[GRANTED_READ, DATA, RETURNED_READ],
        sent: &[GET_READ],
        exit_code: 8,
        output: "error link\n",
        ..NOTHING
    },
    Case {
        name: "connecting to the drive",
        words: READS,
        fails: &[4],
        asked: &[GRANTED_READ, DATA, DATA, RETURNED_READ],
        sent: &[GET_READ, READ, RETURN_READ],
        output: "o c0 read ok 4142\nnext 6\n",
        ..NOTHING
    },
    Case {
        name: "sending the READ",
        words: READS,
        fails: &[5],
        asked: &[GRANTED_READ, DATA, DATA, RETURNED_READ],
        sent: &[GET_READ, b"", READ, RETURN_READ],
        output: "o c0 read ok 4142\nnext 6\n",
        ..NOTHING
    },
    Case {
        name: "receiving its reply",
        words: READS,
        fails: &[6],
        asked: &[GRANTED_READ, DATA, DATA, RETURNED_READ],
        sent: &[GET_READ, READ, READ, RETURN_READ],
        output: "o c0 read ok 4142\nnext 6\n",
        ..NOTHING
    },
    Case {
        name: "connecting for the return",
        words: READS,
        fails: &[7],
        asked: &[GRANTED_READ, DATA, RETURNED_READ],
        sent: &[GET_READ, READ],
        exit_code: 8,
        output: "o c0 read ok 4142\nerror link\n",
        ..NOTHING
    },
    Case {
        name: "sending it, with the bytes read",
        words: READS,
        fails: &[8],
        asked: &[GRANTED_READ, DATA, RETURNED_READ],
        sent: &[GET_READ, READ, b""],
        exit_code: 8,
        output: "o c0 read ok 4142\nerror link\n",
        ..NOTHING
    },
    Case {
        name: "receiving its answer, with the bytes read",
        words: READS,
        fails: &[9],
        asked: &[GRANTED_READ, DATA, RETURNED_READ],
        sent: &[GET_READ, READ, RETURN_READ],
        exit_code: 8,
        output: "o c0 read ok 4142\nerror link\n",
        ..NOTHING
    },
    Case {
        name: "a call behind the last one",
        words: READS,
        fails: &[10],
        asked: &[GRANTED_READ, DATA, RETURNED_READ],
        sent: &[GET_READ, READ, RETURN_READ],
        output: "o c0 read ok 4142\nnext 6\n",
        ..NOTHING
    },
];

#[test]
fn each_call_of_a_client_fails_in_turn(rt: HostRuntime) {
    play(&rt, rt.alloc(), FAULTS);
    play(&rt, rt.alloc(), LATER_FAULTS);
    play(&rt, rt.alloc(), READ_FAULTS);
}
