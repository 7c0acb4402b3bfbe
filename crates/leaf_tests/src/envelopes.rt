//! Messages between clients and the server.
ghost use Rattle.layout_ops.specs.Spelling.{EnvelopeWritable};

use layout_ops::{Envelope, read_envelope, write_envelope};
use std::alloc::Global;

// One of each kind, each optional field there and each number another. The bytes were made apart from the crate, by a
// script over the field lists of RFC 5661 and of docs/rules/MESSAGES.md.
const MESSAGES: &[&[u8]] = &[
    // LAYOUTCOMMIT, with a last byte, a time before 1970 and a body of five bytes.
    b"\0\0\0\x01\0\0\0\x01\0\0\0\x02\0\0\0\x03\0\0\01\0\0\0\0\0\0\x10\0\0\0\
    \0\0\0\0 \0\0\0\0\x01\0\0\0\x01\0\x01\x02\x03\x04\x05\x06\x07\x08\x09\x0a\x0b\0\0\0\x01\0\0\0\0\
    \0\0/\xff\0\0\0\x01\xff\xff\xff\xff\xff\xff\xff\xfb;\x9a\xc9\xff\0\0\0\x02\0\0\0\x05\x01\x02\x03\
    \x04\x05\0\0\0",
    // LAYOUTGET, with a signal and a least length.
    b"\0\0\0\x01\0\0\0\x01\0\0\0\x02\0\0\0\x03\0\0\02\0\0\0\x01\0\0\0\x02\0\
    \0\0\x02\0\0\0\0\0\0\0\x03\0\0\0\0\0\0\0\x0a\0\0\0\0\0\0\0\x04\0\0\0\x01\0\x01\x02\x03\x04\x05\
    \x06\x07\x08\x09\x0a\x0b\0\x01\0\0",
    // LAYOUTRETURN of the whole file, with a body of three bytes.
    b"\0\0\0\x01\0\0\0\x01\0\0\0\x02\0\0\0\x03\0\0\03\0\0\0\x01\0\0\0\x02\0\
    \0\0\x03\0\0\0\x01\0\0\0\0\0\0\0\0\xff\xff\xff\xff\xff\xff\xff\xff\0\0\0\x01\0\x01\x02\x03\x04\
    \x05\x06\x07\x08\x09\x0a\x0b\0\0\0\x03\xaa\xbb\xcc\0",
    // The answer to LAYOUTCOMMIT with a new size.
    b"\0\0\0\x02\0\0\0\x01\0\0\0\x02\0\0\0\x03\0\0\01\0\0\0\0\0\0\0\0\0\0\0)\
    \0\0\0\0\0\0\0\x01\0\0\0\0\0\0\0*",
    // That to LAYOUTGET with two layouts.
    b"\0\0\0\x02\0\0\0\x01\0\0\0\x02\0\0\0\x03\0\0\02\0\0\0\0\0\0\0\0\0\0\0)\
    \0\0\0\0\0\0\0\x01\0\0\0\x01\0\x01\x02\x03\x04\x05\x06\x07\x08\x09\x0a\x0b\0\0\0\x02\0\0\0\0\0\0\
    \0\0\0\0\0\0\0\x01\0\0\0\0\0\x01\0\0\0\x02\0\0\0\x02\xaa\xbb\0\0\0\0\0\0\0\x01\0\0\0\0\0\0\0\x01\
    \0\0\0\0\0\x02\0\0\0\x02\0\0\0\x01\xcc\0\0\0",
    // That to LAYOUTGET which promises a signal.
    b"\0\0\0\x02\0\0\0\x01\0\0\0\x02\0\0\0\x03\0\0\02\0\0\0\x04\0\0\0\0\0\0\
    \0)\0\0'J\0\0\0\x01",
    // A refusal.
    b"\0\0\0\x02\0\0\0\x01\0\0\0\x02\0\0\0\x03\0\0\02\0\0\0\x05\0\0\0\0\0\0\
    \0)\0\0'M",
    // The answer to LAYOUTRETURN with a state id.
    b"\0\0\0\x02\0\0\0\x01\0\0\0\x02\0\0\0\x03\0\0\03\0\0\0\0\0\0\0\0\0\0\0)\
    \0\0\0\0\0\0\0\x01\0\0\0\x01\0\x01\x02\x03\x04\x05\x06\x07\x08\x09\x0a\x0b",
    // A recall with a file handle of five bytes.
    b"\0\0\0\x03\0\0\0\x01\0\0\0\x06\0\0\0\x03\0\0\0\x05\0\0\0\x02\0\0\0\x03\
    \0\0\0\x01\0\0\0\x01\0\0\0\x05\0\0\0\x03\x09\0\0\0\0\0\0\0\0\0\0\0\xff\xff\xff\xff\xff\xff\xff\
    \xff\0\0\0\x01\0\x01\x02\x03\x04\x05\x06\x07\x08\x09\x0a\x0b",
    // The answer to a recall.
    b"\0\0\0\x04\0\0\0\x01\0\0\0\x06\0\0\0\x03\0\0\0\x05\0\0'L",
    // An order, to rebuild.
    b"\0\0\0\x05\0\0\0\x04\0\0\0\x03",
    // What became of an audit.
    b"\0\0\0\x06\0\0\0\x05\0\0\0\x02",
];

fn has_bytes(alloc: Global, envelope: &Envelope, bytes: &[u8]) -> bool
    requires { EnvelopeWritable envelope.now }
{
    match write_envelope(alloc, envelope) {
        Ok(written) => written.as_slice() == bytes,
        Err(_) => false,
    }
}

// Whether the envelope of a message is written as the same message.
fn is_written_again(alloc: Global, bytes: &[u8]) -> bool {
    match read_envelope(alloc, bytes) {
        Ok(envelope) => has_bytes(alloc, &envelope, bytes),
        Err(_) => false,
    }
}

#[test]
fn each_message_is_written_again_the_same(rt: HostRuntime) {
    for bytes in MESSAGES.iter() {
        assert!(rt; is_written_again(rt.alloc(), bytes));
    }
}
