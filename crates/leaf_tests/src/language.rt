//! The language of transcripts, which the program only writes: lines as they are read and written.
use scenario_text::{EventErr, Line, read_line, write_line};
use std::alloc::Global;

// Lines of a transcript, with each event.
const LINES: &[&[u8]] = &[
    b"= drive d0 000102030405060708090a0b0c0d0e0f10111213 18446744073709551615",
    b"= disk d63 000102030405060708090a0b0c0d0e0f10111213 0",
    b"= client c15",
    b"= file f63 4 65536 0 0 4294967295 4 1",
    b"= zfile f0 6 4 0 0 0 4 4294967295",
    b"= zone d1 4294967295",
    b"= least d0 2",
    b"= format s 1",
    b"= do c0 write f0 0 -",
    b"= do c1 read f2 18446744073709551615 0",
    b"= call c0 write f1 5 0aff",
    b"= call c1 read f2 0 1",
    b"= deliver 8",
    b"= drop 18446744073709551615",
    b"= settle",
    b"= resend c1",
    b"= resend s",
    b"= timeout c0 4294967295",
    b"= leave c3",
    b"= inject d2 -",
    b"= clock d1 0",
    b"= clock s 90",
    b"= recall f1",
    b"= revoke f2",
    b"= rebuild f3",
    b"= audit f4",
    b"= declare d5",
    b"= stop c6",
    b"= fail d7",
    b"= crash d8",
    b"= reopen s",
    b"m 0 s d63 00ff",
    b"m 18446744073709551615 c15 s -",
    b"d 7 deaf",
    b"d 7 taken",
    b"d 7 perform",
    b"d 7 stale 18446744073709551615",
    b"j d0 again",
    b"j d0 nokey",
    b"j d0 checkvalue",
    b"j d0 expired",
    b"j d0 rights",
    b"j d0 wrongobject",
    b"j d0 range",
    b"j d0 noobject",
    b"j d0 exists",
    b"j d0 tag 4294967295",
    b"j d0 limit",
    b"j d0 nospace 0",
    b"j d0 lanefull",
    b"j d0 attrfull",
    b"j d0 format",
    b"j d0 oldformat",
    b"t c0 3",
    b"o c0 write ok 512",
    b"o c0 read ok -",
    b"o c0 read ok 0aff",
    b"o c0 read nofile",
    b"o c0 write held c1",
    b"o c0 read fencing 0",
    b"o c0 write degraded 2",
    b"o c0 read spent",
    b"o c0 read status 10050 0",
    b"o c0 write refused d0 nospace 0",
    b"o c0 write silent 1",
    b"o c0 read lost 0,3,4294967295",
    b"o c0 read badlayout Credential",
    b"o c0 read pending",
    b"x c0 busy",
    b"x c0 badrange",
    b"x c0 slotspent",
    b"f f0 ready",
    b"f f0 fenced 2",
    b"f f0 repaired 2 0",
    b"f f0 rebuilt 1 d5",
    b"f f0 nodrive 1",
    b"f f0 lost 1 2",
    b"f f0 nospace 1",
    b"f f0 audit 4 1 0 64",
    b"f f0 busy 0",
    b"f f0 spent",
    b"f f0 reported 3",
    b"f f0 refused exists",
    b"f f1 refused badmap Unit",
    b"f f1 refused toofew 1",
    b"f f0 refused nospread 6",
    b"calm yes unguessed yes",
    b"calm yes unguessed no",
    b"calm no unguessed yes",
    b"calm no unguessed no",
];

// Whether a line is written as this text.
fn is_line_of(alloc: Global, line: &Line, text: &[u8]) -> bool {
    match write_line(alloc, line) {
        Ok(written) => written.as_slice() == text,
        Err(_) => false,
    }
}

fn is_read_again(alloc: Global, text: &[u8]) -> bool {
    match read_line(alloc, text) {
        Ok(line) => is_line_of(alloc, &line, text),
        Err(_) => false,
    }
}

#[test]
fn each_line_is_read_and_written_again(rt: HostRuntime) {
    for line in LINES.iter() {
        assert!(rt; is_read_again(rt.alloc(), line));
    }
}

// Lines of which none is one of a transcript, and why.
#[rattlefmt::skip]
const WRONG: &[(&[u8], EventErr)] = &[
    (b"", EventErr::UnknownWord),
    (b"# note", EventErr::UnknownWord),
    (b"= do c0 write f0 0 0aFf", EventErr::BadHex),
    (b"= drive d0 000102030405060708090A0b0c0d0e0f10111213 5", EventErr::BadHex),
    (b"m 0 s d64 00", EventErr::BadName),
    (b"o c0 read ok 0A", EventErr::BadHex),
    (b"o c0 read lost 3,3", EventErr::BadNumber),
    (b"o c0 read lost 3,", EventErr::BadNumber),
    (b"o c0 read okay", EventErr::UnknownWord),
    (b"f f0 refused badmap unit", EventErr::UnknownWord),
    (b"f f0 refused", EventErr::Missing),
    (b"d 7 tag", EventErr::Missing),
    (b"x c0 busy 1", EventErr::Extra),
    (b"calm", EventErr::Missing),
    (b"calm maybe unguessed yes", EventErr::UnknownWord),
    (b"calm yes guessed yes", EventErr::UnknownWord),
];

// Whether a line of a transcript is refused so.
fn is_no_line(alloc: Global, text: &[u8], kind: EventErr) -> bool {
    match read_line(alloc, text) {
        Ok(_) => false,
        Err(e) => e == kind,
    }
}

#[test]
fn lines_that_are_none(rt: HostRuntime) {
    for (text, kind) in WRONG.iter() {
        assert!(rt; is_no_line(rt.alloc(), text, *kind));
    }
}
