//! HMAC, by the vectors of the RFCs.
use hmac_tags::{Hmac, Hmac256};

// Whether this is the short tag of a text, which comes in two pieces, under a key.
fn is_short_tag(key: &[u8], text: &[u8], tag: &[u8]) -> bool {
    let (first, rest) = text.split_at(text.len() / 2);
    let mut short = Hmac::new(key);
    short.update(first);
    short.update(rest);
    short.finish().as_slice() == tag
}

// The same of the long one.
fn is_long_tag(key: &[u8], text: &[u8], tag: &[u8]) -> bool {
    let (first, rest) = text.split_at(text.len() / 2);
    let mut long = Hmac256::new(key);
    long.update(first);
    long.update(rest);
    long.finish().as_slice() == tag
}

// A key, a text and both tags. Cases 1 to 3 of RFC 2202, section 3, and of RFC 4231, sections 4.2 to 4.4, which
// have the same keys and texts.
#[rattlefmt::skip]
const SHORT_KEYS: &[(&[u8], &[u8], &[u8], &[u8])] = &[
    (
        &[0x0b; 20],
        b"Hi There",
        b"\xb6\x17\x31\x86\x55\x05\x72\x64\xe2\x8b\xc0\xb6\xfb\x37\x8c\x8e\xf1\x46\xbe\x00",
        b"\xb0\x34\x4c\x61\xd8\xdb\x38\x53\x5c\xa8\xaf\xce\xaf\x0b\xf1\x2b\
            \x88\x1d\xc2\x00\xc9\x83\x3d\xa7\x26\xe9\x37\x6c\x2e\x32\xcf\xf7",
    ),
    (
        b"Jefe",
        b"what do ya want for nothing?",
        b"\xef\xfc\xdf\x6a\xe5\xeb\x2f\xa2\xd2\x74\x16\xd5\xf1\x84\xdf\x9c\x25\x9a\x7c\x79",
        b"\x5b\xdc\xc1\x46\xbf\x60\x75\x4e\x6a\x04\x24\x26\x08\x95\x75\xc7\
            \x5a\x00\x3f\x08\x9d\x27\x39\x83\x9d\xec\x58\xb9\x64\xec\x38\x43",
    ),
    (
        &[0xaa; 20],
        &[0xdd; 50],
        b"\x12\x5d\x73\x42\xb9\xac\x11\xcd\x91\xa3\x9a\xf4\x8a\xa1\x7b\x4f\x63\xf1\x75\xd3",
        b"\x77\x3e\xa9\x1e\x36\x80\x0e\x46\x85\x4d\xb8\xeb\xd0\x91\x81\xa7\
            \x29\x59\x09\x8b\x3e\xf8\xc1\x22\xd9\x63\x55\x14\xce\xd5\x65\xfe",
    ),
];

#[test]
fn short_keys(rt: HostRuntime) {
    for (key, text, short, long) in SHORT_KEYS.iter() {
        assert!(rt; is_short_tag(key, text, short));
        assert!(rt; is_long_tag(key, text, long));
    }
}

const TEXT: &[u8] = b"Test Using Larger Than Block-Size Key - Hash Key First";

// Case 6 of RFC 2202 has a key of 80 bytes, case 6 of RFC 4231 one of 131.
#[test]
fn keys_longer_than_a_block(rt: HostRuntime) {
    let short = b"\xaa\x4a\xe5\xe1\x52\x72\xd0\x0e\x95\x70\x56\x37\xce\x8a\x3b\x55\xed\x40\x21\x12";
    assert!(rt; is_short_tag(&[0xaa; 80], TEXT, short));
    let long = b"\x60\xe4\x31\x59\x1e\xe0\xb6\x7f\x0d\x8a\x26\xaa\xcb\xf5\xb7\x7f\
        \x8e\x0b\xc6\x21\x37\x28\xc5\x14\x05\x46\x04\x0f\x0e\xe3\x7f\x54";
    assert!(rt; is_long_tag(&[0xaa; 131], TEXT, long));
}
