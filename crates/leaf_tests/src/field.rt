//! The field of 256 elements, by values of its tables.
use gf256::{add, add_scaled, inverse, mul, power};

#[test]
fn products_and_inverses(rt: HostRuntime) {
    assert!(rt; mul(2, 0x80) == 0x1d && mul(3, 0xf4) == 1);
    assert!(rt; inverse(2) == 0x8e && inverse(3) == 0xf4);
    assert!(rt; power(8) == 0x1d && power(255) == 1);
}

#[test]
fn blocks_and_the_rest_of_a_slice(rt: HostRuntime) {
    let mut out = [0u8; 150];
    add_scaled(&mut out, 2, &[0x80; 150]);
    assert!(rt; out.iter().all(|b| *b == 0x1d));
    add(&mut out, &[0x1d; 150]);
    assert!(rt; out.iter().all(|b| *b == 0));
}
