// The sum of a slice and a multiple of another.
ghost use Rattle.std.specs.Prelude.{◌≡◌, length};
ghost use Rattle.gf256.specs.Field.{added};

use crate::elements::mul;
use crate::lanes::{self, ProductTables};

/// Adds `c` times each element of `src` to the one of `out` at its place. Both have one length.
pub fn add_scaled(out: &mut [u8], c: u8, src: &[u8])
    requires { length out.old ≡ length src.now }
    ensures { out.new ≡ added c out.old src.now }
{
    let tables = ProductTables::new(c);
    let blocks = out.len() / 64;
    for b in 0..blocks {
        let product = tables.times(lanes::load(src, 64 * b));
        let before = lanes::load(out, 64 * b);
        lanes::store(out, 64 * b, lanes::sum(before, product));
    }
    for i in 64 * blocks..out.len() {
        out[i] ^= mul(c, src[i]);
    }
}
