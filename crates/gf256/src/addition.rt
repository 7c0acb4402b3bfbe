// The sum of two slices.
ghost use Rattle.std.specs.Prelude.{◌≡◌, length};
ghost use Rattle.gf256.specs.Field.{summed};

use crate::lanes;

/// Adds each element of `src` to the one of `out` at its place. Both have one length.
pub fn add(out: &mut [u8], src: &[u8])
    requires { length out.old ≡ length src.now }
    ensures { out.new ≡ summed out.old src.now }
{
    let blocks = out.len() / 64;
    for b in 0..blocks {
        let other = lanes::load(src, 64 * b);
        let before = lanes::load(out, 64 * b);
        lanes::store(out, 64 * b, lanes::sum(before, other));
    }
    for i in 64 * blocks..out.len() {
        out[i] ^= src[i];
    }
}
