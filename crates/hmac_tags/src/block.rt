ghost use Rattle.std.specs.Prelude.{◌≡◌, ◌≤◌, length, map, bit_xor};
ghost use Rattle.hmac_tags.specs.Mac.{zero_filled};

/// The bytes of a block, for SHA-1 and SHA-256 alike (FIPS 180-4, section 1).
pub const BLOCK: usize = 64;

/// What each byte of the key's block is xored with before the text (RFC 2104, section 2).
pub const INNER_PAD: u8 = 0x36;

/// What each byte of the key's block is xored with before the inner hash (RFC 2104, section 2).
pub const OUTER_PAD: u8 = 0x5c;

/// The key with zeros after it, to a whole block.
pub fn filled(key: &[u8]) -> [u8; BLOCK]
    requires { length key.now ≤ BLOCK }
    ensures { result ≡ zero_filled key.now }
{
    let mut block = [0u8; BLOCK];
    block[..key.len()].copy_from_slice(key);
    block
}

/// The block, each byte xored with `pad`.
pub fn xored(block: &[u8; BLOCK], pad: u8) -> [u8; BLOCK]
    ensures { result ≡ map (λ b. bit_xor b pad) block.now }
{
    let mut out = [0u8; BLOCK];
    for i in 0..BLOCK {
        out[i] = block[i] ^ pad;
    }
    out
}
