// CRC-32 (RFC 1952, section 8).
ghost use Rattle.std.specs.Prelude.{◌≡◌, bit_xor};
ghost use Rattle.gate_log.specs.Checksum.{after_bits, crc_32};

use crate::table::AFTER_BYTE;

/// The polynomial, its highest power in the lowest bit.
pub const POLYNOMIAL: u32 = 0xedb8_8320;

/// A number of 32 bits that are all set. A register begins with it, and it is added at the end.
pub const ALL_ONES: u32 = 0xffff_ffff;

// The register after a byte: what was above its lowest byte is moved down, and the table tells what becomes of that one.
#[tactic(auto, using(crate::proofs::ByTable::by_table))]
fn after_byte(register: u32, byte: u8) -> u32
    ensures { result ≡ after_bits 8 (bit_xor register byte) }
{
    let sum = register ^ u32::from(byte);
    (sum / 256) ^ AFTER_BYTE[(sum % 256) as usize]
}

/// The checksum of these bytes.
#[tactic(auto, using(crate::proofs::Sums::byte_done, crate::proofs::Sums::all_done))]
pub fn crc_32(bytes: &[u8]) -> u32
    ensures { result ≡ crc_32 bytes.now }
{
    let mut register = ALL_ONES;
    for i in 0..bytes.len() {
        register = after_byte(register, bytes[i]);
    }
    register ^ ALL_ONES
}
