ghost use Rattle.std.specs.Prelude.{◌≡◌, ◌<◌, ◌^◌, ℕ, IfSome, IfNone};
ghost use Rattle.drive_store.specs.Header.{header_of};

use gate_log::HEADER_SIZE;
use osd_lists::{put_u32, put_u64, u64_at};

/// `OSDS`.
const MAGIC: u32 = 0x4f53_4453;

/// The version of the form of stores.
const VERSION: u32 = 1;

/// What stands in front of a store: whose it is.
///
/// | place | size | field |
/// |---|---|---|
/// | 0 | 4 | `OSDS` |
/// | 4 | 4 | version, 1 |
/// | 8 | 8 | number of the drive, of 32 bits |
/// | 16 | 8 | capacity in bytes |
///
/// Numbers are big-endian.
#[derive(Clone, Copy, PartialEq, Eq)]
pub struct StoreHeader {
    /// The drive's number.
    pub number: u32,
    /// How many bytes its objects may have.
    pub capacity: u64,
}

impl StoreHeader {
    /// The header's bytes.
    #[tactic(auto, unfolding(crate::specs::Header::header_of))]
    pub fn to_bytes(self) -> [u8; HEADER_SIZE]
        ensures written { result ≡ header_of self.number self.capacity }
        ensures fits { (self.number < 2 ^ 32) × (self.capacity < 2 ^ 64) }
    {
        let mut out = [0u8; HEADER_SIZE];
        put_u32(&mut out, 0, MAGIC);
        put_u32(&mut out, 4, VERSION);
        put_u64(&mut out, 8, u64::from(self.number));
        put_u64(&mut out, 16, self.capacity);
        out
    }

    /// The header that the bytes are, `None` exactly if they are none.
    pub fn from_bytes(bytes: &[u8; HEADER_SIZE]) -> Option<StoreHeader>
        ensures some { IfSome result (λ h. (h.number < 2 ^ 32)
            × ((h.capacity < 2 ^ 64) × (bytes.now ≡ header_of h.number h.capacity))) }
        ensures none { IfNone result ((number capacity : ℕ) → number < 2 ^ 32 → capacity < 2 ^ 64 →
            bytes.now ≡ header_of number capacity → ⊥) }
    {
        let number = u64_at(bytes, 8);
        if number > u64::from(u32::MAX) {
            return None;
        }
        let header = StoreHeader {
            number: number as u32,
            capacity: u64_at(bytes, 16),
        };
        if header.to_bytes().as_slice() == bytes.as_slice() {
            Some(header)
        } else {
            None
        }
    }
}
