ghost use Rattle.std.specs.Prelude.{◌≡◌, ◌<◌, length, IsTrue, IfOk, IfSome, Ok};
ghost use Rattle.osd_capability.specs.declared.layout.Capability.{Capability as Cap};
ghost use Rattle.osd_capability.specs.Layout.{spelling, reading, stray, is_format, Fits};

use osd_lists::{first_nonzero_in, put_u16, put_u32, put_u64, u16_at, u32_at, u64_at};
use thiserror::Error;

/// The length of a capability's spelling.
pub const CAPABILITY_BYTES: usize = 96;

/// The format whose check values are made over SHA-1.
pub const FORMAT_SHA1: u8 = 1;

/// The format whose check values are made over SHA-256.
pub const FORMAT_SHA256: u8 = 2;

// The bytes before the last zeros.
const FIELDS: usize = 64;

/// What a holder may do with an object, until when, and under which policy access tag.
///
/// | place | size | field |
/// |---|---|---|
/// | 0 | 1 | format |
/// | 2 | 2 | key version |
/// | 4 | 4 | rights |
/// | 8 | 8 | expiry |
/// | 16 | 4 | grant |
/// | 20 | 4 | holder |
/// | 24 | 4 | tag |
/// | 32 | 8 | partition |
/// | 40 | 8 | object |
/// | 48 | 8 | range start |
/// | 56 | 8 | range length |
///
/// Numbers are big-endian. The bytes between, and from 64 on, are 0.
#[derive(Clone, Copy, PartialEq, Eq)]
pub struct Capability {
    /// [`FORMAT_SHA1`] or [`FORMAT_SHA256`].
    pub format: u8,
    /// Which of the drive's keys it is made with.
    pub key_version: u16,
    /// The sum of the rights' bits.
    pub rights: u32,
    /// The last second of the drive's clock at which it holds.
    pub expiry: u64,
    /// The grant that it belongs to, or 0 for the server's own.
    pub grant: u32,
    /// Whom it was issued to: the client's number, or 4,294,967,295 for the server.
    pub holder: u32,
    /// The policy access tag that the object must have (RFC 5664 13.4).
    pub tag: u32,
    /// The partition of the object.
    pub partition: u64,
    /// The number of the object in its partition.
    pub object: u64,
    /// The first byte of the object that may be read or written.
    pub range_start: u64,
    /// How many bytes may be read or written from there on.
    pub range_len: u64,
}

/// Why bytes spell no capability. The first that applies is given, in this order.
#[derive(Clone, Copy, Debug, PartialEq, Eq, Error)]
pub enum CapErr {
    /// There aren't [`CAPABILITY_BYTES`].
    #[error("a capability has 96 bytes")]
    Length,
    /// The first byte is neither 1 nor 2.
    #[error("unknown capability format")]
    Format,
    /// The byte at this place, the first such, must be 0 and isn't.
    #[error("byte {at} of the capability is reserved")]
    Reserved { at: u32 },
}

// The first place that must be 0 and isn't.
#[tactic(auto, unfolding(crate::specs::Layout::stray))]
fn stray_in(bytes: &[u8]) -> Option<usize>
    requires { length bytes.now ≡ CAPABILITY_BYTES }
    ensures found { result ≡ stray bytes.now }
    ensures bound { IfSome result (λ at. at < CAPABILITY_BYTES) }
{
    first_nonzero_in(bytes, 1, 2)
        .or(first_nonzero_in(bytes, 28, 32))
        .or(first_nonzero_in(bytes, FIELDS, CAPABILITY_BYTES))
}

// The capability, or the first refusal.
#[tactic(auto, unfolding(crate::specs::Layout::reading, crate::specs::Layout::capability_at))]
fn read(bytes: &[u8]) -> Result<Capability, CapErr>
    ensures { result ≡ reading bytes.now }
{
    if bytes.len() != CAPABILITY_BYTES {
        return Err(CapErr::Length);
    }
    if bytes[0] != FORMAT_SHA1 && bytes[0] != FORMAT_SHA256 {
        return Err(CapErr::Format);
    }
    if let Some(at) = stray_in(bytes) {
        return Err(CapErr::Reserved { at: at as u32 });
    }
    Ok(Capability {
        format: bytes[0],
        key_version: u16_at(bytes, 2),
        rights: u32_at(bytes, 4),
        expiry: u64_at(bytes, 8),
        grant: u32_at(bytes, 16),
        holder: u32_at(bytes, 20),
        tag: u32_at(bytes, 24),
        partition: u64_at(bytes, 32),
        object: u64_at(bytes, 40),
        range_start: u64_at(bytes, 48),
        range_len: u64_at(bytes, 56),
    })
}

#[tactic(auto, unfolding(crate::specs::Layout::spelling))]
fn write(c: &Capability) -> [u8; CAPABILITY_BYTES]
    ensures spelled { result ≡ spelling c.now }
    ensures fits { IsTrue (is_format c.now.format) → Fits c.now }
{
    let mut out = [0u8; CAPABILITY_BYTES];
    out[0] = c.format;
    put_u16(&mut out, 2, c.key_version);
    put_u32(&mut out, 4, c.rights);
    put_u64(&mut out, 8, c.expiry);
    put_u32(&mut out, 16, c.grant);
    put_u32(&mut out, 20, c.holder);
    put_u32(&mut out, 24, c.tag);
    put_u64(&mut out, 32, c.partition);
    put_u64(&mut out, 40, c.object);
    put_u64(&mut out, 48, c.range_start);
    put_u64(&mut out, 56, c.range_len);
    out
}

impl Capability {
    /// The one spelling of this capability. Where the format is 1 or 2, [`Capability::from_bytes`]
    /// gives it back.
    pub fn to_bytes(&self) -> [u8; CAPABILITY_BYTES]
        ensures spelled { result ≡ spelling self.now }
        ensures fits { IsTrue (is_format self.now.format) → Fits self.now }
        ensures read_back { IsTrue (is_format self.now.format) → reading result ≡ Ok self.now }
    {
        write(self)
    }

    /// The capability that the bytes spell.
    ///
    /// # Errors
    ///
    /// [`CapErr::Length`] where there aren't 96 bytes, [`CapErr::Format`] where the first is
    /// neither 1 nor 2, [`CapErr::Reserved`] at the first byte that must be 0, in this order.
    pub fn from_bytes(bytes: &[u8]) -> Result<Capability, CapErr>
        // What is read is spelled so.
        ensures found { IfOk result (λ c. Fits c × (bytes.now ≡ spelling c)) }
        // What is spelled so is read.
        ensures only { (c : Cap) → Fits c → bytes.now ≡ spelling c → result ≡ Ok c }
        // Which refusal it is.
        ensures exact { result ≡ reading bytes.now }
    {
        read(bytes)
    }
}
