ghost use Rattle.std.specs.Prelude.{◌≡◌, ◌++◌, ◌-◌, ◌↔◌, ℕ, List, replicate, IsTrue};
ghost use Rattle.hmac_tags.specs.InTheMaking.{IsKeyed, IsKeyed256};
ghost use Rattle.hmac_tags.specs.Mac.{hmac_sha1, hmac_sha256};
ghost use Rattle.osd_capability.specs.Layout.{is_format, spelling};
ghost use Rattle.osd_capability.specs.Keys.{key_of, check_of, format_of};
ghost use Rattle.osd_capability.specs.Sealing.{IsReadyFor};

use crate::layout::{Capability, FORMAT_SHA256};
use hmac_tags::{HmacKey, HmacKey256};
use std::marker::Model;

/// The bytes of a drive's key.
pub const DRIVE_KEY_BYTES: usize = 20;

/// The bytes of a check value's place, which a tag over SHA-256 fills.
pub const CHECK_BYTES: usize = 32;

/// The bytes of a tag over SHA-1.
pub const SHA1_TAG_BYTES: usize = 20;

/// The key of a capability, which its holder makes check values with.
#[derive(Clone, Copy, PartialEq, Eq)]
pub enum CapKey {
    /// Of a capability of format 1, over SHA-1.
    One([u8; SHA1_TAG_BYTES]),
    /// Of a capability of format 2, over SHA-256.
    Two([u8; CHECK_BYTES]),
}

// The tag of a capability's bytes over SHA-1.
fn sha1_tag(key: &HmacKey, c: &Capability) -> [u8; SHA1_TAG_BYTES]
    ensures { (bytes : List ℕ) → IsKeyed key.now bytes → result ≡ hmac_sha1 bytes (spelling c.now) }
{
    let mut tag = key.begin();
    tag.update(&c.to_bytes());
    tag.finish()
}

// The same over SHA-256.
fn sha256_tag(key: &HmacKey256, c: &Capability) -> [u8; CHECK_BYTES]
    ensures { (bytes : List ℕ) → IsKeyed256 key.now bytes → result ≡ hmac_sha256 bytes (spelling c.now) }
{
    let mut tag = key.begin();
    tag.update(&c.to_bytes());
    tag.finish()
}

/// The key of a capability under a drive's key, of the variant of the capability's format: an
/// HMAC (RFC 2104) of its 96 bytes.
pub fn capability_key(key: &[u8; DRIVE_KEY_BYTES], c: &Capability) -> CapKey
    ensures key { result ≡ key_of key.now c.now }
    ensures format { IsTrue (is_format c.now.format) → format_of result ≡ c.now.format }
{
    if c.format == FORMAT_SHA256 {
        CapKey::Two(sha256_tag(&HmacKey256::new(key), c))
    } else {
        CapKey::One(sha1_tag(&HmacKey::new(key), c))
    }
}

/// A drive's key, made ready once for the keys of many capabilities: each then takes two steps of the
/// hash less than by [`capability_key`].
#[derive(Drop)]
pub struct IssuingKey {
    key: [u8; DRIVE_KEY_BYTES],
    sha1: HmacKey,
    sha256: HmacKey256,
}

impl Model for IssuingKey {
    ghost use Rattle.std.specs.Prelude.{ℕ, List};
    ghost use Rattle.hmac_tags.specs.InTheMaking.{IsKeyed, IsKeyed256};

    ghost Value = { List ℕ };

    ghost view = { λ s. s.key };

    ghost invariant = { λ s. IsKeyed s.sha1 s.key × IsKeyed256 s.sha256 s.key };
}

impl IssuingKey {
    /// Makes a drive's key ready.
    pub fn new(key: &[u8; DRIVE_KEY_BYTES]) -> Self
        ensures { result ≡ key.now }
    {
        IssuingKey {
            key: *key,
            sha1: HmacKey::new(key),
            sha256: HmacKey256::new(key),
        }
    }

    /// Whether it was made of this key.
    pub fn is_of(&self, key: &[u8; DRIVE_KEY_BYTES]) -> bool
        ensures { IsTrue result ↔ (self.now ≡ key.now) }
    {
        self.key == *key
    }

    /// The key that [`capability_key`] gives under the drive's key.
    pub fn capability_key(&self, c: &Capability) -> CapKey
        ensures key { result ≡ key_of self.now c.now }
        ensures format { IsTrue (is_format c.now.format) → format_of result ≡ c.now.format }
    {
        if c.format == FORMAT_SHA256 {
            CapKey::Two(sha256_tag(&self.sha256, c))
        } else {
            CapKey::One(sha1_tag(&self.sha1, c))
        }
    }
}

// A tag over SHA-1 in the place of a check value.
fn with_zeros(tag: &[u8; SHA1_TAG_BYTES]) -> [u8; CHECK_BYTES]
    ensures { result ≡ tag.now ++ replicate (CHECK_BYTES - SHA1_TAG_BYTES) 0 }
{
    let mut check = [0u8; CHECK_BYTES];
    check[..SHA1_TAG_BYTES].copy_from_slice(tag);
    check
}

// A key made ready for tags.
#[derive(Drop)]
enum ReadyKey {
    One(HmacKey),
    Two(HmacKey256),
}

// Makes a key ready for tags.
fn ready(key: &CapKey) -> ReadyKey
    ensures { IsReadyFor result key.now }
{
    match key {
        CapKey::One(key) => ReadyKey::One(HmacKey::new(key)),
        CapKey::Two(key) => ReadyKey::Two(HmacKey256::new(key)),
    }
}

/// The key of a capability, made ready once for the check values of many commands: each then takes
/// two steps of the hash less than by [`check_value`].
#[derive(Drop)]
pub struct SealingKey {
    key: CapKey,
    ready: ReadyKey,
}

impl Model for SealingKey {
    ghost use Rattle.osd_capability.specs.declared.keys.CapKey.{CapKey};
    ghost use Rattle.osd_capability.specs.Sealing.{IsReadyFor};

    ghost Value = { CapKey };

    ghost view = { λ s. s.key };

    ghost invariant = { λ s. IsReadyFor s.ready s.key };
}

impl SealingKey {
    /// Makes a key ready.
    pub fn new(key: &CapKey) -> Self
        ensures { result ≡ key.now }
    {
        SealingKey {
            key: *key,
            ready: ready(key),
        }
    }

    /// The check value that [`check_value`] gives under the key.
    pub fn check_value(&self, head: &[u8], payload: &[u8]) -> [u8; CHECK_BYTES]
        ensures { result ≡ check_of self.now (head.now ++ payload.now) }
    {
        match &self.ready {
            ReadyKey::One(key) => {
                let mut tag = key.begin();
                tag.update(head);
                tag.update(payload);
                with_zeros(&tag.finish())
            }
            ReadyKey::Two(key) => {
                let mut tag = key.begin();
                tag.update(head);
                tag.update(payload);
                tag.finish()
            }
        }
    }
}

/// The check value of a command under its capability's key: an HMAC (RFC 2104) of `head`, the bytes
/// of the command before its check value, and then the payload.
///
/// `head` has 236 bytes in format 1 and 224 in format 2. In format 1 the check value has 20 bytes,
/// and the last 12 of the 32 are 0.
pub fn check_value(cap_key: &CapKey, head: &[u8], payload: &[u8]) -> [u8; CHECK_BYTES]
    ensures { result ≡ check_of cap_key.now (head.now ++ payload.now) }
{
    SealingKey::new(cap_key).check_value(head, payload)
}
