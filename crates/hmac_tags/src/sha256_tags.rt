ghost use Rattle.std.specs.Prelude.{◌≡◌, ℕ, List, [], ◌++◌};
ghost use Rattle.sha2.specs.Sha256.{sha256};
ghost use Rattle.hmac_tags.specs.Mac.{hmac_sha256, key_of, zero_filled};

use crate::block::{BLOCK, INNER_PAD, OUTER_PAD, filled, xored};
use sha2::{Digest, Sha256};

// The block of a key. One that is longer than a block is replaced by its hash.
fn key_block(key: &[u8]) -> [u8; BLOCK]
    ensures { result ≡ zero_filled (key_of sha256 key.now) }
{
    if key.len() > BLOCK {
        filled(&Sha256::digest(key))
    } else {
        filled(key)
    }
}

// The same hash in the making once more. It takes no memory, so it can't fail.
fn copy_of(state: &Sha256) -> Sha256
    ensures { result ≡ state.now }
{
    match state.clone() {
        Ok(copy) => copy,
        Err(_) => unreachable!(),
    }
}

/// A key of HMAC-SHA256 (RFC 2104), made ready once for many texts: the hashes of its two pads, with
/// which each tag begins.
#[derive(Clone, Drop)]
pub struct HmacKey256 {
    inner: Sha256,
    outer: Sha256,
}

impl HmacKey256 {
    ghost use Rattle.hmac_tags.specs.InTheMaking.{Holds256, IsKeyed256};

    /// Takes a key of any length.
    pub fn new(key: &[u8]) -> Self
        ensures { IsKeyed256 result key.now }
    {
        let block = key_block(key);
        let mut inner = Sha256::new();
        inner.update(xored(&block, INNER_PAD));
        let mut outer = Sha256::new();
        outer.update(xored(&block, OUTER_PAD));
        HmacKey256 { inner, outer }
    }

    /// Begins a tag under the key, with the empty text.
    pub fn begin(&self) -> Hmac256
        ensures { (key : List ℕ) → IsKeyed256 self.now key → Holds256 result key [] }
    {
        Hmac256 {
            inner: copy_of(&self.inner),
            outer: copy_of(&self.outer),
        }
    }
}

/// HMAC-SHA256 (RFC 2104) in the making: the text comes in pieces.
#[derive(Drop)]
pub struct Hmac256 {
    inner: Sha256,
    outer: Sha256,
}

impl Hmac256 {
    ghost use Rattle.hmac_tags.specs.InTheMaking.{Holds256};

    /// Begins with a key of any length and the empty text.
    pub fn new(key: &[u8]) -> Self
        ensures { Holds256 result key.now [] }
    {
        let HmacKey256 { inner, outer } = HmacKey256::new(key);
        Hmac256 { inner, outer }
    }

    /// Goes on with the text.
    pub fn update(&mut self, bytes: &[u8])
        ensures { (key text : List ℕ) → Holds256 self.old key text → Holds256 self.new key (text ++ bytes.now) }
    {
        self.inner.update(bytes);
    }

    /// The tag of the whole text under the key.
    pub fn finish(self) -> [u8; 32]
        ensures { (key text : List ℕ) → Holds256 self key text → result ≡ hmac_sha256 key text }
    {
        let Hmac256 { inner, outer } = self;
        let first = inner.finalize();
        let mut last = outer;
        last.update(first);
        last.finalize()
    }
}
