//! HMAC (RFC 2104) over SHA-1 and over SHA-256.
//!
//! [`Hmac`] and [`Hmac256`] take a key, then the text in pieces of any length, and give the tag. For
//! many texts under one key [`HmacKey`] and [`HmacKey256`] hash its pads once. None of them takes
//! memory. The hash functions are those of the crates `sha1` and `sha2`.
#![tactic(auto)]

mod block;
mod sha1_tags;
mod sha256_tags;

pub use sha1_tags::{Hmac, HmacKey};
pub use sha256_tags::{Hmac256, HmacKey256};
