ghost use Rattle.std.specs.Prelude.{◌≡◌, ◌⊎◌, Err};
ghost use Rattle.scenario_text.specs.Reading.{bytes_of, key_of, any_upper, refuses, GivesOrMemory};
ghost use Rattle.scenario_text.specs.declared.event.EventErr.TheVariants.{Memory};

use crate::event::EventErr;
use hex::{FromHex, FromHexError};
use osd_lists::Bytes;
use std::alloc::Global;

// Which hexadecimal digits may stand.
#[derive(Clone, Copy)]
pub(crate) enum Digits {
    Either,
    Lower,
}

fn has_upper(word: &[u8]) -> bool
    ensures { result ≡ any_upper word.now }
{
    word.iter().any(|b| b'A' <= *b && *b <= b'F')
}

fn is_refused(digits: Digits, word: &[u8]) -> bool
    ensures { result ≡ refuses digits word.now }
{
    match digits {
        Digits::Either => false,
        Digits::Lower => has_upper(word),
    }
}

// The bytes of pairs of digits, or of `-`, which stands for none.
#[tactic(auto, unfolding(crate::specs::Reading::bytes_of))]
pub(crate) fn bytes(alloc: Global, digits: Digits, word: &[u8]) -> Result<Bytes, EventErr>
    ensures { GivesOrMemory (bytes_of digits word.now) result }
{
    if word == b"-".as_slice() {
        return Ok(Bytes::new(alloc));
    }
    if word.is_empty() || is_refused(digits, word) {
        return Err(EventErr::BadHex);
    }
    match hex::decode(alloc, word) {
        Ok(bytes) => Ok(Bytes::from_vec(bytes)),
        Err(FromHexError::OutOfMemory) => Err(EventErr::Memory),
        Err(_) => Err(EventErr::BadHex),
    }
}

// A key of twenty bytes.
#[tactic(auto, unfolding(crate::specs::Reading::key_of))]
pub(crate) fn key(digits: Digits, word: &[u8]) -> Result<[u8; 20], EventErr>
    ensures { result ≡ key_of digits word.now }
{
    if is_refused(digits, word) {
        return Err(EventErr::BadHex);
    }
    match <[u8; 20] as FromHex>::from_hex(word) {
        Ok(key) => Ok(key),
        Err(_) => Err(EventErr::BadHex),
    }
}
