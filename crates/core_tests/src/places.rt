// What stands at the places of a message, as text.
use itoa::Buffer;
use osd_lists::{Bytes, Memory, u32_at};

/// The places of numbers in a message, each behind what stands before it in the text.
pub type Form = &'static [(&'static str, usize)];

/// Where the payload of a command begins.
pub const PAYLOAD: usize = 256;

/// A text and a number.
pub fn put(text: &mut Bytes, before: &str, number: u64) -> Result<(), Memory> {
    text.extend_from_slice(before.as_bytes())?;
    text.extend_from_slice(Buffer::new().format(number).as_bytes())
}

/// A text.
pub fn put_word(text: &mut Bytes, word: &str) -> Result<(), Memory> {
    text.extend_from_slice(word.as_bytes())
}

/// The number at a place, or 0 where a message has none.
pub fn number(bytes: &[u8], at: usize) -> u32 {
    if at < bytes.len() && bytes.len() - at >= 4 {
        u32_at(bytes, at)
    } else {
        0
    }
}

/// The numbers at these places.
pub fn put_form(text: &mut Bytes, bytes: &[u8], form: Form) -> Result<(), Memory> {
    for (before, at) in form {
        put(text, before, u64::from(number(bytes, *at)))?;
    }
    Ok(())
}

/// The bytes from a place on.
pub fn from(bytes: &[u8], at: usize) -> &[u8] {
    if at <= bytes.len() { &bytes[at..] } else { &[] }
}
