ghost use Rattle.std.specs.Prelude.{◌≡◌, ◌*◌, ◌<◌, ◌≤◌, ◌++◌, ◌∷◌, OnOk, decimal, length, map, slice_index};
ghost use Rattle.hex.specs.Hex.{encode_lower, lower_digits};
ghost use Rattle.scenario_text.specs.Words.{behind};
ghost use Rattle.scenario_text.specs.Parts.{hex_word, positions_word};
ghost use Rattle.scenario_text.specs.Written.{written};

use crate::names::Name;
use itoa::Buffer;
use osd_lists::{Bytes, Memory};

// A word to be written.
#[derive(Clone, Copy)]
pub(crate) enum Word<'a> {
    Fixed(&'a [u8]),
    Number(u64),
    Named(u8, u32),
    Key(&'a [u8; 20]),
    Hex(&'a [u8]),
    Positions(&'a [u32]),
}

pub(crate) fn small<'a>(n: u32) -> Word<'a>
    ensures { result ≡ Word.Number n }
{
    Word::Number(u64::from(n))
}

pub(crate) fn named<'a, const LETTER: u8, const COUNT: u32>(name: &Name<LETTER, COUNT>) -> Word<'a>
    ensures { result ≡ Word.Named LETTER name.now }
{
    Word::Named(LETTER, name.number())
}

// The bytes whose digits are made at a time.
const BLOCK: usize = 256;

// The digit of a number below 16. It is computed and not looked up: so the compiler makes sixteen at a time.
#[inline(always)]
fn digit(n: u8) -> u8
    requires { n < 16 }
    ensures { result ≡ slice_index lower_digits n }
{
    if n < 10 { b'0' + n } else { b'a' + (n - 10) }
}

// Writes the digits of bytes over a text, which has twice as many.
fn spell(bytes: &[u8], text: &mut [u8])
    requires { length text.old ≡ 2 * length bytes.now }
    ensures { text.new ≡ encode_lower bytes.now }
{
    for i in 0..bytes.len() {
        text[2 * i] = digit(bytes[i] >> 4);
        text[2 * i + 1] = digit(bytes[i] & 15);
    }
}

// Adds the digits of some of a word's bytes.
fn put_block(out: &mut Bytes, block: &[u8]) -> Result<(), Memory>
    requires { length block.now ≤ BLOCK }
    ensures { OnOk result (out.new ≡ out.old ++ encode_lower block.now) }
{
    let mut digits = [0u8; 2 * BLOCK];
    let text = &mut digits[..2 * block.len()];
    spell(block, text);
    out.extend_from_slice(text)
}

// Adds the digits of bytes, a block at a time: nothing is filled by zeros that would be written over.
fn put_digits(out: &mut Bytes, bytes: &[u8]) -> Result<(), Memory>
    ensures { OnOk result (out.new ≡ out.old ++ encode_lower bytes.now) }
{
    out.reserve(2 * bytes.len())?;
    let mut rest = bytes;
    while !rest.is_empty() {
        let (block, later) = rest.split_at(rest.len().min(BLOCK));
        put_block(out, block)?;
        rest = later;
    }
    Ok(())
}

fn put_hex(out: &mut Bytes, bytes: &[u8]) -> Result<(), Memory>
    ensures { OnOk result (out.new ≡ out.old ++ hex_word bytes.now) }
{
    if bytes.is_empty() {
        return out.extend_from_slice(b"-");
    }
    put_digits(out, bytes)
}

// Adds the positions behind the first one, each behind a comma.
fn put_further(out: &mut Bytes, positions: &[u32]) -> Result<(), Memory>
    ensures { OnOk result (out.new ≡ out.old ++ behind 44 (map decimal positions.now)) }
{
    for position in positions {
        out.push(b',')?;
        out.extend_from_slice(Buffer::new().format(*position).as_bytes())?;
    }
    Ok(())
}

fn put_positions(out: &mut Bytes, positions: &[u32]) -> Result<(), Memory>
    ensures { OnOk result (out.new ≡ out.old ++ positions_word positions.now) }
{
    match positions {
        [] => Ok(()),
        [first, further @ ..] => {
            out.extend_from_slice(Buffer::new().format(*first).as_bytes())?;
            put_further(out, further)?;
            Ok(())
        }
    }
}

fn put_word(out: &mut Bytes, word: &Word) -> Result<(), Memory>
    ensures { OnOk result (out.new ≡ out.old ++ written word.now) }
{
    match word {
        Word::Fixed(text) => out.extend_from_slice(text),
        Word::Number(n) => out.extend_from_slice(Buffer::new().format(*n).as_bytes()),
        Word::Named(letter, n) => {
            out.push(*letter)?;
            out.extend_from_slice(Buffer::new().format(*n).as_bytes())
        }
        Word::Key(key) => put_digits(out, key.as_slice()),
        Word::Hex(bytes) => put_hex(out, bytes),
        Word::Positions(positions) => put_positions(out, positions),
    }
}

// Adds words, each behind a space.
pub(crate) fn put(out: &mut Bytes, words: &[Word]) -> Result<(), Memory>
    ensures { OnOk result (out.new ≡ out.old ++ behind 32 (map written words.now)) }
{
    for word in words {
        out.push(b' ')?;
        put_word(out, word)?;
    }
    Ok(())
}
