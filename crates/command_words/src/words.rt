// What the words of each command ask for.
ghost use Rattle.std.specs.Prelude.{◌≡◌, ◌≢◌, IfErr, IfOk, map, string_bytes};
ghost use Rattle.std.specs.Option.{option_map};
ghost use Rattle.command_words.specs.declared.words.WordsErr.TheVariants.{Bad};
ghost use Rattle.command_words.specs.Options.{client_options, drive_options, server_options};
ghost use Rattle.command_words.specs.Asked.{Asks, AsksClient, Refuses, client_gives, drive_gives, drive_words_from, first_in};
ghost use Rattle.command_words.specs.Asked.{number_in, server_gives, server_words_from};
ghost use Rattle.command_words.specs.Work.{Gives};

use crate::numbers::number;
use crate::options::{client_options, drive_options, server_options};
use crate::work::{ClientWork, work_in};
use clap::error::ErrorKind;
use osd_lists::Memory;
use std::alloc::{AllocError, Global};
use thiserror::Error;

/// The greatest number of a drive.
pub const MAX_DRIVE: u32 = 63;

/// The greatest number of a client.
pub const MAX_CLIENT: u32 = 15;

const MAX_U32: u32 = 4_294_967_295;

/// What the words of `drive` ask for.
#[derive(Clone, Copy, PartialEq, Eq)]
pub struct DriveWords {
    /// At most [`MAX_DRIVE`].
    pub number: u32,
    /// How many connections are served.
    pub connections: u32,
}

/// What the words of `server` ask for.
#[derive(Clone, Copy, PartialEq, Eq)]
pub struct ServerWords {
    /// How many connections are served.
    pub connections: u32,
}

/// Which number a client's first request has.
#[derive(Clone, Copy, PartialEq, Eq)]
pub enum FirstNumber {
    /// This one, from 1.
    Given(u32),
    /// One that no request had, for which the client asks the server.
    Fresh,
}

/// What the words of `client` ask for.
#[derive(Drop)]
pub struct ClientWords {
    /// At most [`MAX_CLIENT`].
    pub number: u32,
    /// The number of its first request.
    pub first: FirstNumber,
    /// What it does.
    pub work: ClientWork,
}

/// Why words weren't read.
#[derive(Clone, Copy, Debug, PartialEq, Eq, Error)]
pub enum WordsErr {
    /// They aren't those of the command.
    #[error("the words aren't those of the command")]
    Bad,
    /// There was no memory.
    #[error("out of memory")]
    Memory,
}

impl From<AllocError> for WordsErr {
    ghost use Rattle.command_words.specs.declared.words.WordsErr.TheVariants.{Memory};

    ghost from_gives = { λ _ e. e ≡ Memory };

    fn from(_: AllocError) -> Self {
        WordsErr::Memory
    }
}

impl From<Memory> for WordsErr {
    ghost use Rattle.command_words.specs.declared.words.WordsErr.TheVariants.{Memory};

    ghost from_gives = { λ _ e. e ≡ Memory };

    fn from(_: Memory) -> Self {
        WordsErr::Memory
    }
}

pub(crate) fn stop_of(kind: ErrorKind) -> WordsErr
    ensures { result ≡ Bad → kind ≢ ErrorKind.OutOfMemory }
{
    match kind {
        ErrorKind::OutOfMemory => WordsErr::Memory,
        _ => WordsErr::Bad,
    }
}

// The number that the word of an option spells.
fn number_in(word: Option<&str>, least: u32, most: u32) -> Option<u32>
    ensures { result ≡ number_in least most (option_map (λ w. w.now) word.entry) }
{
    match word {
        Some(word) => number(word, least, most),
        None => None,
    }
}

pub(crate) fn drive_from(drive: Option<&str>, count: Option<&str>) -> Option<DriveWords>
    ensures { result ≡ drive_words_from (option_map (λ w. w.now) drive.entry) (option_map (λ w. w.now) count.entry) }
{
    Some(DriveWords {
        number: number_in(drive, 0, MAX_DRIVE)?,
        connections: number_in(count, 0, MAX_U32)?,
    })
}

pub(crate) fn server_from(count: Option<&str>) -> Option<ServerWords>
    ensures { result ≡ server_words_from (option_map (λ w. w.now) count.entry) }
{
    Some(ServerWords {
        connections: number_in(count, 0, MAX_U32)?,
    })
}

// The number of the first request, which is a fresh one without a word.
fn first_in(word: Option<&str>) -> Option<FirstNumber>
    ensures { result ≡ first_in (option_map (λ w. w.now) word.entry) }
{
    match word {
        Some(word) => Some(FirstNumber::Given(number(word, 1, MAX_U32)?)),
        None => Some(FirstNumber::Fresh),
    }
}

fn client_from(
    alloc: Global,
    client: Option<&str>,
    sequence: Option<&str>,
    text: Option<&str>,
) -> Result<Option<ClientWords>, Memory>
    ensures { IfOk result (Gives (AsksClient (option_map (λ w. w.now) client.entry)
        (option_map (λ w. w.now) sequence.entry) (option_map (λ w. w.now) text.entry))) }
{
    let Some(number) = number_in(client, 0, MAX_CLIENT) else {
        return Ok(None);
    };
    let Some(first) = first_in(sequence) else {
        return Ok(None);
    };
    let Some(text) = text else {
        return Ok(None);
    };
    match work_in(alloc, text)? {
        Some(work) => Ok(Some(ClientWords {
            number,
            first,
            work,
        })),
        None => Ok(None),
    }
}

/// What the words of `drive` ask for, the word `drive` first.
///
/// # Errors
///
/// [`WordsErr::Bad`] exactly where they aren't `--number N --connections K` in one of the forms that `clap`
/// takes, N at most [`MAX_DRIVE`] and K of 32 bits, in decimal digits without leading zeros;
/// [`WordsErr::Memory`].
pub fn drive_words(alloc: Global, words: &[String]) -> Result<DriveWords, WordsErr>
    ensures asks { IfOk result (Asks drive_options drive_gives (map string_bytes words.now)) }
    ensures refuses { IfErr result (Refuses drive_options drive_gives (map string_bytes words.now)) }
{
    let command = drive_options(alloc)?;
    match command.try_get_matches_from(words) {
        Ok(matches) => {
            match drive_from(matches.get_str("number"), matches.get_str("connections")) {
                Some(asked) => Ok(asked),
                None => Err(WordsErr::Bad),
            }
        }
        Err(e) => Err(stop_of(e.kind())),
    }
}

/// What the words of `server` ask for, the word `server` first.
///
/// # Errors
///
/// [`WordsErr::Bad`] exactly where they aren't `--connections K` in one of the forms that `clap` takes, K as
/// for [`drive_words`]; [`WordsErr::Memory`].
pub fn server_words(alloc: Global, words: &[String]) -> Result<ServerWords, WordsErr>
    ensures asks { IfOk result (Asks server_options server_gives (map string_bytes words.now)) }
    ensures refuses { IfErr result (Refuses server_options server_gives (map string_bytes words.now)) }
{
    let command = server_options(alloc)?;
    match command.try_get_matches_from(words) {
        Ok(matches) => match server_from(matches.get_str("connections")) {
            Some(asked) => Ok(asked),
            None => Err(WordsErr::Bad),
        },
        Err(e) => Err(stop_of(e.kind())),
    }
}

/// What the words of `client` ask for, the word `client` first.
///
/// # Errors
///
/// [`WordsErr::Bad`] exactly where they aren't `--number N --call TEXT`, with or without `--sequence Q`, in one of
/// the forms that `clap` takes, N at most [`MAX_CLIENT`] and Q of 32 bits from 1, in decimal digits without leading
/// zeros, and TEXT the words of a call or an order as in a scenario, a call without `do` and the name of its client;
/// [`WordsErr::Memory`].
pub fn client_words(alloc: Global, words: &[String]) -> Result<ClientWords, WordsErr>
    ensures asks { IfOk result (Asks client_options client_gives (map string_bytes words.now)) }
    ensures refuses { IfErr result (Refuses client_options client_gives (map string_bytes words.now)) }
{
    let command = client_options(alloc)?;
    match command.try_get_matches_from(words) {
        Ok(matches) => {
            let client = matches.get_str("number");
            let sequence = matches.get_str("sequence");
            match client_from(alloc, client, sequence, matches.get_str("call"))? {
                Some(asked) => Ok(asked),
                None => Err(WordsErr::Bad),
            }
        }
        Err(e) => Err(stop_of(e.kind())),
    }
}
