// What the words of `stored-drive` and `stored-server` ask for.
ghost use Rattle.std.specs.Prelude.{IfErr, IfOk, map, string_bytes};
ghost use Rattle.std.specs.Option.{option_map};
ghost use Rattle.command_words.specs.Asked.{Asks, Refuses};
ghost use Rattle.command_words.specs.StoredAsked.{AsksStored, AsksStoredServer, stored_drive_gives, stored_drive_options};
ghost use Rattle.command_words.specs.StoredAsked.{stored_server_gives, stored_server_options};
ghost use Rattle.command_words.specs.Work.{Gives};

use crate::options::{stored_drive_options, stored_server_options};
use crate::words::{DriveWords, ServerWords, WordsErr, drive_from, server_from, stop_of};
use osd_lists::Memory;
use std::alloc::Global;

/// What the words of `stored-drive` ask for.
#[derive(Drop)]
pub struct StoredDriveWords {
    /// Which drive it is, and how many connections it serves.
    pub drive: DriveWords,
    /// The name of the file that keeps it.
    pub store: String,
}

/// What the words of `stored-server` ask for.
#[derive(Drop)]
pub struct StoredServerWords {
    /// How many connections it serves.
    pub server: ServerWords,
    /// The name of the file that keeps it.
    pub store: String,
}

fn stored_drive_from(
    alloc: Global,
    drive: Option<&str>,
    count: Option<&str>,
    name: Option<&str>,
) -> Result<Option<StoredDriveWords>, Memory>
    ensures { IfOk result (Gives (AsksStored (option_map (λ w. w.now) drive.entry)
        (option_map (λ w. w.now) count.entry) (option_map (λ w. w.now) name.entry))) }
{
    let Some(drive) = drive_from(drive, count) else {
        return Ok(None);
    };
    let Some(name) = name else {
        return Ok(None);
    };
    let store = String::from_str(alloc, name)?;
    Ok(Some(StoredDriveWords { drive, store }))
}

fn stored_server_from(
    alloc: Global,
    count: Option<&str>,
    name: Option<&str>,
) -> Result<Option<StoredServerWords>, Memory>
    ensures { IfOk result (Gives (AsksStoredServer (option_map (λ w. w.now) count.entry) (option_map (λ w. w.now) name.entry))) }
{
    let Some(server) = server_from(count) else {
        return Ok(None);
    };
    let Some(name) = name else {
        return Ok(None);
    };
    let store = String::from_str(alloc, name)?;
    Ok(Some(StoredServerWords { server, store }))
}

/// What the words of `stored-drive` ask for, the word `stored-drive` first.
///
/// # Errors
///
/// [`WordsErr::Bad`] exactly where they aren't `--number N --connections K --store NAME` in one of the forms that
/// `clap` takes, N and K as for [`crate::drive_words`]; [`WordsErr::Memory`].
pub fn stored_drive_words(alloc: Global, words: &[String]) -> Result<StoredDriveWords, WordsErr>
    ensures asks { IfOk result (Asks stored_drive_options stored_drive_gives (map string_bytes words.now)) }
    ensures refuses { IfErr result (Refuses stored_drive_options stored_drive_gives (map string_bytes words.now)) }
{
    let command = stored_drive_options(alloc)?;
    match command.try_get_matches_from(words) {
        Ok(matches) => {
            let number = matches.get_str("number");
            let connections = matches.get_str("connections");
            match stored_drive_from(alloc, number, connections, matches.get_str("store"))? {
                Some(asked) => Ok(asked),
                None => Err(WordsErr::Bad),
            }
        }
        Err(e) => Err(stop_of(e.kind())),
    }
}

/// What the words of `stored-server` ask for, the word `stored-server` first.
///
/// # Errors
///
/// [`WordsErr::Bad`] exactly where they aren't `--connections K --store NAME` in one of the forms that `clap` takes, K as
/// for [`crate::drive_words`]; [`WordsErr::Memory`].
pub fn stored_server_words(alloc: Global, words: &[String]) -> Result<StoredServerWords, WordsErr>
    ensures asks { IfOk result (Asks stored_server_options stored_server_gives (map string_bytes words.now)) }
    ensures refuses { IfErr result (Refuses stored_server_options stored_server_gives (map string_bytes words.now)) }
{
    let command = stored_server_options(alloc)?;
    match command.try_get_matches_from(words) {
        Ok(matches) => {
            let connections = matches.get_str("connections");
            match stored_server_from(alloc, connections, matches.get_str("store"))? {
                Some(asked) => Ok(asked),
                None => Err(WordsErr::Bad),
            }
        }
        Err(e) => Err(stop_of(e.kind())),
    }
}
