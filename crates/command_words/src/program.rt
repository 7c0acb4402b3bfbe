// The whole program as one command of `clap`, for what people are told of words that name no command.
use crate::options::option;
use crate::words::{MAX_CLIENT, MAX_DRIVE};
use clap::builder::ValueParser;
use clap::{Arg, ArgAction, Command};
use std::alloc::{AllocError, Global};

// The kinds of structures that are shown and checked.
const KINDS: &[&str] = &[
    "map",
    "cred",
    "layout",
    "deviceaddr",
    "update",
    "ioerrs",
    "hint",
];

const MAX_U32: u64 = 4_294_967_295;

const MAX_U64: u64 = 18_446_744_073_709_551_615;

// The most calls of a scenario that is generated.
const MAX_CALLS: u64 = 1000;

// A required option that takes a number.
fn number<'a>(alloc: Global, id: &'a str, name: &'a str, least: u64, most: u64) -> Arg<'a> {
    option(alloc, id)
        .value_name(name)
        .value_parser(ValueParser::unsigned(least, most))
}

// A required number in a place of its own.
fn placed<'a>(alloc: Global, id: &'a str, most: u64) -> Arg<'a> {
    Arg::new(alloc, id)
        .required(true)
        .action(ArgAction::Set)
        .value_parser(ValueParser::unsigned(0, most))
}

fn generate<'a>(alloc: Global) -> Result<Command<'a>, AllocError> {
    Command::new(alloc, "generate")
        .arg(placed(alloc, "N", MAX_U64))?
        .arg(placed(alloc, "K", MAX_CALLS))
}

// `show` or `check`
fn inspection<'a>(alloc: Global, name: &'a str) -> Result<Command<'a>, AllocError> {
    let kind = Arg::new(alloc, "KIND")
        .required(true)
        .action(ArgAction::Set)
        .value_parser(KINDS);
    Command::new(alloc, name).arg(kind)
}

fn drive<'a>(alloc: Global) -> Result<Command<'a>, AllocError> {
    Command::new(alloc, "drive")
        .arg(number(alloc, "number", "N", 0, u64::from(MAX_DRIVE)))?
        .arg(number(alloc, "connections", "K", 0, MAX_U32))
}

fn stored_drive<'a>(alloc: Global) -> Result<Command<'a>, AllocError> {
    Command::new(alloc, "stored-drive")
        .arg(number(alloc, "number", "N", 0, u64::from(MAX_DRIVE)))?
        .arg(number(alloc, "connections", "K", 0, MAX_U32))?
        .arg(option(alloc, "store").value_name("NAME"))
}

fn server<'a>(alloc: Global) -> Result<Command<'a>, AllocError> {
    Command::new(alloc, "server").arg(number(alloc, "connections", "K", 0, MAX_U32))
}

fn stored_server<'a>(alloc: Global) -> Result<Command<'a>, AllocError> {
    Command::new(alloc, "stored-server")
        .arg(number(alloc, "connections", "K", 0, MAX_U32))?
        .arg(option(alloc, "store").value_name("NAME"))
}

fn client<'a>(alloc: Global) -> Result<Command<'a>, AllocError> {
    Command::new(alloc, "client")
        .arg(number(alloc, "number", "N", 0, u64::from(MAX_CLIENT)))?
        .arg(number(alloc, "sequence", "Q", 1, MAX_U32).required(false))?
        .arg(option(alloc, "call").value_name("TEXT"))
}

// The commands over scenarios and structures. Each subcommand more in one function costs what those before it cost together,
// so the three kinds of commands are added apart.
fn with_replays<'a>(alloc: Global, program: Command<'a>) -> Result<Command<'a>, AllocError> {
    program
        .subcommand(Command::new(alloc, "replay"))?
        .subcommand(generate(alloc)?)?
        .subcommand(inspection(alloc, "show")?)?
        .subcommand(inspection(alloc, "check")?)
}

// The commands of a drive.
fn with_drives<'a>(alloc: Global, program: Command<'a>) -> Result<Command<'a>, AllocError> {
    program
        .subcommand(drive(alloc)?)?
        .subcommand(stored_drive(alloc)?)
}

// The commands of a server and of a client.
fn with_servers<'a>(alloc: Global, program: Command<'a>) -> Result<Command<'a>, AllocError> {
    program
        .subcommand(server(alloc)?)?
        .subcommand(stored_server(alloc)?)?
        .subcommand(client(alloc)?)
}

// All commands of the program.
fn program<'a>(alloc: Global) -> Result<Command<'a>, AllocError> {
    let replays = with_replays(alloc, Command::new(alloc, "pnfs_osd"))?;
    let drives = with_drives(alloc, replays)?;
    with_servers(alloc, drives)
}

// How a command is used.
fn usage_of(command: &str) -> &'static str {
    match command {
        "replay" => "pnfs_osd replay < SCENARIO",
        "generate" => "pnfs_osd generate N K",
        "show" => "pnfs_osd show KIND < LINES",
        "check" => "pnfs_osd check KIND < LINES",
        "drive" => "pnfs_osd drive --number N --connections K < CLUSTER",
        "stored-drive" => "pnfs_osd stored-drive --number N --connections K --store NAME < CLUSTER",
        "server" => "pnfs_osd server --connections K < CLUSTER",
        "stored-server" => "pnfs_osd stored-server --connections K --store NAME < CLUSTER",
        "client" => "pnfs_osd client --number N [--sequence Q] --call TEXT < CLUSTER",
        _ => "pnfs_osd <COMMAND>",
    }
}

// What `clap` says if the words name no command at all.
const NO_COMMAND: &str = "\
error: 'pnfs_osd' requires a subcommand but one was not provided
  [subcommands: replay, generate, show, check, drive, stored-drive, server, stored-server, client, help]

Usage: pnfs_osd <COMMAND>

For more information, try '--help'.
";

// An error's text with this usage in place of the one that `clap` makes. `override_usage` would do that too, but costs a
// minute of proof: its contract speaks of all fields of a `Command`. The last such line is `clap`'s: the ones before it
// may stand in a word of the user's.
fn with_usage(alloc: Global, text: &str, usage: &str) -> Result<String, AllocError> {
    let Some((before, rest)) = text.rsplit_once("\n\nUsage: ") else {
        return String::from_str(alloc, text);
    };
    let after = match rest.split_once('\n') {
        Some((_, after)) => after,
        None => "",
    };
    format!(in alloc; "{before}\n\nUsage: {usage}\n{after}")
}

/// What `clap` says of words that it doesn't take, the program's name not among them: what is wrong, a suggestion, and
/// how the command is used. `None` if it takes them; a number may still be spelled in a way that the program refuses, or
/// the text of a call be none.
///
/// Nothing rests on this text, so it has no contract.
pub fn refusal_text(alloc: Global, words: &[String]) -> Result<Option<String>, AllocError> {
    let Some(command) = words.first() else {
        return Ok(None);
    };
    let mut all = Vec::new(alloc);
    all.push("pnfs_osd")?;
    for word in words {
        all.push(word.as_str())?;
    }
    match program(alloc)?.try_get_matches_from(all.as_slice()) {
        Ok(_) if command.as_str() == "--" => Ok(Some(String::from_str(alloc, NO_COMMAND)?)),
        Ok(_) => Ok(None),
        Err(e) => {
            let text = format!(in alloc; "{e}")?;
            Ok(Some(with_usage(alloc, text.as_str(), usage_of(command.as_str()))?))
        }
    }
}
