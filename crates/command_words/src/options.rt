// The simple commands that read the options.
ghost use Rattle.std.specs.Prelude.{◌≡◌, false, IfOk};
ghost use Rattle.clap.specs.Words.{app_of, rule_of, with_rule};
ghost use Rattle.command_words.specs.Options.{client_options, drive_options, option_rule, optional_rule, server_options};
ghost use Rattle.command_words.specs.StoredAsked.{stored_drive_options, stored_server_options};

use clap::{Arg, ArgAction, Command};
use std::alloc::{AllocError, Global};

// A required option that takes a text.
pub(crate) fn option<'a>(alloc: Global, id: &'a str) -> Arg<'a>
    ensures rule { rule_of result ≡ option_rule id.entry.now }
    ensures local { result.global ≡ false }
{
    Arg::new(alloc, id)
        .long(id)
        .required(true)
        .action(ArgAction::Set)
}

// An option that takes a text, and may be missing.
fn optional<'a>(alloc: Global, id: &'a str) -> Arg<'a>
    ensures rule { rule_of result ≡ optional_rule id.entry.now }
    ensures local { result.global ≡ false }
{
    Arg::new(alloc, id).long(id).action(ArgAction::Set)
}

// The command with one more option.
fn with_option<'a>(
    alloc: Global,
    command: Command<'a>,
    id: &'a str,
) -> Result<Command<'a>, AllocError>
    ensures { IfOk result (λ c. app_of c ≡ with_rule (app_of command.entry) (option_rule id.entry.now)) }
{
    command.arg(option(alloc, id))
}

// The command with one more option that may be missing.
fn with_optional<'a>(
    alloc: Global,
    command: Command<'a>,
    id: &'a str,
) -> Result<Command<'a>, AllocError>
    ensures { IfOk result (λ c. app_of c ≡ with_rule (app_of command.entry) (optional_rule id.entry.now)) }
{
    command.arg(optional(alloc, id))
}

// `drive --number N --connections K`
pub(crate) fn drive_options<'a>(alloc: Global) -> Result<Command<'a>, AllocError>
    ensures { IfOk result (λ c. app_of c ≡ drive_options) }
{
    let command = with_option(alloc, Command::new(alloc, "drive"), "number")?;
    with_option(alloc, command, "connections")
}

// `stored-drive --number N --connections K --store NAME`
pub(crate) fn stored_drive_options<'a>(alloc: Global) -> Result<Command<'a>, AllocError>
    ensures { IfOk result (λ c. app_of c ≡ stored_drive_options) }
{
    let command = with_option(alloc, Command::new(alloc, "stored-drive"), "number")?;
    let command = with_option(alloc, command, "connections")?;
    with_option(alloc, command, "store")
}

// `server --connections K`
pub(crate) fn server_options<'a>(alloc: Global) -> Result<Command<'a>, AllocError>
    ensures { IfOk result (λ c. app_of c ≡ server_options) }
{
    with_option(alloc, Command::new(alloc, "server"), "connections")
}

// `stored-server --connections K --store NAME`
pub(crate) fn stored_server_options<'a>(alloc: Global) -> Result<Command<'a>, AllocError>
    ensures { IfOk result (λ c. app_of c ≡ stored_server_options) }
{
    let command = with_option(alloc, Command::new(alloc, "stored-server"), "connections")?;
    with_option(alloc, command, "store")
}

// `client --number N [--sequence Q] --call TEXT`
pub(crate) fn client_options<'a>(alloc: Global) -> Result<Command<'a>, AllocError>
    ensures { IfOk result (λ c. app_of c ≡ client_options) }
{
    let command = with_option(alloc, Command::new(alloc, "client"), "number")?;
    let command = with_optional(alloc, command, "sequence")?;
    with_option(alloc, command, "call")
}
