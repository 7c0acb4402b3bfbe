// Why words name no command.
use crate::calls::refused_call;
use command_words::refusal_text;
use std::alloc::{AllocError, Global};

const SPELLING: &str = "\
error: a number isn't spelled in decimal digits alone, without a sign or leading zeros

For more information, try '--help'.
";

// What a person may have meant who names a file.
fn tip_of(command: &str) -> Option<&'static str> {
    match command {
        "replay" => Some(
            "  tip: replay reads standard input: pnfs_osd replay < scenarios/striped.txt\n",
        ),
        "show" | "check" => Some(
            "  tip: the structures are read from standard input, a line each: pnfs_osd show KIND < FILE\n",
        ),
        "drive" | "stored-drive" | "server" | "stored-server" | "client" => Some(
            "  tip: the cluster text is read from standard input: .. < scenarios/cluster.toml\n",
        ),
        _ => None,
    }
}

// Whether a word may be the name of a file.
fn looks_like_file(word: &str) -> bool {
    !word.starts_with('-') && !word.contains(' ') && (word.contains('.') || word.contains('/'))
}

// A tip for words among which a file is named.
fn tip(words: &[String]) -> Option<&'static str> {
    let (command, rest) = words.split_first()?;
    if rest.iter().any(|word| looks_like_file(word.as_str())) {
        tip_of(command.as_str())
    } else {
        None
    }
}

// What is said of words that clap takes.
fn misspelled(alloc: Global, call: Option<&str>) -> Result<String, AllocError> {
    if let Some(call) = call {
        if let Some(text) = refused_call(alloc, call)? {
            return Ok(text);
        }
    }
    String::from_str(alloc, SPELLING)
}

// The text of a client's option `--call`, among words that clap takes.
fn call_in(words: &[String]) -> Option<&str> {
    let (command, rest) = words.split_first()?;
    if command.as_str() != "client" {
        return None;
    }
    let mut is_next = false;
    for word in rest {
        let word = word.as_str();
        if is_next {
            return Some(word);
        }
        if let Some(text) = word.strip_prefix("--call=") {
            return Some(text);
        }
        is_next = word == "--call";
    }
    None
}

// What clap says of the words, or else why the program doesn't take them.
fn complaint(alloc: Global, words: &[String]) -> Result<String, AllocError> {
    match refusal_text(alloc, words)? {
        Some(text) => Ok(text),
        None => misspelled(alloc, call_in(words)),
    }
}

/// What a person is told of words that name no command, the program's name not among them: `clap`'s own message with its
/// suggestion, what is wrong with the text of a call, and a tip where a file is named that is to be standard input.
pub fn refused_words(alloc: Global, words: &[String]) -> Result<String, AllocError> {
    let mut text = complaint(alloc, words)?;
    if let Some(tip) = tip(words) {
        text.push_str(tip)?;
    }
    Ok(text)
}
