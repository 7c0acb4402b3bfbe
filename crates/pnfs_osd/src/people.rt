// What a person is told on standard error of how a run ended.
use crate::refused_line::refused_line;
use crate::usage::PROGRAM;
use advice::{
    Asker, failed_disk, failed_links, no_number, refused_cluster, refused_store, refused_words,
};
use cluster_text::Reader;
use osd_links::{FileCause, LinkFault};
use pnfs_run::Status;
use pnfs_run::replay::Quantity;
use std::alloc::{AllocError, Global};
use std::io::Eprint;

/// What the ends of a run know of why it stopped.
#[derive(Clone, Copy)]
pub struct Causes<'a> {
    /// What was read, as far as it was kept.
    pub input: Option<&'a [u8]>,
    /// What failed last of the ports or on the links.
    pub links: Option<LinkFault<'a>>,
    /// What failed last on the disk.
    pub disk: Option<&'a FileCause>,
}

// The party that the words name.
fn asker_of(words: &[String]) -> Asker {
    match words.first() {
        Some(word) if matches!(word.as_str(), "drive" | "stored-drive") => Asker::Drive,
        Some(word) if matches!(word.as_str(), "server" | "stored-server") => Asker::Server,
        _ => Asker::Client,
    }
}

// The value of an option of this name, as in `--number 1` or `--number=1`.
fn value_of<'a>(words: &'a [String], name: &str) -> Option<&'a str> {
    let mut is_next = false;
    for word in words {
        let word = word.as_str();
        if is_next {
            return Some(word);
        }
        if let Some(rest) = word.strip_prefix(name) {
            if let Some(value) = rest.strip_prefix('=') {
                return Some(value);
            }
            is_next = rest.is_empty();
        }
    }
    None
}

// The value of `--number`.
fn number_in(words: &[String]) -> Option<u32> {
    value_of(words, "--number")?.parse().ok()
}

// The value of `--store`.
fn store_in(words: &[String]) -> &str {
    value_of(words, "--store").unwrap_or("")
}

// Who reads the cluster text.
fn reader_of(words: &[String]) -> Reader {
    match asker_of(words) {
        Asker::Drive => Reader::Drive(number_in(words).unwrap_or(0)),
        Asker::Server => Reader::Server,
        Asker::Client => Reader::Client,
    }
}

fn words_text(alloc: Global, words: &[String]) -> Result<String, AllocError> {
    if words.is_empty() {
        return format!(in alloc; "pnfs_osd: no command\n{PROGRAM}");
    }
    refused_words(alloc, words)
}

fn full_text(quantity: Quantity) -> &'static str {
    match quantity {
        Quantity::Input => "pnfs_osd: the input has more than 67108864 bytes\n",
        Quantity::Line => "pnfs_osd: a line of the input has more than 600000 bytes\n",
        Quantity::Kept =>
            "pnfs_osd: the drives, the server and the clients of the scenario would keep more than 268435456 bytes\n",
    }
}

// What is told of an end, if anything is.
fn text_of(
    alloc: Global,
    status: &Status,
    words: &[String],
    causes: Causes<'_>,
) -> Result<String, AllocError> {
    match status {
        Status::Done | Status::Refused { .. } => Ok(String::new(alloc)),
        Status::BadWords => words_text(alloc, words),
        Status::BadScenario { line, kind } => refused_line(alloc, *line, *kind, causes.input),
        Status::ReadFault => String::from_str(
            alloc,
            "pnfs_osd: standard input could not be read\n",
        ),
        Status::WriteFault => String::from_str(
            alloc,
            "pnfs_osd: standard output could not be written: its end is missing\n",
        ),
        Status::Memory => String::from_str(alloc, "pnfs_osd: there was no memory\n"),
        Status::Full { quantity } => String::from_str(alloc, full_text(*quantity)),
        Status::LinkFault => failed_links(alloc, asker_of(words), causes.links),
        Status::Unnumbered => no_number(alloc, causes.links),
        Status::BadCluster { kind } => {
            refused_cluster(alloc, reader_of(words), *kind, causes.input)
        }
        Status::DiskFault => { failed_disk(alloc, asker_of(words), store_in(words), causes.disk) }
        Status::BadStore { at } => refused_store(alloc, asker_of(words), store_in(words), *at),
    }
}

/// Tells a person on standard error how a run ended. Where that fails, or there is no memory for it, nothing is told.
pub fn tell<R: Eprint + Drop>(
    rt: R,
    alloc: Global,
    status: &Status,
    words: &[String],
    causes: Causes<'_>,
) {
    if let Ok(text) = text_of(alloc, status, words, causes) {
        if !text.is_empty() {
            let _told = rt.eprint(text);
        }
    }
}
