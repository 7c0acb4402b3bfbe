ghost use Rattle.std.specs.Prelude.{◌≡◌, ◌<◌, ◌≤◌, ◌^◌, ◌-◌, ◌==◌, ◌∷◌, [], position, IsTrue, ◌↔◌, IfOk, MatchResult};
ghost use Rattle.scenario_text.specs.Words.{parts_left};
ghost use Rattle.std.specs.List.{slice_split};
ghost use Rattle.scenario_text.specs.Reading.{first, after, nothing, next_as, positions_of, decimal_of, IsPlain};
ghost use Rattle.scenario_text.specs.Reading.{name_of, number_of, u32_of, u64_of, bytes_of, key_of, is_server};
ghost use Rattle.scenario_text.specs.Reading.{server_of, sender_of, machine_of, party_of, GivesOrMemory};

use crate::event::{EventErr, Machine, Sender};
use crate::hexadecimal::{Digits, bytes, key};
use crate::line::Party;
use crate::names::{ClientName, DriveName, Name};
use memchr::memchr;
use osd_lists::{Bytes, Numbers};
use std::alloc::Global;
use std::marker::Model;

fn is_plain(word: &[u8]) -> bool
    ensures { IsTrue result ↔ IsPlain word.now }
{
    match word {
        [] | [b'+', ..] => false,
        [b'0', digits @ ..] => digits.is_empty(),
        _ => true,
    }
}

/// The number of 64 bits that a word spells in decimal digits, without a sign and without leading zeros, `None` if it
/// spells none.
pub fn decimal(word: &[u8]) -> Option<u64>
    ensures { result ≡ decimal_of word.now }
{
    if !is_plain(word) {
        return None;
    }
    match str::from_utf8(word) {
        Ok(text) => text.parse().ok(),
        Err(_) => None,
    }
}

#[tactic(auto, unfolding(crate::specs::Reading::number_of))]
fn number(word: &[u8], least: u64, most: u64) -> Result<u64, EventErr>
    ensures value { result ≡ number_of least most word.now }
    ensures range { IfOk result (λ n. (least ≤ n) × (n ≤ most)) }
{
    match decimal(word) {
        Some(n) if least <= n && n <= most => Ok(n),
        _ => Err(EventErr::BadNumber),
    }
}

#[tactic(auto, unfolding(crate::specs::Reading::name_of))]
fn name<const LETTER: u8, const COUNT: u32>(word: &[u8]) -> Result<Name<LETTER, COUNT>, EventErr>
    ensures { result ≡ name_of LETTER COUNT word.now }
{
    match word {
        [first, digits @ ..] if *first == LETTER => match decimal(digits) {
            Some(n) if n < u64::from(COUNT) => Name::new(n as u32).ok_or(EventErr::BadName),
            _ => Err(EventErr::BadName),
        },
        _ => Err(EventErr::BadName),
    }
}

fn is_server(word: &[u8]) -> bool
    ensures { result ≡ is_server word.now }
{
    word == b"s".as_slice()
}

#[tactic(auto, unfolding(crate::specs::Reading::server_of))]
fn server(word: &[u8]) -> Result<(), EventErr>
    ensures { result ≡ server_of word.now }
{
    if is_server(word) {
        Ok(())
    } else {
        Err(EventErr::BadName)
    }
}

#[tactic(auto, unfolding(crate::specs::Reading::sender_of))]
fn sender(word: &[u8]) -> Result<Sender, EventErr>
    ensures { result ≡ sender_of word.now }
{
    if is_server(word) {
        return Ok(Sender::Server);
    }
    let client: ClientName = name(word)?;
    Ok(Sender::Client { client })
}

#[tactic(auto, unfolding(crate::specs::Reading::machine_of))]
fn machine(word: &[u8]) -> Result<Machine, EventErr>
    ensures { result ≡ machine_of word.now }
{
    if is_server(word) {
        return Ok(Machine::Server);
    }
    let drive: DriveName = name(word)?;
    Ok(Machine::Drive { drive })
}

#[tactic(auto, unfolding(crate::specs::Reading::party_of))]
fn party(word: &[u8]) -> Result<Party, EventErr>
    ensures { result ≡ party_of word.now }
{
    if is_server(word) {
        return Ok(Party::Server);
    }
    if let Ok(drive) = name(word) {
        return Ok(Party::Drive { drive });
    }
    let client: ClientName = name(word)?;
    Ok(Party::Client { client })
}

fn first_place(line: &[u8], separator: u8) -> Option<usize>
    ensures { result ≡ position (λ b. b == separator) line.now }
{
    memchr(separator, line)
}

// What stands before the first separator, and what follows it, if there is one.
fn cut_first(line: &[u8], separator: u8) -> (&[u8], Option<&[u8]>)
    ensures { slice_split (λ b. b == separator) line.now ≡ result.0.now ∷ parts_left separator result.1 }
{
    match first_place(line, separator) {
        Some(end) => (&line[..end], Some(&line[end + 1..])),
        None => (line, None),
    }
}

// The words of a line that are still to be read.
#[derive(Drop)]
pub(crate) struct Words<'a> {
    rest: Option<&'a [u8]>,
    separator: u8,
}

impl<'a> Model for Words<'a> {
    ghost use Rattle.std.specs.Prelude.{List, ℕ};
    ghost use Rattle.scenario_text.specs.Words.{parts_left};

    ghost Value = { List (List ℕ) };

    ghost view = { λ words. parts_left words.separator words.rest };
}

impl<'a> Words<'a> {
    pub(crate) fn new(line: &'a [u8], separator: u8) -> Self
        ensures { result ≡ slice_split (λ b. b == separator) line.now }
    {
        Words {
            rest: Some(line),
            separator,
        }
    }

    pub(crate) fn word(&mut self) -> Result<&'a [u8], EventErr>
        ensures value { MatchResult result (λ word. first self.old ≡ Ok word.now) (λ e. first self.old ≡ Err e) }
        ensures rest { self.new ≡ after self.old }
    {
        match self.rest {
            Some(line) => {
                let (word, rest) = cut_first(line, self.separator);
                self.rest = rest;
                Ok(word)
            }
            None => Err(EventErr::Missing),
        }
    }

    pub(crate) fn end(&self) -> Result<(), EventErr>
        ensures { result ≡ nothing self.now }
    {
        match self.rest {
            Some(_) => Err(EventErr::Extra),
            None => Ok(()),
        }
    }

    pub(crate) fn name<const LETTER: u8, const COUNT: u32>(
        &mut self,
    ) -> Result<Name<LETTER, COUNT>, EventErr>
        ensures value { result ≡ next_as (name_of LETTER COUNT) self.old }
        ensures rest { self.new ≡ after self.old }
    {
        name(self.word()?)
    }

    // A number of that range.
    pub(crate) fn u32_in(&mut self, least: u32, most: u32) -> Result<u32, EventErr>
        ensures value { result ≡ next_as (number_of least most) self.old }
        ensures rest { self.new ≡ after self.old }
    {
        let n = number(self.word()?, u64::from(least), u64::from(most))?;
        Ok(n as u32)
    }

    pub(crate) fn u32(&mut self) -> Result<u32, EventErr>
        ensures value { result ≡ next_as u32_of self.old }
        ensures rest { self.new ≡ after self.old }
    {
        self.u32_in(0, u32::MAX)
    }

    pub(crate) fn u64(&mut self) -> Result<u64, EventErr>
        ensures value { result ≡ next_as u64_of self.old }
        ensures rest { self.new ≡ after self.old }
    {
        number(self.word()?, 0, u64::MAX)
    }

    // A policy access tag, from 1.
    pub(crate) fn tag(&mut self) -> Result<u32, EventErr>
        ensures value { result ≡ next_as (number_of 1 4294967295) self.old }
        ensures rest { self.new ≡ after self.old }
    {
        self.u32_in(1, u32::MAX)
    }

    // A capability format, 1 or 2.
    pub(crate) fn format(&mut self) -> Result<u8, EventErr>
        ensures value { result ≡ next_as (number_of 1 2) self.old }
        ensures rest { self.new ≡ after self.old }
    {
        let n = number(self.word()?, 1, 2)?;
        Ok(n as u8)
    }

    pub(crate) fn key(&mut self, digits: Digits) -> Result<[u8; 20], EventErr>
        ensures value { result ≡ next_as (key_of digits) self.old }
        ensures rest { self.new ≡ after self.old }
    {
        key(digits, self.word()?)
    }

    pub(crate) fn bytes(&mut self, alloc: Global, digits: Digits) -> Result<Bytes, EventErr>
        ensures value { GivesOrMemory (next_as (bytes_of digits) self.old) result }
        ensures rest { self.new ≡ after self.old }
    {
        bytes(alloc, digits, self.word()?)
    }

    // The word `s`, which names the server.
    pub(crate) fn server(&mut self) -> Result<(), EventErr>
        ensures value { result ≡ next_as server_of self.old }
        ensures rest { self.new ≡ after self.old }
    {
        server(self.word()?)
    }

    pub(crate) fn sender(&mut self) -> Result<Sender, EventErr>
        ensures value { result ≡ next_as sender_of self.old }
        ensures rest { self.new ≡ after self.old }
    {
        sender(self.word()?)
    }

    pub(crate) fn machine(&mut self) -> Result<Machine, EventErr>
        ensures value { result ≡ next_as machine_of self.old }
        ensures rest { self.new ≡ after self.old }
    {
        machine(self.word()?)
    }

    pub(crate) fn party(&mut self) -> Result<Party, EventErr>
        ensures value { result ≡ next_as party_of self.old }
        ensures rest { self.new ≡ after self.old }
    {
        party(self.word()?)
    }

    // A position of at least `least`.
    fn position(&mut self, least: u64) -> Result<u32, EventErr>
        ensures value { result ≡ next_as (number_of least 4294967295) self.old }
        ensures rest { self.new ≡ after self.old }
    {
        let n = number(self.word()?, least, u64::from(u32::MAX))?;
        Ok(n as u32)
    }

    pub(crate) fn positions(&mut self, alloc: Global) -> Result<Numbers, EventErr>
        ensures value { GivesOrMemory (next_as positions_of self.old) result }
        ensures rest { self.new ≡ after self.old }
    {
        positions(alloc, self.word()?)
    }

    pub(crate) fn is_done(&self) -> bool
        ensures { IsTrue result ↔ (self.now ≡ []) }
    {
        match self.end() {
            Ok(()) => true,
            Err(_) => false,
        }
    }
}

#[tactic(auto, unfolding(crate::specs::Reading::positions_of))]
fn positions(alloc: Global, word: &[u8]) -> Result<Numbers, EventErr>
    ensures { GivesOrMemory (positions_of word.now) result }
{
    let mut parts = Words::new(word, b',');
    let mut positions = Numbers::new(alloc);
    let mut least = 0;
    while !parts.is_done() {
        let position = parts.position(least)?;
        positions.push(position)?;
        least = u64::from(position) + 1;
    }
    Ok(positions)
}
