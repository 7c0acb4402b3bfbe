ghost use Rattle.std.specs.Prelude.{◌≡◌, ◌+◌, ◌-◌, ◌≤◌, ◌<◌, ◌^◌, ◌/◌, ◌%◌, ◌++◌, ℕ, List, Some, length, OnOk, OnErr, IfOk, IsSome, replicate};
ghost use Rattle.osd_objects.specs.Pages.{page_at, span, with_page, with_pages, without_pages, with_part, AreFull, HavePages, IsOverlaid};

use osd_lists::{Bytes, Memory, put_at};
use std::alloc::Global;
use std::collections::BTreeMap;

/// The bytes of a page.
pub const PAGE_BYTES: u64 = 4_096;

// A page of zeros.
fn zeros(alloc: Global) -> Result<Bytes, Memory>
    ensures { IfOk result (λ page. page ≡ replicate PAGE_BYTES 0) }
{
    let mut page = Bytes::new(alloc);
    page.grow(PAGE_BYTES as usize)?;
    Ok(page)
}

// Adds a page of zeros and its number, unless the page is there. Where there is no memory nothing changes.
fn add_page(
    pages: &mut BTreeMap<u64, Bytes>,
    alloc: Global,
    number: u64,
    added: &mut Vec<u64>,
) -> Result<(), Memory>
    ensures ok { OnOk result (pages.new.entries ≡ with_page pages.old.entries number) }
    ensures err { OnErr result (pages.new.entries ≡ pages.old.entries) }
    ensures back { without_pages pages.new.entries added.new.items ≡ without_pages pages.old.entries added.old.items }
{
    if pages.contains_key(&number) {
        return Ok(());
    }
    pages.insert(number, zeros(alloc)?)?;
    match added.push(number) {
        Ok(()) => Ok(()),
        Err(_) => {
            pages.remove(&number);
            Err(Memory)
        }
    }
}

// Takes out the pages of these numbers, the last first.
fn take_out(pages: &mut BTreeMap<u64, Bytes>, mut numbers: Vec<u64>)
    ensures { pages.new.entries ≡ without_pages pages.old.entries numbers.items }
{
    while let Some(number) = numbers.pop() {
        pages.remove(&number);
    }
}

/// Adds a page of zeros for each number from `first` to before `end` that has none. Where there is no
/// memory for all of them, the pages are as before.
pub fn fill(
    pages: &mut BTreeMap<u64, Bytes>,
    alloc: Global,
    first: u64,
    end: u64,
) -> Result<(), Memory>
    ensures ok { OnOk result (pages.new.entries ≡ with_pages pages.old.entries first (end - first)) }
    ensures err { OnErr result (pages.new.entries ≡ pages.old.entries) }
{
    let mut added = Vec::new(alloc);
    let mut number = first;
    while number < end {
        match add_page(pages, alloc, number, &mut added) {
            Ok(()) => number += 1,
            Err(cause) => {
                take_out(pages, added);
                return Err(cause);
            }
        }
    }
    Ok(())
}

/// How many bytes there are from a place on to the end of its page.
pub fn left_in_page(at: u64) -> u64
    ensures { result ≡ PAGE_BYTES - at % PAGE_BYTES }
{
    PAGE_BYTES - at % PAGE_BYTES
}

/// Writes bytes over those of a page, which has to be there and whole, from a place on.
pub fn put_part(pages: &mut BTreeMap<u64, Bytes>, at: u64, part: &[u8])
    requires there { (page : List ℕ) × (page_at pages.old.entries (at / PAGE_BYTES) ≡ Some page) ×
        (length page ≡ PAGE_BYTES) }
    requires inside { at % PAGE_BYTES + length part.now ≤ PAGE_BYTES }
    ensures { pages.new.entries ≡ with_part pages.old.entries at part.now }
{
    if let Some(page) = pages.get_mut(&(at / PAGE_BYTES)) {
        put_at(page.as_mut_slice(), (at % PAGE_BYTES) as usize, part);
    }
}

/// Adds bytes of one page to a list, zeros where there is no such page.
pub fn add_part(
    pages: &BTreeMap<u64, Bytes>,
    at: u64,
    count: u64,
    into: &mut Bytes,
) -> Result<(), Memory>
    requires full { AreFull pages.now.entries }
    requires inside { at % PAGE_BYTES + count ≤ PAGE_BYTES }
    requires room { length into.old + count < 2 ^ 63 }
    ensures { OnOk result (into.new ≡ into.old ++ span pages.now.entries at count) }
{
    let within = (at % PAGE_BYTES) as usize;
    let count = count as usize;
    match pages.get(&(at / PAGE_BYTES)) {
        Some(page) => {
            let (_, rest) = page.as_slice().split_at(within);
            let (part, _) = rest.split_at(count);
            into.extend_from_slice(part)
        }
        None => into.grow(into.len() + count),
    }
}

/// Writes bytes over those from a place on, all of whose pages have to be there.
pub fn put_over(pages: &mut BTreeMap<u64, Bytes>, offset: u64, bytes: &[u8])
    requires there { HavePages pages.old.entries offset (length bytes.now) }
    requires full { AreFull pages.old.entries }
    requires end { offset + length bytes.now < 2 ^ 63 }
    ensures { IsOverlaid pages.old.entries offset bytes.now pages.new.entries }
{
    let mut at = 0;
    while at < bytes.len() {
        let (_, rest) = bytes.split_at(at);
        let place = offset + at as u64;
        let size = left_in_page(place).min(rest.len() as u64);
        let (part, _) = rest.split_at(size as usize);
        put_part(pages, place, part);
        at += part.len();
    }
}

/// The bytes from `offset` to before `end`, zeros where no page is.
pub fn bytes_between(
    alloc: Global,
    pages: &BTreeMap<u64, Bytes>,
    offset: u64,
    end: u64,
) -> Result<Bytes, Memory>
    requires full { AreFull pages.now.entries }
    requires end { end < 2 ^ 63 }
    ensures { IfOk result (λ bytes. bytes ≡ span pages.now.entries offset (end - offset)) }
{
    let mut bytes = Bytes::new(alloc);
    let mut at = offset;
    while at < end {
        let size = left_in_page(at).min(end - at);
        add_part(pages, at, size, &mut bytes)?;
        at += size;
    }
    Ok(bytes)
}
