// The file of a case, and its layouts.
use crate::line::{Field, Line, NUMBERS};
use crate::wire::{CLIENT, put_numbers, size_of};
use osd_lists::{Bytes, Memory};

/// Component 0 stands on this drive, component 1 on the next, and so on.
const FIRST_DRIVE: u32 = 10;

// A drive that no client knows.
const FAR_DRIVE: u32 = 64;

/// The object of component 0 on its drive.
pub const FIRST_OBJECT: u32 = 70_000;

// The lowest partition that a drive may have for objects; each drive has one of its own.
const FIRST_PARTITION: u32 = 65_536;

const KEY: &[u32] = &[0x0707_0707; 5];

// 19 bytes, and one behind them.
const SHORT_KEY: &[u32] = &[
    0x0707_0707,
    0x0707_0707,
    0x0707_0707,
    0x0707_0707,
    0x0707_0700,
];

const LONG_KEY: &[u32] = &[0x0707_0707; 8];

/// What is set in a case: the file of which messages come, how its layouts are written, and how messages are told.
#[derive(Clone, Copy)]
pub struct Setting<'a> {
    /// The number of the file.
    pub file: u32,
    /// Components, unit, width, depth, mirrors and algorithm.
    pub map: [u32; NUMBERS],
    /// How each component is listed, by its letter: `h` here, `-` missing, `o` on a drive that speaks OSD-1, `f` on a
    /// drive that no client knows, `s` with a key that is encrypted, `k` with a key of 19 bytes, `l` with one of 32,
    /// `c` with a capability of 95 bytes, `n` with a capability of format 2 and its key.
    pub letters: &'a str,
    /// The number of the first of them.
    pub index: u32,
    /// Where the byte range of each capability begins.
    pub start: u32,
    /// How many numbers stand behind the layout.
    pub behind: u32,
    /// How many layouts an answer has.
    pub layouts: u32,
    /// Messages are told by their bytes.
    pub digits: bool,
}

/// Three components without parity, in units of four bytes.
pub const STRIPED: Setting<'static> = Setting {
    file: 5,
    map: [3, 4, 0, 0, 0, 1],
    letters: "hhh",
    index: 0,
    start: 0,
    behind: 0,
    layouts: 1,
    digits: false,
};

/// A grant that the server gives.
#[derive(Clone, Copy)]
pub struct Grant {
    pub number: u32,
    /// For writing too.
    pub rw: bool,
    /// From there on bytes of the file are granted.
    pub first: u32,
    pub length: u32,
}

/// The setting behind a line that sets a field.
pub fn with_field<'a>(setting: Setting<'a>, field: Field, line: &Line<'a>) -> Setting<'a> {
    let number = line.numbers[0];
    match field {
        Field::Of => Setting {
            file: number,
            ..setting
        },
        Field::File => Setting {
            map: line.numbers,
            letters: line.text,
            ..setting
        },
        Field::Index => Setting {
            index: number,
            ..setting
        },
        Field::Start => Setting {
            start: number,
            ..setting
        },
        Field::Behind => Setting {
            behind: number,
            ..setting
        },
        Field::Layouts => Setting {
            layouts: number,
            ..setting
        },
        Field::Digits => Setting {
            digits: true,
            ..setting
        },
    }
}

// How a component is listed.
#[derive(Clone, Copy)]
struct Listing {
    version: u32,
    security: u32,
    key_bytes: u32,
    key: &'static [u32],
    // What the capability begins with: its length, and its format with key version 1. None where the component is missing.
    head: Option<[u32; 2]>,
}

const HERE: Listing = Listing {
    version: 2,
    security: 0,
    key_bytes: 20,
    key: KEY,
    head: Some([96, 0x0100_0001]),
};

fn listing_of(letter: u8) -> Listing {
    match letter {
        b'-' => Listing {
            version: 0,
            key_bytes: 0,
            key: &[],
            head: None,
            ..HERE
        },
        b'o' => Listing { version: 1, ..HERE },
        b's' => Listing {
            security: 1,
            ..HERE
        },
        b'k' => Listing {
            key_bytes: 19,
            key: SHORT_KEY,
            ..HERE
        },
        b'l' => Listing {
            key_bytes: 32,
            key: LONG_KEY,
            ..HERE
        },
        // Its last byte is 0, as the padding is.
        b'c' => Listing {
            head: Some([95, 0x0100_0001]),
            ..HERE
        },
        b'n' => Listing {
            key_bytes: 32,
            key: LONG_KEY,
            head: Some([96, 0x0200_0001]),
            ..HERE
        },
        _ => HERE,
    }
}

// A capability for 1,024 bytes of an object with tag 2, until second 100; its length first.
#[rattlefmt::skip]
fn capability(head: [u32; 2], drive: u32, object: u32, grant: &Grant, start: u32) -> [u32; 25] {
    let rights = if grant.rw { 6 } else { 2 };
    let partition = FIRST_PARTITION.wrapping_add(drive);
    let [size, begin] = head;
    [
        size,
        begin,
        rights,
        0,
        100,
        grant.number,
        CLIENT,
        2,
        0,
        0,
        partition,
        0,
        object,
        0,
        start,
        0,
        1_024,
        0,
        0,
        0,
        0,
        0,
        0,
        0,
        0,
    ]
}

// A component, with its credential.
fn put_component(
    bytes: &mut Bytes,
    component: u32,
    letter: u8,
    grant: &Grant,
    start: u32,
) -> Result<(), Memory> {
    let drive = match letter {
        b'f' => FAR_DRIVE,
        _ => FIRST_DRIVE.wrapping_add(component),
    };
    let object = FIRST_OBJECT.wrapping_add(component);
    let Listing {
        version,
        security,
        key_bytes,
        key,
        head,
    } = listing_of(letter);
    let partition = FIRST_PARTITION.wrapping_add(drive);
    put_numbers(
        bytes,
        &[
            0, 0, 0, drive, 0, partition, 0, object, version, security, key_bytes,
        ],
    )?;
    put_numbers(bytes, key)?;
    match head {
        Some(head) => put_numbers(bytes, &capability(head, drive, object, grant, start)),
        None => put_numbers(bytes, &[0]),
    }
}

fn put_components(bytes: &mut Bytes, setting: &Setting<'_>, grant: &Grant) -> Result<(), Memory> {
    let mut component = 0u32;
    for letter in setting.letters.as_bytes() {
        put_component(bytes, component, *letter, grant, setting.start)?;
        component = component.wrapping_add(1);
    }
    Ok(())
}

/// The layout of a grant on a file (RFC 5664 5.2).
#[rattlefmt::skip]
pub fn put_layout(bytes: &mut Bytes, setting: &Setting<'_>, grant: &Grant) -> Result<(), Memory> {
    let [comps, unit, width, depth, mirrors, algorithm] = setting.map;
    let count = size_of(setting.letters.len());
    put_numbers(
        bytes,
        &[comps, 0, unit, width, depth, mirrors, algorithm, setting.index, count],
    )?;
    put_components(bytes, setting, grant)?;
    for _ in 0..setting.behind {
        put_numbers(bytes, &[0])?;
    }
    Ok(())
}
