// The keys of a cluster text, and what they may be.
use cluster_text::{MAX_DRIVES, MAX_FILES};

// The kinds of tables.
#[derive(Clone, Copy, PartialEq, Eq)]
pub(crate) enum Section {
    Top,
    Drive,
    File,
}

// What a value has to be.
#[derive(Clone, Copy)]
pub(crate) enum Form {
    // A text with a host, a colon and a port.
    Address,
    // A text of 40 hexadecimal digits.
    Key,
    // A whole number, from the first to the second.
    Whole(i64, i64),
    Tables,
}

// When a key has to stand.
#[derive(Clone, Copy)]
pub(crate) enum Need {
    Always,
    // If the reader needs the drives' keys.
    WithKeys,
    Never,
}

pub(crate) struct Key {
    pub(crate) name: &'static str,
    pub(crate) form: Form,
    pub(crate) need: Need,
    // What its value may be, in words.
    pub(crate) wanted: &'static str,
}

const MAX_U32: i64 = 4_294_967_295;

// The greatest numbers of a drive and of a file.
const LAST_DRIVE: i64 = MAX_DRIVES as i64 - 1;

const LAST_FILE: i64 = MAX_FILES as i64 - 1;

const ADDRESS: &str = "a host and a port in quotation marks, as \"127.0.0.1:7100\",";

const NUMBER: &str = "a whole number from 0 to 63";

#[rattlefmt::skip]
const TOP: &[Key] = &[
    Key { name: "server", form: Form::Address, need: Need::Always, wanted: ADDRESS },
    Key { name: "format", form: Form::Whole(1, 2), need: Need::Never, wanted: "1 or 2" },
    Key { name: "drive", form: Form::Tables, need: Need::Always, wanted: "tables, each below a line [[drive]]" },
    Key { name: "file", form: Form::Tables, need: Need::Never, wanted: "tables, each below a line [[file]]" },
];

#[rattlefmt::skip]
const DRIVE: &[Key] = &[
    Key { name: "number", form: Form::Whole(0, LAST_DRIVE), need: Need::Always, wanted: NUMBER },
    Key { name: "address", form: Form::Address, need: Need::Always, wanted: ADDRESS },
    Key { name: "key", form: Form::Key, need: Need::WithKeys, wanted: "40 hexadecimal digits in quotation marks" },
    Key { name: "capacity", form: Form::Whole(0, i64::MAX), need: Need::Always,
        wanted: "a whole number of bytes, from 0," },
];

#[rattlefmt::skip]
const FILE: &[Key] = &[
    Key { name: "number", form: Form::Whole(0, LAST_FILE), need: Need::Always, wanted: NUMBER },
    Key { name: "components", form: Form::Whole(0, MAX_U32), need: Need::Always,
        wanted: "a whole number, at most 64 and the number of drives," },
    Key { name: "unit", form: Form::Whole(0, i64::MAX), need: Need::Always,
        wanted: "a whole number of bytes, from 1 to 1048576," },
    Key { name: "width", form: Form::Whole(0, MAX_U32), need: Need::Always,
        wanted: "a whole number of positions, 0 where all are one group," },
    Key { name: "depth", form: Form::Whole(0, MAX_U32), need: Need::Always,
        wanted: "a whole number of stripes, 0 without groups," },
    Key { name: "mirrors", form: Form::Whole(0, MAX_U32), need: Need::Always,
        wanted: "a whole number of further replicas, from 0," },
    Key { name: "algorithm", form: Form::Whole(1, 4), need: Need::Always,
        wanted: "1 (RAID 0), 2 (RAID 4), 3 (RAID 5) or 4 (P+Q)" },
];

impl Section {
    // The keys of its tables.
    pub(crate) fn keys(self) -> &'static [Key] {
        match self {
            Section::Top => TOP,
            Section::Drive => DRIVE,
            Section::File => FILE,
        }
    }

    // How its tables are headed.
    pub(crate) fn name(self) -> &'static str {
        match self {
            Section::Top => "the top of the text",
            Section::Drive => "[[drive]]",
            Section::File => "[[file]]",
        }
    }
}

impl Key {
    // Whether it has to stand, if the reader needs the drives' keys or doesn't.
    pub(crate) fn is_needed(&self, needs_keys: bool) -> bool {
        match self.need {
            Need::Always => true,
            Need::WithKeys => needs_keys,
            Need::Never => false,
        }
    }
}
