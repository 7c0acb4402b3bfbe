//! The language of scenarios and of their transcripts.
//!
//! A scenario has one [`Event`] a line, a transcript one [`Line`]. What the words of a line say is one
//! table, in `specs/Spelling.antt` and `specs/LineSpelling.antt`, which stands apart from reading and
//! from writing.
#![tactic(auto)]

mod by_table;
mod event;
mod event_reader;
mod event_writer;
mod group;
mod hexadecimal;
mod keyword;
mod line;
mod line_keyword;
mod line_reader;
mod line_writer;
mod names;
mod note_reader;
mod outcome_reader;
mod words;
mod write;

pub use event::{Call, Event, EventErr, FileMap, Machine, Sender};
pub use event_reader::read_event;
pub use line::{
    CallKind, Delivery, Ending, LayoutFault, Line, MapFault, Note, Outcome, Party, Refusal, Verdict,
};
pub use line_reader::read_line;
pub use line_writer::{append_lines, write_line, write_lines};
pub use names::{CLIENTS, ClientName, DRIVES, DriveName, FILES, FileName, Name};
pub use words::decimal;
