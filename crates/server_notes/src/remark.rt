use server_rules::Note;

/// What stands in front of a remark in a record: no list of entries has so many.
pub const NOTED: u32 = 4_294_967_294;

/// What a record tells of notes, besides the server's steps.
#[derive(Drop)]
pub enum Remark {
    /// A note that asks for something.
    Asks { note: Note },
    /// An operator has dealt with what the notes of this file ask for.
    Dealt { file: u32 },
}
