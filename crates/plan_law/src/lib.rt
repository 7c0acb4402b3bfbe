//! The layout of a striped file as the machine of a fenced file (`fence_law`) has it, and what of that machine's guards
//! the plans of `stripe_plan` give: those of layout and bytes; and what the server makes of the rows of a piece that it
//! repairs or rebuilds.
//!
//! Each law speaks of one column at a time: of all data that agree with what was got of that column, whatever was got
//! of others. So the machine's guards, which say no more of the replies to a call, are enough for it.
#![tactic(auto)]

mod laws;

pub use laws::{
    columns_are_known, columns_are_stripes, columns_have_stripes, contents_are_carried,
    decoded_are_words, examples_are_met, layouts_are_codes, payloads_are_right, reads_fit,
    reads_may_answer, rebuilds_are_known, rebuilds_copy_words, rebuilds_write_words,
    repairs_may_write, repairs_stand, repairs_write_words, replies_fit, starts_are_allowed,
    stores_are_right, words_are_known, writable_within, writes_may_start, written_words_are_known,
};
