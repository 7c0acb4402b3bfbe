//! What a record that came back says of the message that it is to answer.
//!
//! [`is_answer_to`] tells whether it answers a request of a client. [`creation_told`] has what a drive's reply says
//! of the object that a CREATE is to make.
#![tactic(auto)]

mod answers;
mod making;

pub use answers::is_answer_to;
pub use making::{Creation, created_object, creation_told};
