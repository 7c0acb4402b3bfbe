//! Tests of the metadata server, its parts and the client, over their public calls alone.
//!
//! Of the server as a whole a case is a table of moves, each beside all that the server then notes and sends, in words
//! (`bench`). Of a client it is a table of lines, each beside the text of all that the client then sends, in order, and how
//! its call ended (`talk`). What comes is spelled from the fields of RFC 5661, RFC 5664 and `docs/rules/MESSAGES.md`,
//! apart from the codecs; what goes out is told by what stands at its places (`places`), or by all its bytes. What is
//! expected was worked out by hand from the tables of `docs/rules/SERVER.md` and `docs/rules/CLIENT.md`.
#![tactic(auto)]

#[cfg(test)]
mod bench;
#[cfg(test)]
mod client_layouts;
#[cfg(test)]
mod declared;
#[cfg(test)]
mod fences;
#[cfg(test)]
mod formats;
#[cfg(test)]
mod grants;
#[cfg(test)]
mod jobs;
#[cfg(test)]
mod journals;
#[cfg(test)]
mod line;
#[cfg(test)]
mod moves;
#[cfg(test)]
mod named_orders;
#[cfg(test)]
mod named_plans;
#[cfg(test)]
mod places;
#[cfg(test)]
mod placing;
#[cfg(test)]
mod reads;
#[cfg(test)]
mod recalls;
#[cfg(test)]
mod refusals;
#[cfg(test)]
mod refused;
#[cfg(test)]
mod reports;
#[cfg(test)]
mod restarts;
#[cfg(test)]
mod rows;
#[cfg(test)]
mod setting;
#[cfg(test)]
mod slots;
#[cfg(test)]
mod spelled;
#[cfg(test)]
mod starts;
#[cfg(test)]
mod talk;
#[cfg(test)]
mod timeouts;
#[cfg(test)]
mod told;
#[cfg(test)]
mod wire;
#[cfg(test)]
mod words;
#[cfg(test)]
mod writes;
