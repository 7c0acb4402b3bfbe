//! Tests of the program's commands over connections in memory, over public calls alone: what can't be tried from outside, as
//! streams and links that fail, call by call, and another rule of placing.
#![tactic(auto)]

#[cfg(test)]
mod clients;
#[cfg(test)]
mod ends;
#[cfg(test)]
mod faults;
#[cfg(test)]
mod messages;
#[cfg(test)]
mod parties;
#[cfg(test)]
mod placing;
#[cfg(test)]
mod runs;
#[cfg(test)]
mod scripts;
#[cfg(test)]
mod streams;
#[cfg(test)]
mod zoning;
