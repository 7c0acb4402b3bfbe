//! Tests of the crates that stand on few others, over their public calls: what can't be tried from outside, as disks that crash
//! and calls that the program doesn't make; and what was computed apart, as tags, products and messages.
#![tactic(auto)]

#[cfg(test)]
mod ends;
#[cfg(test)]
mod envelopes;
#[cfg(test)]
mod field;
#[cfg(test)]
mod hmac;
#[cfg(test)]
mod judge;
#[cfg(test)]
mod language;
#[cfg(test)]
mod many_connections;
#[cfg(test)]
mod many_nodes;
#[cfg(test)]
mod many_ports;
#[cfg(test)]
mod stored_drives;
#[cfg(test)]
mod stores;
#[cfg(test)]
mod xdr;
#[cfg(test)]
mod zones;
