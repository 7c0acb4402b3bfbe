//! Components of files and their objects, in every history: how the server changes them, what clients and the server know
//! of them, what the server sends them, their zones and their tags.
//!
//! # Components and tags of files
//!
//! What each step of the server does to the components and the tag of a file, and so what holds of the server that is
//! read off the lines of a history. No two files have one number, and the components of a file stand on different
//! drives. A step changes components as its notes tell, but for those that it rebuilds, and those on a drive that is
//! declared.
//!
//! # Zones
//!
//! Laws of zoned files: over every step of the server no zone has more components of a group than may be lost, so that
//! nothing is lost when a zone fails.
//!
//! # What clients and the server know
//!
//! What clients and the server know of each other, and of the drives.
//!
//! A history is that of `world_history`. A client knows the size of each file on which the server has a grant of it,
//! and lists under it the components that the server has. The live grants of each file stand in the order in which
//! they were given. Each drive has the key with which the server seals for it, one that the server has offline has
//! failed, and no return that is due rests at an idle client.
//!
//! # What the server sends
//!
//! What the server sends to drives, over every list of what may come to a new server, and so at each moment of a
//! history.
//!
//! No object number comes twice: each is one file's for ever, and one component's of it. No command is ahead of its
//! file: none has a later tag than the file whose object it goes to, and a SET TAG has an earlier one, unless the
//! file's fence is open. Each present component of a file has an object with the file's tag or a later one, or its
//! CREATE is awaited under that tag, unless a crash of the server cut the making of the file off; and nothing goes to
//! an object under an earlier tag than its CREATE. What a world's server sent is what one such run sends.
//!
//! # Tags
//!
//! The grants that the server gives, and the tags of files, of these grants and of objects on drives.
//!
//! A history is that of `world_history`. Each layout that the server gives is of a grant that is live then, or
//! repeats what the client was told before; so a credential that was given leads back to a live grant. The tag of a
//! file never falls, and a fence raises it: so what was given before a fence was over is of an earlier tag, and
//! isn't performed behind it. Where nothing is forged, each object has its tag from a command that the server sent,
//! and none of these is ahead of its file; nor is it behind, since each component has its tag from its CREATE,
//! which a drive answered, or from the fence that raised it. So it is its file's, or the next one while a fence is
//! open; only a file whose making a crash of the server cut off may lack objects.
#![tactic(auto)]

mod file_laws;
mod party_laws;
mod sent_laws;
mod tag_laws;
mod zone_laws;

pub use file_laws::{
    components_apart, components_stand_apart, declared_have_failed, each_step_is_apart,
    each_step_is_sound, each_step_raises_tags, each_step_tells, each_step_tells_tags,
    losses_are_told, pending_is_read, seen_is_sound, server_writes_to_others,
};
pub use party_laws::{
    components_agree, each_step_orders, grants_are_in_order, grants_read_in_order, keys_are_known,
    nothing_due_rests, offline_have_failed, sizes_agree,
};
pub use sent_laws::{
    creates_are_first, each_object_is_owned, each_step_stands, no_command_is_ahead,
    performed_stay_within, server_sent_its_run, tags_stay_within,
};
pub use tag_laws::{
    answers_are_live, each_tag_is_its_files, each_tag_was_sent, given_is_barred, given_was_live,
    grants_are_older, no_tag_is_ahead, no_tag_is_behind,
};
pub use zone_laws::{each_step_spreads, each_step_zones, none_is_beyond, one_zone_is_borne};
