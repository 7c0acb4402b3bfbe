// What holds of every step, for the crates above.
ghost use Rattle.client_rules.specs.Laws.{EachRestAwaitsSomething, NoncesRise, OneWriteEach, OthersChangeNothing, ReadsTookReplies};

/// A call that waits for drives awaits a reply, whatever came to the client since it was new.
pub fn each_rest_awaits_something()
    ensures { EachRestAwaitsSomething }
{}

/// The nonces of a grant count its commands, so they rise and differ.
pub fn nonces_rise()
    ensures { NoncesRise }
{}

/// Whatever came to the client since it was new, the answer of a read follows from the performed READs
/// whose replies its call took, and there is at least one.
pub fn reads_took_replies()
    ensures { ReadsTookReplies }
{}

/// A message that isn't taken, a timeout where nothing is awaited of the component, and a call that is
/// refused change nothing and send nothing.
pub fn others_change_nothing()
    ensures { OthersChangeNothing }
{}

/// A write awaits at most one WRITE of each component, whatever came to the client since it was new.
pub fn one_write_each()
    ensures { OneWriteEach }
{}
