// The commands over a network, by the first word.
ghost use Rattle.std.specs.Prelude.{◌≡◌, map, string_bytes};
ghost use Rattle.pnfs_run.specs.Party.{party_of, party_of_word};

/// Which party of a cluster the program is.
#[derive(Clone, Copy, PartialEq, Eq)]
pub enum Party {
    Drive,
    StoredDrive,
    Server,
    StoredServer,
    Client,
}

#[tactic(auto, unfolding(crate::specs::Party::party_of_word))]
fn party_of_word(word: &str) -> Option<Party>
    ensures { result ≡ party_of_word word.now }
{
    match word {
        "drive" => Some(Party::Drive),
        "stored-drive" => Some(Party::StoredDrive),
        "server" => Some(Party::Server),
        "stored-server" => Some(Party::StoredServer),
        "client" => Some(Party::Client),
        _ => None,
    }
}

/// The party that the first word names, `None` if it names none.
pub(crate) fn party_named(words: &[String]) -> Option<Party>
    ensures { result ≡ party_of (map string_bytes words.now) }
{
    match words {
        [] => None,
        [word, ..] => party_of_word(word.as_str()),
    }
}
