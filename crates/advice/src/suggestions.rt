// The name that was meant.
use std::alloc::{AllocError, Global};
use strsim::damerau_levenshtein;

// How many letters a name may be away from the one that was meant.
const MOST_EDITS: usize = 2;

// The name that is nearest to a word among those that were offered, if one is near.
#[derive(Clone, Copy)]
pub(crate) struct Suggestion {
    pub(crate) name: Option<&'static str>,
    edits: usize,
}

impl Suggestion {
    // No name was offered yet.
    pub(crate) fn new() -> Suggestion {
        Suggestion {
            name: None,
            edits: MOST_EDITS,
        }
    }

    // Takes the name if it is nearer than those before.
    pub(crate) fn offer(
        &mut self,
        alloc: Global,
        word: &str,
        name: &'static str,
    ) -> Result<(), AllocError> {
        let edits = damerau_levenshtein(alloc, word, name)?;
        if edits < self.edits || edits == self.edits && self.name.is_none() {
            self.name = Some(name);
            self.edits = edits;
        }
        Ok(())
    }
}
