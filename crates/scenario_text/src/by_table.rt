// The value of a word, by a table of words. Where none of them is the word, the value of `else`.
macro_rules! by_table {
    ($word:expr; $($text:literal => $value:expr),* $(,)? ; else $other:expr) => {{
        let word = $word;
        $(if word == $text.as_slice() {
            return Ok($value);
        })*
        $other
    }};
}

// The value of a keyword, by a row each.
macro_rules! by_kind {
    ($kind:expr; $($row:pat => $value:expr),* $(,)?) => {
        match $kind {
            $($row => Ok($value),)*
        }
    };
}

pub(crate) use by_kind;
pub(crate) use by_table;
