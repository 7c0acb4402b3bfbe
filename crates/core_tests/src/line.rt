// A line of a case.

/// How many numbers a line has at most.
pub const NUMBERS: usize = 6;

/// What a line is about.
#[derive(Clone, Copy)]
pub enum Word {
    Sets(Field),
    Calls(Call),
    Serves(Answer),
    Replies(Verb),
    Tells(Question),
    /// `timeout COMPONENT`: it doesn't answer.
    Timeout,
    /// `leave`: the client is to return its grants.
    Leave,
    /// `resend`: what is awaited is sent once more.
    Resend,
    /// Any other word.
    Unknown,
}

/// What is set for the lines behind.
#[derive(Clone, Copy)]
pub enum Field {
    /// `of FILE`: they are about that file; at first about file 5.
    Of,
    /// `file COMPS UNIT WIDTH DEPTH MIRRORS ALGORITHM LETTERS`: a file, and how its components are listed.
    File,
    /// `index COMPONENT`: the first that a layout lists.
    Index,
    /// `start OFFSET`: where the byte range of each capability begins.
    Start,
    /// `behind COUNT`: so many numbers stand behind a layout.
    Behind,
    /// `layouts COUNT`: so many are given.
    Layouts,
    /// `digits`: messages are told by their bytes.
    Digits,
}

/// A call.
#[derive(Clone, Copy)]
pub enum Call {
    /// `read OFFSET LENGTH`
    Read,
    /// `write OFFSET xBYTES`
    Write,
}

/// A message of the server.
#[derive(Clone, Copy)]
pub enum Answer {
    /// `grant SEQUENCE NUMBER SIZE FIRST LENGTH MODE`: a LAYOUTGET is answered with a grant.
    Grant,
    /// `deny SEQUENCE STATUS DETAIL`: a LAYOUTGET is answered otherwise.
    Deny,
    /// `commit SEQUENCE STATUS SIZE`: a LAYOUTCOMMIT is answered.
    Commit,
    /// `return SEQUENCE STATUS DETAIL`: a LAYOUTRETURN is answered.
    Return,
    /// `recall NUMBER GRANT`: a grant is recalled.
    Recall,
}

/// A message of a drive.
#[derive(Clone, Copy)]
pub enum Verb {
    /// `give DRIVE GRANT PLACE xBYTES`: it performed a READ.
    Give,
    /// `take DRIVE GRANT PLACE`: it performed a WRITE.
    Take,
    /// `refuse DRIVE GRANT PLACE VERDICT DETAIL`: it refused a WRITE.
    Refuse,
}

/// What the client tells of itself.
#[derive(Clone, Copy)]
pub enum Question {
    /// `awaits`: whose answer it awaits.
    Awaits,
    /// `awaited GRANT PLACE`: the component of that command, where it is awaited.
    Awaited,
    /// `next`: the number of its next request.
    Next,
}

const WORDS: &[(&str, Word)] = &[
    ("of", Word::Sets(Field::Of)),
    ("file", Word::Sets(Field::File)),
    ("index", Word::Sets(Field::Index)),
    ("start", Word::Sets(Field::Start)),
    ("behind", Word::Sets(Field::Behind)),
    ("layouts", Word::Sets(Field::Layouts)),
    ("digits", Word::Sets(Field::Digits)),
    ("read", Word::Calls(Call::Read)),
    ("write", Word::Calls(Call::Write)),
    ("grant", Word::Serves(Answer::Grant)),
    ("deny", Word::Serves(Answer::Deny)),
    ("commit", Word::Serves(Answer::Commit)),
    ("return", Word::Serves(Answer::Return)),
    ("recall", Word::Serves(Answer::Recall)),
    ("give", Word::Replies(Verb::Give)),
    ("take", Word::Replies(Verb::Take)),
    ("refuse", Word::Replies(Verb::Refuse)),
    ("awaits", Word::Tells(Question::Awaits)),
    ("awaited", Word::Tells(Question::Awaited)),
    ("next", Word::Tells(Question::Next)),
    ("timeout", Word::Timeout),
    ("leave", Word::Leave),
    ("resend", Word::Resend),
];

/// A line: what it is about, its numbers, 0 where there are no more, and its last word that is no number.
#[derive(Clone, Copy)]
pub struct Line<'a> {
    pub word: Word,
    pub numbers: [u32; NUMBERS],
    pub text: &'a str,
}

fn word_in(words: &[(&str, Word)], first: &str) -> Word {
    for (text, word) in words {
        if *text == first {
            return *word;
        }
    }
    Word::Unknown
}

/// The parts of a line.
pub fn line_of(line: &str) -> Line<'_> {
    let mut words = line.split_whitespace();
    let mut found = Line {
        word: word_in(WORDS, words.next().unwrap_or("")),
        numbers: [0; NUMBERS],
        text: "",
    };
    let mut at = 0usize;
    for word in words {
        match word.parse::<u32>() {
            Ok(number) if at < NUMBERS => {
                found.numbers[at] = number;
                at += 1;
            }
            _ => found.text = word,
        }
    }
    found
}
