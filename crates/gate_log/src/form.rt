ghost use Rattle.std.specs.Prelude.{◌≡◌, ◌≤◌};
ghost use Rattle.gate_log.specs.Forms.{head_size, size_of, tail_size};
ghost use Rattle.gate_log.specs.declared.entry.TheConstants.{MAX_BODY};

/// How a record is written behind its gate.
#[derive(Clone, Copy, Debug, PartialEq, Eq)]
pub enum Form {
    /// Its length and its body. No record is written so any more, but those of earlier versions are read.
    Plain,
    /// The complement of its length, its length, its body, and the body's checksum.
    Checked,
}

impl Form {
    /// How many bytes stand before the body.
    pub fn head_size(self) -> usize
        ensures { result ≡ head_size self }
    {
        match self {
            Form::Plain => 4,
            Form::Checked => 8,
        }
    }

    /// How many bytes stand behind the body.
    pub fn tail_size(self) -> usize
        ensures { result ≡ tail_size self }
    {
        match self {
            Form::Plain => 0,
            Form::Checked => 4,
        }
    }

    /// How many bytes a record has whose body has this length.
    pub fn record_size(self, len: usize) -> u64
        requires { len ≤ MAX_BODY }
        ensures { result ≡ size_of self len }
    {
        (self.head_size() + len + self.tail_size()) as u64
    }
}
