ghost use Rattle.std.specs.Prelude.{◌≡◌, ◌<◌, ◌≤◌, ◌-◌, ◌++◌, ◌∷◌, [], Some, length, drop, slice_get, IfOk, OnOk, OnErr};
ghost use Rattle.osd_bytes.specs.Connections.{Comes, after_putting, after_taking, begin, newest, next_stream};

use crate::in_memory::copy_front;
use osd_lists::{ByteLists, Bytes, Memory, Sequence};
use std::alloc::Global;
use std::marker::Model;

/// A connection in memory: the bytes that come on it, as far as they were taken, and those that
/// went out on it.
#[derive(Drop)]
pub struct Conversation {
    bytes: Bytes,
    at: usize,
    put: Bytes,
}

impl Model for Conversation {
    ghost use Rattle.std.specs.Prelude.{◌≤◌, drop, length};
    ghost use Rattle.osd_bytes.specs.Connections.{Talk};

    ghost Value = { Talk };

    ghost view = { λ c. record { left = drop c.at c.bytes; put = c.put } };

    ghost invariant = { λ c. c.at ≤ length c.bytes };
}

impl Conversation {
    fn new(alloc: Global, bytes: Bytes) -> Self
        ensures { result ≡ begin bytes }
    {
        Conversation {
            bytes,
            at: 0,
            put: Bytes::new(alloc),
        }
    }

    fn take(&mut self, buf: &mut [u8]) -> usize
        ensures comes { Comes self.old result buf.new }
        ensures after { self.new ≡ record self.old { left = drop result self.old.left } }
        ensures bound { result ≤ length buf.old }
    {
        let (_, rest) = self.bytes.as_slice().split_at(self.at);
        let n = copy_front(rest, buf);
        self.at += n;
        n
    }

    fn put(&mut self, bytes: &[u8]) -> Result<(), Memory>
        ensures ok { OnOk result (self.new ≡ record self.old { put = self.old.put ++ bytes.now }) }
        ensures err { OnErr result (self.new ≡ self.old) }
    {
        self.put.extend_from_slice(bytes)
    }

    /// The bytes that went out.
    pub fn bytes(&self) -> &[u8]
        ensures { result.now ≡ self.now.put }
    {
        self.put.as_slice()
    }
}

/// The connections of one kind, accepted or asking: the streams of those to come, and those so far.
#[derive(Drop)]
pub struct Conversations {
    streams: ByteLists,
    next: usize,
    talks: Sequence<Conversation>,
}

impl Model for Conversations {
    ghost use Rattle.std.specs.Prelude.{◌≤◌, drop, length};
    ghost use Rattle.osd_bytes.specs.InMemory.{Side};

    ghost Value = { Side };

    ghost view = { λ c. record { coming = drop c.next c.streams; talks = c.talks } };

    ghost invariant = { λ c. c.next ≤ length c.streams };
}

impl Conversations {
    pub fn new(alloc: Global, streams: ByteLists) -> Self
        ensures { result ≡ record { coming = streams; talks = [] } }
    {
        Conversations {
            streams,
            next: 0,
            talks: Sequence::new(alloc),
        }
    }

    // The next stream. Past the end of the list nothing comes.
    fn next_stream(&self, alloc: Global) -> Result<Bytes, Memory>
        ensures { IfOk result (λ stream. stream ≡ next_stream self.now.coming) }
    {
        if self.next == self.streams.len() {
            return Ok(Bytes::new(alloc));
        }
        Bytes::copied(alloc, self.streams.get(self.next).as_slice())
    }

    /// Goes past the next stream.
    #[tactic(auto, using(crate::proofs::EndLaws::skipped))]
    pub fn skip(&mut self)
        ensures { self.new ≡ record self.old { coming = drop 1 self.old.coming } }
    {
        if self.next < self.streams.len() {
            self.next += 1;
        }
    }

    /// Begins a connection on which the next stream comes. Where there is no memory nothing changes.
    pub fn begin(&mut self, alloc: Global) -> Result<(), Memory>
        ensures ok { OnOk result (self.new ≡ record self.old {
          talks = self.old.talks ++ begin (next_stream self.old.coming) ∷ [];
        }) }
        ensures err { OnErr result (self.new ≡ self.old) }
    {
        let stream = self.next_stream(alloc)?;
        self.talks.push(Conversation::new(alloc, stream))
    }

    /// Takes what comes on the newest connection.
    pub fn take(&mut self, buf: &mut [u8]) -> usize
        requires { 0 < length self.old.talks }
        ensures comes { Comes (newest self.old.talks) result buf.new }
        ensures after { self.new ≡ record self.old { talks = after_taking result self.old.talks } }
        ensures bound { result ≤ length buf.old }
    {
        let newest = self.talks.len() - 1;
        self.talks.get_mut(newest).take(buf)
    }

    /// Puts bytes on the newest connection. Where there is no memory nothing changes.
    #[tactic(auto, using(crate::proofs::EndLaws::set_back))]
    pub fn put(&mut self, bytes: &[u8]) -> Result<(), Memory>
        requires { 0 < length self.old.talks }
        ensures ok { OnOk result (self.new ≡ record self.old { talks = after_putting bytes.now self.old.talks }) }
        ensures err { OnErr result (self.new ≡ self.old) }
    {
        let newest = self.talks.len() - 1;
        self.talks.get_mut(newest).put(bytes)
    }

    /// How many connections there were.
    pub fn len(&self) -> usize
        ensures { result ≡ length self.now.talks }
    {
        self.talks.len()
    }

    /// Connection `i`, from 0.
    pub fn get(&self, i: usize) -> &Conversation
        requires { i < length self.now.talks }
        ensures { slice_get self.now.talks i ≡ Some result.now }
    {
        self.talks.get(i)
    }
}
