ghost use Rattle.std.specs.Prelude.{◌≡◌, ◌<◌, ◌≤◌, ◌+◌, ◌++◌, [], length, take, IfOk, OnErr, OnOk, IsErrOf};
ghost use Rattle.std.specs.Io.KnownBytes.{Appends, Keeps, append_known};
ghost use Rattle.pic_io.specs.Faults.{Rose};
ghost use Rattle.pic_io.specs.Handed.{HandsOn};
ghost use Rattle.pic_io.specs.declared.gathered.TheConstants.{ROOM};

use crate::sink::{Sink, SinkRefusal};
use std::alloc::{AllocError, Global};

/// How many bytes a `Gathered` holds at most before it hands them on.
pub const ROOM: usize = 65_536;

/// A sink in front of another one. Small pieces are gathered, and handed on together.
///
/// Whoever has put the last piece calls `finish`: what is gathered then is handed on by nobody else.
#[derive(Drop)]
pub struct Gathered<S> {
    /// Where the bytes go.
    pub inner: S,
    /// What was put and is not handed on yet.
    pub gathered: Vec<u8>,
    ghost within_room: { length gathered.items ≤ ROOM },
}

impl<S> Gathered<S> {
    /// Nothing is gathered in front of the sink. No memory is taken yet.
    pub fn new(alloc: Global, inner: S) -> Self
        ensures inner { result.inner ≡ inner }
        ensures gathered { result.gathered.items ≡ [] }
    {
        Gathered {
            inner,
            gathered: Vec::new(alloc),
        }
    }

    /// Adds a piece to what was gathered. The first one takes the memory for all that follow.
    #[inline(always)]
    fn gather(&mut self, piece: &[u8]) -> Result<(), AllocError>
        requires { length self.old.gathered.items + length piece.now ≤ ROOM }
        ensures ok { OnOk result (self.new.gathered.items ≡ self.old.gathered.items ++ piece.now) }
        ensures err { OnErr result (self.new.gathered.items ≡ self.old.gathered.items) }
        ensures inner { self.new.inner ≡ self.old.inner }
    {
        self.gathered.reserve_exact(ROOM - self.gathered.len())?;
        self.gathered.extend_from_slice(piece)
    }
}

impl<S: Sink> Gathered<S> {
    /// Hands on what was gathered. A refusal of the inner sink ends the call, and then what it did
    /// not take is still gathered.
    pub fn finish(&mut self) -> Result<(), SinkRefusal>
        ensures all { OnOk result (self.new.gathered.items ≡ []) }
        ensures handed { HandsOn (S.taken self.old.inner) (S.taken self.new.inner)
            self.old.gathered.items self.new.gathered.items }
        ensures failed { IsErrOf result SinkRefusal.Failed →
            Rose (S.fault_count self.old.inner) (S.fault_count self.new.inner) }
        ensures steady { S.fault_count self.old.inner ≤ S.fault_count self.new.inner }
    {
        'writes: while !self.gathered.is_empty() {
            let count = self.inner.put(self.gathered.as_slice())?;
            self.gathered.drain(..count);
        }
        Ok(())
    }
}

/// What it has taken is what the inner sink took, and then what is gathered. The faults are the inner
/// sink's.
impl<S: Sink> Sink for Gathered<S> {
    ghost taken = { λ sink. append_known (S.taken sink.inner) sink.gathered.items };

    ghost fault_count = { λ sink. S.fault_count sink.inner };

    fn faults(&self) -> u64 {
        self.inner.faults()
    }

    /// A piece that fits in the room is gathered. Before any other one, what was gathered is handed
    /// on; a piece that is longer than the whole room then goes to the inner sink in one put. Where
    /// the memory of the room is refused, so is the piece.
    #[inline(always)]
    fn put(&mut self, piece: &[u8]) -> Result<usize, SinkRefusal>
        requires { 0 < length piece.now }
        ensures some { IfOk result (λ n. 0 < n) }
        ensures within { IfOk result (λ n. n ≤ length piece.now) }
        ensures front { IfOk result (λ n.
            Appends (append_known (S.taken self.old.inner) self.old.gathered.items)
            (append_known (S.taken self.new.inner) self.new.gathered.items) (take n piece.now)) }
        ensures none { OnErr result (
            Keeps (append_known (S.taken self.old.inner) self.old.gathered.items)
            (append_known (S.taken self.new.inner) self.new.gathered.items)) }
        ensures failed { IsErrOf result SinkRefusal.Failed →
            Rose (S.fault_count self.old.inner) (S.fault_count self.new.inner) }
        ensures steady { S.fault_count self.old.inner ≤ S.fault_count self.new.inner }

        // A piece that fits goes no further, so no put of the inner sink fails for it.
        ensures whole { length self.old.gathered.items + length piece.now ≤ ROOM →
            IfOk result (λ n. n ≡ length piece.now) }
        ensures gathered { length self.old.gathered.items + length piece.now ≤ ROOM →
            OnOk result (self.new.gathered.items ≡ self.old.gathered.items ++ piece.now) }
        ensures ungathered { length self.old.gathered.items + length piece.now ≤ ROOM →
            OnErr result (self.new.gathered.items ≡ self.old.gathered.items) }
        ensures inner { length self.old.gathered.items + length piece.now ≤ ROOM →
            self.new.inner ≡ self.old.inner }
        ensures unfailing { length self.old.gathered.items + length piece.now ≤ ROOM →
            IsErrOf result SinkRefusal.Failed → ⊥ }
    {
        if piece.len() > ROOM - self.gathered.len() {
            self.finish()?;
        }
        if piece.len() > ROOM {
            return self.inner.put(piece);
        }
        self.gather(piece)?;
        Ok(piece.len())
    }
}

#[cfg(test)]
mod tests {
    use super::*;
    use crate::memory_sink::MemSink;
    use std::test::Fail;

    // A sink in memory that takes at most so many bytes in a put, and whose puts of these numbers
    // fail.
    fn sink_of(alloc: Global, most: usize, failing: &[u64]) -> Result<Gathered<MemSink>, AllocError>
        requires { 0 < most }
    {
        let mut inner = MemSink::new(alloc);
        inner.most = most;
        inner.failing = Vec::from_slice(alloc, failing)?;
        Ok(Gathered::new(alloc, inner))
    }

    // Through the bound, as the layer above writes.
    fn put_of<S: Sink>(sink: &mut S, piece: &[u8]) -> Result<usize, SinkRefusal>
        requires { 0 < length piece.now }
    {
        sink.put(piece)
    }

    #[test]
    fn gathers_what_fits(rt: HostRuntime) -> Result<(), Fail> {
        let alloc = rt.alloc();
        let most = vec![in alloc; 7u8; ROOM]?;
        let mut sink = sink_of(alloc, usize::MAX, &[])?;
        assert_eq!(rt; put_of(&mut sink, most.as_slice()), Ok(ROOM));
        assert_eq!(rt; sink.inner.calls, 0);
        // One byte more is one too many.
        assert_eq!(rt; put_of(&mut sink, b"x"), Ok(1));
        assert_eq!(rt; sink.inner.calls, 1);
        assert_eq!(rt; sink.inner.bytes.as_slice(), most.as_slice());
        assert_eq!(rt; sink.gathered.as_slice(), b"x".as_slice());
        assert_eq!(rt; sink.finish(), Ok(()));
        assert_eq!(rt; sink.finish(), Ok(()));
        assert_eq!(rt; sink.inner.calls, 2);
        assert_eq!(rt; sink.inner.bytes.len(), ROOM + 1);
        Ok(())
    }

    #[test]
    fn passes_long_pieces_on(rt: HostRuntime) -> Result<(), Fail> {
        let alloc = rt.alloc();
        let long = vec![in alloc; 7u8; ROOM + 1]?;
        let mut sink = sink_of(alloc, ROOM, &[])?;
        assert_eq!(rt; put_of(&mut sink, b"ab"), Ok(2));
        assert_eq!(rt; put_of(&mut sink, long.as_slice()), Ok(ROOM));
        assert_eq!(rt; sink.inner.calls, 2);
        assert_eq!(rt; sink.inner.bytes.len(), ROOM + 2);
        assert!(rt; sink.gathered.is_empty());
        Ok(())
    }

    #[test]
    fn keeps_what_was_not_taken(rt: HostRuntime) -> Result<(), Fail> {
        let alloc = rt.alloc();
        let mut sink = sink_of(alloc, 2, &[2, 4])?;
        let table: [(Result<(), SinkRefusal>, &str, &str, u64); 4] = [
            (Err(SinkRefusal::Failed), "ab", "cde", 1),
            (Err(SinkRefusal::Failed), "abcd", "e", 2),
            (Ok(()), "abcde", "", 2),
            (Ok(()), "abcde", "", 2),
        ];
        assert_eq!(rt; put_of(&mut sink, b"abcde"), Ok(5));
        for (answer, taken, left, faults) in table {
            assert_eq!(rt; sink.finish(), answer);
            assert_eq!(rt; sink.inner.bytes.as_slice(), taken.as_bytes());
            assert_eq!(rt; sink.gathered.as_slice(), left.as_bytes());
            assert_eq!(rt; sink.faults(), faults);
        }
        Ok(())
    }

    #[test]
    fn refuses_behind_what_was_not_taken(rt: HostRuntime) -> Result<(), Fail> {
        let alloc = rt.alloc();
        let long = vec![in alloc; 7u8; ROOM + 1]?;
        let mut sink = sink_of(alloc, usize::MAX, &[1, 3])?;
        assert_eq!(rt; put_of(&mut sink, b"ab"), Ok(2));
        assert_eq!(rt;
            put_of(&mut sink, long.as_slice()),
            Err(SinkRefusal::Failed)
        );
        assert_eq!(rt; sink.gathered.as_slice(), b"ab".as_slice());
        assert_eq!(rt;
            put_of(&mut sink, long.as_slice()),
            Err(SinkRefusal::Failed)
        );
        assert!(rt; sink.gathered.is_empty());
        assert_eq!(rt; sink.inner.bytes.as_slice(), b"ab".as_slice());
        assert_eq!(rt; put_of(&mut sink, long.as_slice()), Ok(ROOM + 1));
        assert_eq!(rt; sink.faults(), 2);
        Ok(())
    }
}
