ghost use Rattle.std.specs.Prelude.{◌≡◌, ◌<◌, ◌≤◌, ◌⊎◌, [], ◌++◌, min, length, take, IfOk, OnErr, IsErrOf, Contains};
ghost use Rattle.pic_io.specs.Counts.{next_count};
ghost use Rattle.pic_io.specs.Faults.{Rose};

use crate::sink::{Sink, SinkRefusal};
use std::alloc::Global;

/// A sink in memory, which fails where it is told to: what a test writes to.
#[derive(Drop)]
pub struct MemSink {
    /// All that was taken so far.
    pub bytes: Vec<u8>,
    /// The numbers of the puts that fail, from 1.
    pub failing: Vec<u64>,
    /// How many bytes of a piece a put takes at most, from 1.
    pub most: usize,
    /// How many puts there were, whatever they answered. The count stands still at its type's end.
    pub calls: u64,
    /// How many puts have failed. The count stands still at its type's end.
    pub failed: u64,
    ghost takes_some: { 0 < most },
}

impl MemSink {
    /// An empty sink that takes each piece whole, and no put that is to fail.
    pub fn new(alloc: Global) -> Self
        ensures bytes { result.bytes.items ≡ [] }
        ensures failing { result.failing.items ≡ [] }
        ensures most { result.most ≡ usize.MAX }
        ensures calls { result.calls ≡ 0 }
        ensures failed { result.failed ≡ 0 }
    {
        MemSink {
            bytes: Vec::new(alloc),
            failing: Vec::new(alloc),
            most: usize::MAX,
            calls: 0,
            failed: 0,
        }
    }
}

impl Sink for MemSink {
    ghost use Rattle.std.specs.Prelude.{Some};

    ghost taken = { λ sink. Some sink.bytes.items };

    ghost fault_count = { λ sink. sink.failed };

    fn faults(&self) -> u64 {
        self.failed
    }

    /// Every call counts, whatever it answers.
    fn put(&mut self, piece: &[u8]) -> Result<usize, SinkRefusal>
        requires { 0 < length piece.now }
        ensures some { IfOk result (λ n. 0 < n) }
        ensures within { IfOk result (λ n. n ≤ length piece.now) }
        ensures count { IfOk result (λ n. n ≡ min self.old.most (length piece.now)) }
        ensures front { IfOk result (λ n.
            self.new.bytes.items ≡ self.old.bytes.items ++ take n piece.now) }
        ensures none { OnErr result (self.new.bytes.items ≡ self.old.bytes.items) }

        // A call fails exactly if it is to, unless memory is wanting, which no clause foresees.
        ensures cause { IsErrOf result SinkRefusal.Failed →
            Contains self.old.failing.items self.new.calls }
        ensures to_fail { Contains self.old.failing.items self.new.calls →
            IsErrOf result SinkRefusal.Failed ⊎ IsErrOf result SinkRefusal.Memory }

        ensures failed { IsErrOf result SinkRefusal.Failed → Rose self.old.failed self.new.failed }
        ensures steady { self.old.failed ≤ self.new.failed }
        ensures counted { self.new.calls ≡ next_count self.old.calls }
        ensures rose { IsErrOf result SinkRefusal.Failed →
            self.new.failed ≡ next_count self.old.failed }
        ensures unrisen { (IsErrOf result SinkRefusal.Failed → ⊥) →
            self.new.failed ≡ self.old.failed }
        ensures failing { self.new.failing ≡ self.old.failing }
        ensures most { self.new.most ≡ self.old.most }
    {
        self.calls = self.calls.saturating_add(1);
        if self.failing.contains(&self.calls) {
            self.failed = self.failed.saturating_add(1);
            return Err(SinkRefusal::Failed);
        }
        let count = self.most.min(piece.len());
        match self.bytes.extend_from_slice(&piece[..count]) {
            Ok(()) => Ok(count),
            Err(_) => Err(SinkRefusal::Memory),
        }
    }
}

#[cfg(test)]
mod tests {
    use super::*;
    use std::test::Fail;

    // Through the bound, as the layer above writes.
    fn put_of<S: Sink>(sink: &mut S, piece: &[u8]) -> Result<usize, SinkRefusal>
        requires { 0 < length piece.now }
    {
        sink.put(piece)
    }

    #[test]
    fn takes_fronts(rt: HostRuntime) -> Result<(), Fail> {
        let alloc = rt.alloc();
        let mut sink = MemSink {
            bytes: Vec::new(alloc),
            failing: vec![in alloc; 2]?,
            most: 2,
            calls: 0,
            failed: 0,
        };
        // Each put's piece and answer, and then the count of faults and all that was taken.
        let table: [(&str, Result<usize, SinkRefusal>, u64, &str); 4] = [
            ("abc", Ok(2), 0, "ab"),
            ("cd", Err(SinkRefusal::Failed), 1, "ab"),
            ("cd", Ok(2), 1, "abcd"),
            ("e", Ok(1), 1, "abcde"),
        ];
        for (piece, answer, faults, taken) in table {
            assert!(rt; piece.len() > 0);
            assert_eq!(rt; put_of(&mut sink, piece.as_bytes()), answer);
            assert_eq!(rt; sink.faults(), faults);
            assert_eq!(rt; sink.bytes.as_slice(), taken.as_bytes());
        }
        assert_eq!(rt; sink.calls, 4);
        let mut whole = MemSink::new(alloc);
        assert_eq!(rt; put_of(&mut whole, b"whole"), Ok(5));
        Ok(())
    }
}
