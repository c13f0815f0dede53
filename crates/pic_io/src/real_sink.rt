ghost use Rattle.std.specs.Prelude.{◌≡◌, ◌<◌, ◌≤◌, length, Ok, IfOk, IsErrOf};
ghost use Rattle.pic_io.specs.Counts.{next_count};
ghost use Rattle.pic_io.specs.Faults.{Rose};

use crate::sink::{Sink, SinkRefusal};
use std::io;

/// The standard output of a runtime: the trusted edge. What it has taken is not told, since others
/// may write there too. Each put is one write.
#[derive(Drop)]
pub struct RealSink<R> {
    rt: R,
    /// How many writes have failed. The count stands still at its type's end.
    pub failed: u64,
}

impl<R> RealSink<R> {
    /// The runtime's standard output, before the first put.
    pub fn new(rt: R) -> Self
        ensures { result.failed ≡ 0 }
    {
        RealSink { rt, failed: 0 }
    }

    /// How many bytes a write took, where it took any. A write that takes nothing is a fault, as is
    /// one that was refused, unless it was for want of memory.
    fn judged(&mut self, written: io::Result<usize>) -> Result<usize, SinkRefusal>
        ensures count { IfOk result (λ n. written ≡ Ok n) }
        ensures some { IfOk result (λ n. 0 < n) }
        ensures steady { self.old.failed ≤ self.new.failed }
        ensures rose { IsErrOf result SinkRefusal.Failed →
            self.new.failed ≡ next_count self.old.failed }
        ensures unrisen { (IsErrOf result SinkRefusal.Failed → ⊥) →
            self.new.failed ≡ self.old.failed }
    {
        match written {
            Ok(count) if count > 0 => Ok(count),
            Err(error) if error.kind() == io::ErrorKind::OutOfMemory => Err(SinkRefusal::Memory),
            _ => {
                self.failed = self.failed.saturating_add(1);
                Err(SinkRefusal::Failed)
            }
        }
    }
}

impl<R: Print> Sink for RealSink<R> {
    ghost use Rattle.std.specs.Prelude.{None};

    ghost taken = { λ _. None };

    ghost fault_count = { λ sink. sink.failed };

    fn faults(&self) -> u64 {
        self.failed
    }

    fn put(&mut self, piece: &[u8]) -> Result<usize, SinkRefusal>
        requires { 0 < length piece.now }
        ensures some { IfOk result (λ n. 0 < n) }
        ensures within { IfOk result (λ n. n ≤ length piece.now) }
        ensures failed { IsErrOf result SinkRefusal.Failed → Rose self.old.failed self.new.failed }
        ensures steady { self.old.failed ≤ self.new.failed }
        ensures rose { IsErrOf result SinkRefusal.Failed →
            self.new.failed ≡ next_count self.old.failed }
        ensures unrisen { (IsErrOf result SinkRefusal.Failed → ⊥) →
            self.new.failed ≡ self.old.failed }
    {
        let written = self.rt.write_some(piece);
        self.judged(written)
    }
}

#[cfg(test)]
mod tests {
    use super::*;
    use crate::gathered::{Gathered, ROOM};
    use std::alloc::{AllocError, Global};
    use std::cell::Cell;
    use std::fmt::Display;
    use std::fs::{File, OpenOptions};
    use std::io::{ErrorKind, Write};
    use std::test::Fail;
    use std::{env, fs, process};

    // A sink that takes nothing, and says no error.
    #[derive(Drop)]
    struct Stuck;

    impl Print for Stuck {
        fn print<D: Display + Drop>(&self, _value: D) -> io::Result<()> {
            Ok(())
        }

        fn println<D: Display + Drop>(&self, _value: D) -> io::Result<()> {
            Ok(())
        }

        fn write_all(&self, _bytes: &[u8]) -> io::Result<()> {
            Ok(())
        }

        fn write_some(&self, _bytes: &[u8]) -> io::Result<usize> {
            Ok(0)
        }
    }

    // A file in place of standard output. A write takes at most so many bytes, and the write of one
    // number, from 0, is interrupted.
    #[derive(Drop)]
    struct ToFile {
        file: File,
        most: usize,
        interrupted: u32,
        writes: Cell<u32>,
    }

    impl Print for ToFile {
        fn print<D: Display + Drop>(&self, _value: D) -> io::Result<()> {
            Ok(())
        }

        fn println<D: Display + Drop>(&self, _value: D) -> io::Result<()> {
            Ok(())
        }

        fn write_all(&self, _bytes: &[u8]) -> io::Result<()> {
            Ok(())
        }

        fn write_some(&self, bytes: &[u8]) -> io::Result<usize> {
            let number = self.writes.get();
            self.writes.set(number.saturating_add(1));
            if number == self.interrupted {
                return Err(io::Error::from(ErrorKind::Interrupted));
            }
            let mut file = &self.file;
            file.write(&bytes[..self.most.min(bytes.len())])
        }
    }

    #[test]
    fn writes_to_the_output(rt: HostRuntime) {
        let mut sink = RealSink::new(&rt);
        assert_eq!(rt; sink.put(b"a line\n"), Ok(7));
        assert_eq!(rt; sink.faults(), 0);
    }

    #[test]
    fn counts_what_is_not_taken(rt: HostRuntime) {
        let mut sink = RealSink::new(Stuck);
        assert_eq!(rt; sink.put(b"a line\n"), Err(SinkRefusal::Failed));
        assert_eq!(rt; sink.put(b"a line\n"), Err(SinkRefusal::Failed));
        assert_eq!(rt; sink.faults(), 2);
    }

    #[test]
    fn fails_on_a_full_device(rt: HostRuntime) -> Result<(), Fail> {
        let file = OpenOptions::new().write(true).open(&rt, "/dev/full")?;
        let output = ToFile {
            file,
            most: usize::MAX,
            interrupted: u32::MAX,
            writes: Cell::new(0),
        };
        let mut sink = RealSink::new(output);
        assert_eq!(rt; sink.put(b"a line\n"), Err(SinkRefusal::Failed));
        assert_eq!(rt; sink.faults(), 1);
        Ok(())
    }

    // Puts so many lines. Answers all that was taken of them, and how many were refused.
    fn lines_put<S: Sink>(
        sink: &mut S,
        alloc: Global,
        count: u32,
    ) -> Result<(Vec<u8>, u32), AllocError> {
        let mut taken = Vec::new(alloc);
        let mut refused = 0u32;
        for number in 0..count {
            let line = format!(in alloc; "say {number}\n")?;
            let line = line.as_str().as_bytes();
            if line.is_empty() {
                continue;
            }
            match sink.put(line) {
                Ok(count) => taken.extend_from_slice(&line[..count])?,
                Err(_) => refused = refused.saturating_add(1),
            }
        }
        Ok((taken, refused))
    }

    #[test]
    fn writes_each_byte_once(rt: HostRuntime) -> Result<(), Fail> {
        let alloc = rt.alloc();
        let folder = env::temp_dir(&rt)?;
        let folder = folder.as_str();
        let id = process::id(rt.process());
        let path = format!(in alloc; "{folder}/pic_io_sink_{id}.txt")?;
        let name = path.as_str();
        // The second part of what is gathered first is interrupted, and so is left gathered.
        let output = ToFile {
            file: File::create(&rt, name)?,
            most: 10_000,
            interrupted: 1,
            writes: Cell::new(0),
        };

        let mut sink = Gathered::new(alloc, RealSink::new(output));
        let (mut wanted, refused) = lines_put(&mut sink, alloc, 20_000)?;
        let long = vec![in alloc; 7u8; ROOM + 1]?;
        assert_eq!(rt; sink.put(long.as_slice()), Ok(10_000));
        let front = vec![in alloc; 7u8; 10_000]?;
        wanted.extend_from_slice(front.as_slice())?;
        assert_eq!(rt; sink.put(b"end\n"), Ok(4));
        wanted.extend_from_slice(b"end\n")?;
        assert_eq!(rt; sink.finish(), Ok(()));
        let written = fs::read(&rt, name);
        fs::remove_file(&rt, name)?;
        assert_eq!(rt; written?.as_slice(), wanted.as_slice());
        assert_eq!(rt; refused, 1);
        assert_eq!(rt; sink.faults(), 1);
        Ok(())
    }
}
