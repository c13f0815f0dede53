ghost use Rattle.std.specs.Prelude.{◌≡◌, ◌≢◌, ◌<◌, ◌≤◌, ◌⊎◌, [], ◌∷◌, ◌++◌, length, map, string_bytes, option_map, Some, IfOk, IfSome, IsErrOf};
ghost use Rattle.std.specs.IoError.{error_kind};
ghost use Rattle.pic_io.specs.Counts.{next_count};
ghost use Rattle.pic_io.specs.Faults.{Rose};

use crate::files::{Files, ReadRefusal};
use crate::names::push_name;
use std::alloc::Global;
use std::io::{ErrorKind, Read};
use std::{fs, io, rt};

/// The files of a runtime: the trusted edge. What a name holds is not told, since others may write
/// there too.
#[derive(Drop)]
pub struct RealFiles<R> {
    rt: R,
    /// The names of the reads that were made, in order.
    pub reads: Vec<String>,
    /// How many reads have failed. The count stands still at its type's end.
    pub failed: u64,
    /// The name that the last read with the answer `Failed` was given.
    pub name: Option<String>,
}

impl<R> RealFiles<R> {
    /// The runtime's files, before the first read.
    pub fn new(alloc: Global, rt: R) -> Self
        ensures reads { result.reads.items ≡ [] }
        ensures failed { result.failed ≡ 0 }
        ensures name { result.name ≡ None }
    {
        RealFiles {
            rt,
            reads: Vec::new(alloc),
            failed: 0,
            name: None,
        }
    }
}

impl<R: rt::Files> Files for RealFiles<R> {
    ghost use Rattle.pic_io.specs.Held.{untold};

    ghost held = { λ _ _. untold };

    ghost reads = { λ files. map string_bytes files.reads.items };

    ghost fault_count = { λ files. files.failed };

    ghost last_failed = { λ files. option_map string_bytes files.name };

    fn failed_name(&self) -> Option<&str> {
        match &self.name {
            Some(name) => Some(name.as_str()),
            None => None,
        }
    }

    fn faults(&self) -> u64 {
        self.failed
    }

    /// A directory, and a file that can't be read to its end, are faults too. At most `limit + 1`
    /// bytes are read.
    fn read(&mut self, alloc: Global, name: &str, limit: usize) -> Result<Vec<u8>, ReadRefusal>
        ensures within { IfOk result (λ bytes. length bytes.items ≤ limit) }
        ensures made { (IsErrOf result ReadRefusal.Memory → ⊥) →
            map string_bytes self.new.reads.items ≡
            map string_bytes self.old.reads.items ++ name.now ∷ [] }
        ensures unmade { IsErrOf result ReadRefusal.Memory →
            (map string_bytes self.new.reads.items ≡ map string_bytes self.old.reads.items)
            ⊎ (map string_bytes self.new.reads.items ≡
            map string_bytes self.old.reads.items ++ name.now ∷ []) }
        ensures failed { IsErrOf result ReadRefusal.Failed → Rose self.old.failed self.new.failed }
        ensures steady { self.old.failed ≤ self.new.failed }
        ensures rose { IsErrOf result ReadRefusal.Failed →
            self.new.failed ≡ next_count self.old.failed }
        ensures unrisen { (IsErrOf result ReadRefusal.Failed → ⊥) →
            self.new.failed ≡ self.old.failed }
        ensures named { IsErrOf result ReadRefusal.Failed →
            option_map string_bytes self.new.name ≡ Some name.now }
        ensures unnamed { (IsErrOf result ReadRefusal.Failed → ⊥) → self.new.name ≡ self.old.name }
    {
        let copy = String::from_str(alloc, name)?;
        push_name(&mut self.reads, name)?;
        match content_of(&self.rt, alloc, name, limit) {
            Err(ReadRefusal::Failed) => {
                self.failed = self.failed.saturating_add(1);
                self.name = Some(copy);
                Err(ReadRefusal::Failed)
            }
            answer => answer,
        }
    }
}

/// All that the file has, if that is at most `limit` bytes.
fn content_of<R: rt::Files>(
    rt: &R,
    alloc: Global,
    name: &str,
    limit: usize,
) -> Result<Vec<u8>, ReadRefusal>
    ensures { IfOk result (λ bytes. length bytes.items ≤ limit) }
{
    match fs::open(rt, name) {
        Ok(file) => rest_of(file, alloc, limit),
        Err(error) => Err(refusal_of(&error)),
    }
}

/// All that the source has left, if that is at most `limit` bytes. One byte more is read, to see
/// whether the source ends there.
#[tactic(auto, using(crate::proofs::Ends::whole_of_front))]
fn rest_of<S: Read + Drop>(source: S, alloc: Global, limit: usize) -> Result<Vec<u8>, ReadRefusal>
    ensures whole { IfSome (S.remaining source) (λ content.
        IfOk result (λ bytes. bytes.items ≡ content)) }
    ensures within { IfOk result (λ bytes. length bytes.items ≤ limit) }
    ensures too_large { IfSome (S.remaining source) (λ content.
        IsErrOf result ReadRefusal.TooLarge → limit < length content) }
{
    let mut bytes = Vec::new(alloc);
    let mut front = source.take((limit as u64).saturating_add(1));
    match front.read_to_end(&mut bytes) {
        Ok(_) if bytes.len() > limit => Err(ReadRefusal::TooLarge),
        Ok(_) => Ok(bytes),
        Err(error) => Err(refusal_of(&error)),
    }
}

/// What an error of the system means to the reader of a file.
fn refusal_of(error: &io::Error) -> ReadRefusal
    ensures memory { error_kind error.now ≡ ErrorKind.OutOfMemory → result ≡ ReadRefusal.Memory }
    ensures failed { error_kind error.now ≢ ErrorKind.OutOfMemory → result ≡ ReadRefusal.Failed }
    ensures never_large { result ≢ ReadRefusal.TooLarge }
{
    match error.kind() {
        ErrorKind::OutOfMemory => ReadRefusal::Memory,
        _ => ReadRefusal::Failed,
    }
}

#[cfg(test)]
mod tests {
    use super::*;
    use std::test::Fail;
    use std::{env, process};

    // A source that gives one byte and then fails.
    #[derive(Drop)]
    struct Breaking {
        has_given: bool,
        kind: ErrorKind,
    }

    impl Read for Breaking {
        fn read(&mut self, buf: &mut [u8]) -> io::Result<usize> {
            if self.has_given || buf.is_empty() {
                return Err(io::Error::from(self.kind));
            }
            self.has_given = true;
            buf[0] = b'x';
            Ok(1)
        }
    }

    #[test]
    fn reads_files(rt: HostRuntime) -> Result<(), Fail> {
        let alloc = rt.alloc();
        let folder = env::temp_dir(&rt)?;
        let folder = folder.as_str();
        let id = process::id(rt.process());
        let path = format!(in alloc; "{folder}/pic_io_{id}.txt")?;
        let name = path.as_str();

        let mut files = RealFiles::new(alloc, &rt);
        assert_eq!(rt; files.read(alloc, name, 12), Err(ReadRefusal::Failed));
        assert_eq!(rt; files.failed_name(), Some(name));
        assert_eq!(rt; files.read(alloc, folder, 12), Err(ReadRefusal::Failed));
        fs::write(&rt, name, "twelve bytes")?;
        let refused = files.read(alloc, name, 11);
        let content = files.read(alloc, name, 12);
        fs::remove_file(&rt, name)?;
        assert_eq!(rt; refused, Err(ReadRefusal::TooLarge));
        assert_eq!(rt; content?.as_slice(), b"twelve bytes".as_slice());
        assert_eq!(rt; files.failed_name(), Some(folder));
        assert_eq!(rt; files.faults(), 2);
        let names = [name, folder, name, name];
        assert_eq!(rt; files.reads.len(), names.len());
        for (made, name) in files.reads.iter().zip(names) {
            assert_eq!(rt; made.as_str(), name);
        }
        Ok(())
    }

    #[test]
    fn reads_to_the_end(rt: HostRuntime) -> Result<(), Fail> {
        let alloc = rt.alloc();
        let long = vec![in alloc; 7u8; 300_000]?;
        let rest = rest_of(long.as_slice(), alloc, 300_000)?;
        assert_eq!(rt; rest.as_slice(), long.as_slice());
        let refused = rest_of(long.as_slice(), alloc, 299_999);
        assert_eq!(rt; refused, Err(ReadRefusal::TooLarge));
        let table = [
            (ErrorKind::Other, ReadRefusal::Failed),
            (ErrorKind::OutOfMemory, ReadRefusal::Memory),
        ];
        for (kind, refusal) in table {
            let source = Breaking {
                has_given: false,
                kind,
            };
            assert_eq!(rt; rest_of(source, alloc, 9), Err(refusal));
        }
        Ok(())
    }
}
