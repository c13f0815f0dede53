ghost use Rattle.std.specs.Prelude.{◌≡◌, ◌+◌, ◌≤◌, ◌⊎◌, [], ◌∷◌, ◌++◌, length, map, string_bytes, option_map, option_copied, Some, None, IfOk, OnErr, OnOk, IsErrOf, Contains};
ghost use Rattle.pic_io.specs.Counts.{next_count};
ghost use Rattle.pic_io.specs.Entries.{first_of_name, held_in, texts_of};
ghost use Rattle.pic_io.specs.Faults.{Rose};
ghost use Rattle.pic_io.specs.Held.{missing, holds, IsLongerThan};

use crate::files::{Files, ReadRefusal};
use crate::names::push_name;
use std::alloc::{AllocError, Global};

/// Files in memory, which fail where they are told to: what a test reads from.
#[derive(Drop)]
pub struct MemFiles {
    /// Each file's name and content. The first entry of a name counts; a name without an entry is
    /// missing.
    pub entries: Vec<(String, Vec<u8>)>,
    /// The name that the last read with the answer `Failed` was given.
    pub name: Option<String>,
    /// The numbers of the reads that fail, from 1.
    pub failing: Vec<u64>,
    /// How many calls there were, whatever they answered. The count stands still at its type's end.
    pub calls: u64,
    /// The names of the reads that were made, in order: of each call but those that had no memory
    /// for the name.
    pub reads: Vec<String>,
    /// How many reads have failed. The count stands still at its type's end.
    pub failed: u64,
}

impl MemFiles {
    /// No files, and no read that is to fail.
    pub fn new(alloc: Global) -> Self
        ensures entries { result.entries.items ≡ [] }
        ensures name { result.name ≡ None }
        ensures failing { result.failing.items ≡ [] }
        ensures calls { result.calls ≡ 0 }
        ensures reads { result.reads.items ≡ [] }
        ensures failed { result.failed ≡ 0 }
    {
        MemFiles {
            entries: Vec::new(alloc),
            name: None,
            failing: Vec::new(alloc),
            calls: 0,
            reads: Vec::new(alloc),
            failed: 0,
        }
    }

    /// Adds an entry after those that there are: a file, if the name had none. After an `Err` the
    /// entries are as before.
    pub fn add(&mut self, name: &str, content: &[u8]) -> Result<(), AllocError>
        ensures added { OnOk result (texts_of self.new.entries.items ≡
            texts_of self.old.entries.items ++ (name.now, content.now) ∷ []) }
        ensures err { OnErr result (self.new.entries.items ≡ self.old.entries.items) }
        ensures others { self.new ≡ record self.old { entries = self.new.entries } }
    {
        let alloc = *self.entries.allocator();
        let name = String::from_str(alloc, name)?;
        let content = Vec::from_slice(alloc, content)?;
        self.entries.push((name, content))?;
        Ok(())
    }

    /// The first entry of the name, if it has one.
    fn entry_of(&self, name: &str) -> Option<&(String, Vec<u8>)>
        ensures { option_copied result ≡ first_of_name self.now.entries.items name.now }
    {
        self.entries.iter().find(|entry| entry.0.as_str() == name)
    }

    /// What the read of the number `calls` answers.
    fn answer(&self, alloc: Global, name: &str, limit: usize) -> Result<Vec<u8>, ReadRefusal>
        ensures whole { IfOk result (λ bytes.
            held_in self.now.entries.items name.now ≡ holds bytes.items) }
        ensures within { IfOk result (λ bytes. length bytes.items ≤ limit) }
        ensures too_large { IsErrOf result ReadRefusal.TooLarge →
            IsLongerThan (held_in self.now.entries.items name.now) limit }
        ensures failed { IsErrOf result ReadRefusal.Failed →
            Contains self.now.failing.items self.now.calls
            ⊎ (held_in self.now.entries.items name.now ≡ missing) }
        ensures to_fail { Contains self.now.failing.items self.now.calls →
            IsErrOf result ReadRefusal.Failed }
    {
        if self.failing.contains(&self.calls) {
            return Err(ReadRefusal::Failed);
        }
        let Some(entry) = self.entry_of(name) else {
            return Err(ReadRefusal::Failed);
        };
        let content = entry.1.as_slice();
        if content.len() > limit {
            return Err(ReadRefusal::TooLarge);
        }
        Ok(Vec::from_slice(alloc, content)?)
    }
}

impl Files for MemFiles {
    ghost held = { λ files. held_in files.entries.items };

    ghost reads = { λ files. map string_bytes files.reads.items };

    ghost fault_count = { λ files. files.failed };

    ghost last_failed = { λ files. option_map string_bytes files.name };

    fn failed_name(&self) -> Option<&str> {
        match &self.name {
            Some(name) => Some(name.as_str()),
            None => None,
        }
    }

    fn faults(&self) -> u64 {
        self.failed
    }

    /// Every call counts, whatever it answers.
    fn read(&mut self, alloc: Global, name: &str, limit: usize) -> Result<Vec<u8>, ReadRefusal>
        ensures whole { IfOk result (λ bytes.
            held_in self.old.entries.items name.now ≡ holds bytes.items) }
        ensures within { IfOk result (λ bytes. length bytes.items ≤ limit) }
        ensures too_large { IsErrOf result ReadRefusal.TooLarge →
            IsLongerThan (held_in self.old.entries.items name.now) limit }
        ensures cause { IsErrOf result ReadRefusal.Failed →
            Contains self.old.failing.items self.new.calls
            ⊎ (held_in self.old.entries.items name.now ≡ missing) }

        // A call that is to fail does so, unless memory is wanting, which no clause foresees.
        ensures to_fail { Contains self.old.failing.items self.new.calls →
            IsErrOf result ReadRefusal.Failed ⊎ IsErrOf result ReadRefusal.Memory }

        ensures made { (IsErrOf result ReadRefusal.Memory → ⊥) →
            map string_bytes self.new.reads.items ≡
            map string_bytes self.old.reads.items ++ name.now ∷ [] }
        ensures unmade { IsErrOf result ReadRefusal.Memory →
            (map string_bytes self.new.reads.items ≡ map string_bytes self.old.reads.items)
            ⊎ (map string_bytes self.new.reads.items ≡
            map string_bytes self.old.reads.items ++ name.now ∷ []) }
        ensures failed { IsErrOf result ReadRefusal.Failed → Rose self.old.failed self.new.failed }
        ensures steady { self.old.failed ≤ self.new.failed }
        ensures counted { self.new.calls ≡ next_count self.old.calls }
        ensures rose { IsErrOf result ReadRefusal.Failed →
            self.new.failed ≡ next_count self.old.failed }
        ensures unrisen { (IsErrOf result ReadRefusal.Failed → ⊥) →
            self.new.failed ≡ self.old.failed }
        ensures named { IsErrOf result ReadRefusal.Failed →
            option_map string_bytes self.new.name ≡ Some name.now }
        ensures unnamed { (IsErrOf result ReadRefusal.Failed → ⊥) → self.new.name ≡ self.old.name }
        ensures kept { self.new.entries ≡ self.old.entries }
        ensures failing { self.new.failing ≡ self.old.failing }
    {
        self.calls = self.calls.saturating_add(1);
        let copy = String::from_str(alloc, name)?;
        push_name(&mut self.reads, name)?;
        match self.answer(alloc, name, limit) {
            Err(ReadRefusal::Failed) => {
                self.failed = self.failed.saturating_add(1);
                self.name = Some(copy);
                Err(ReadRefusal::Failed)
            }
            answer => answer,
        }
    }
}

#[cfg(test)]
mod tests {
    use super::*;
    use crate::files::ReadRefusal::{Failed, TooLarge};
    use std::test::Fail;

    // Through the bound, as the layer above reads.
    fn read_of<F: Files>(
        files: &mut F,
        alloc: Global,
        name: &str,
        limit: usize,
    ) -> Result<Vec<u8>, ReadRefusal> {
        files.read(alloc, name, limit)
    }

    #[test]
    fn reads_first_entries(rt: HostRuntime) -> Result<(), Fail> {
        let alloc = rt.alloc();
        let mut files = MemFiles::new(alloc);
        files.add("a", b"one")?;
        files.add("b", b"")?;
        files.add("a", b"later")?;
        files.failing.push(6)?;
        // Each read's name, limit and answer, and then the name of the last failed read and the
        // count of faults.
        let table: [(&str, usize, Result<&str, ReadRefusal>, Option<&str>, u64); 7] = [
            ("a", 3, Ok("one"), None, 0),
            ("a", 2, Err(TooLarge), None, 0),
            ("c", 9, Err(Failed), Some("c"), 1),
            ("b", 0, Ok(""), Some("c"), 1),
            ("a", 2, Err(TooLarge), Some("c"), 1),
            ("a", 2, Err(Failed), Some("a"), 2),
            ("a", 9, Ok("one"), Some("a"), 2),
        ];
        for (name, limit, want, failed_name, faults) in table {
            match (read_of(&mut files, alloc, name, limit), want) {
                (Ok(bytes), Ok(text)) => assert_eq!(rt; bytes.as_slice(), text.as_bytes()),
                (Err(refusal), Err(other)) => assert_eq!(rt; refusal, other),
                _ => assert!(rt; false, "the read of {name} at {limit}"),
            }
            assert_eq!(rt; files.failed_name(), failed_name);
            assert_eq!(rt; files.faults(), faults);
        }
        assert_eq!(rt; files.calls, 7);
        let names: [&str; 7] = ["a", "a", "c", "b", "a", "a", "a"];
        assert_eq!(rt; files.reads.len(), names.len());
        for (made, name) in files.reads.iter().zip(names) {
            assert_eq!(rt; made.as_str(), name);
        }
        Ok(())
    }
}
