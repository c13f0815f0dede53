ghost use Rattle.std.specs.Prelude.{◌≡◌, ◌≤◌, ◌⊎◌, ℕ, List, [], ◌∷◌, ◌++◌, length, Option, Some, IfOk, IsErrOf};
ghost use Rattle.std.specs.Option.{option_copied};
ghost use Rattle.pic_io.specs.Faults.{Rose};
ghost use Rattle.pic_io.specs.Held.{Held, Gives, IsLongerThan};

use std::alloc::{AllocError, Global};
use std::error::Error;
use std::fmt;

/// Why a read gave no content.
#[derive(Clone, Copy, Debug, PartialEq, Eq)]
pub enum ReadRefusal {
    /// The file has more bytes than the limit of the read.
    TooLarge,
    /// The file is missing or couldn't be read to its end: a fault, which was counted.
    Failed,
    /// Memory was wanted and there was none.
    Memory,
}

impl fmt::Display for ReadRefusal {
    ghost use Rattle.std.specs.Prelude.{Some};
    ghost use Rattle.pic_io.specs.Refusals.{read_refusal_text};

    ghost output = { λ refusal. Some (read_refusal_text refusal) };

    fn fmt<W: fmt::Write>(&self, f: &mut fmt::Formatter<W>) -> fmt::Result {
        f.write_str(match self {
            ReadRefusal::TooLarge => "the file is too large",
            ReadRefusal::Failed => "the file could not be read",
            ReadRefusal::Memory => "out of memory",
        })
    }
}

impl Error for ReadRefusal {}

impl From<AllocError> for ReadRefusal {
    ghost use Rattle.std.specs.Prelude.{◌≡◌};
    ghost use Rattle.pic_io.specs.declared.files.ReadRefusal.TheVariants.{Memory};

    ghost from_gives = { λ _ e. e ≡ Memory };

    fn from(_error: AllocError) -> ReadRefusal {
        ReadRefusal::Memory
    }
}

/// Files that are read whole, by name.
///
/// An implementation tells contracts what each name holds (`held`), or leaves it untold, as one
/// does whose files others may change. It tells which reads there were in any case.
pub trait Files {
    ghost held: { Self → List ℕ → Held };

    // The names of all reads that were made so far, in order.
    ghost reads: { Self → List (List ℕ) };

    ghost fault_count: { Self → ℕ };

    ghost last_failed: { Self → Option (List ℕ) };

    /// The name that the last `read` with the answer `Failed` was given; none before the first one.
    fn failed_name(&self) -> Option<&str>
        ensures { option_copied result ≡ last_failed self.now };

    /// How many reads have failed so far. The count stands still at its type's end.
    fn faults(&self) -> u64
        ensures { result ≡ fault_count self.now };

    /// Reads all that the name holds, at most `limit` bytes. A file that is missing is a fault, and
    /// a fault goes before the test of the length. No name's content is changed.
    fn read(&mut self, alloc: Global, name: &str, limit: usize) -> Result<Vec<u8>, ReadRefusal>
        ensures whole { IfOk result (λ bytes. Gives (held self.old name.now) bytes.items) }
        ensures within { IfOk result (λ bytes. length bytes.items ≤ limit) }
        ensures too_large { IsErrOf result ReadRefusal.TooLarge →
            IsLongerThan (held self.old name.now) limit }
        ensures made { (IsErrOf result ReadRefusal.Memory → ⊥) →
            reads self.new ≡ reads self.old ++ name.now ∷ [] }

        // Memory may be wanting before the read is made.
        ensures unmade { IsErrOf result ReadRefusal.Memory →
            (reads self.new ≡ reads self.old) ⊎ (reads self.new ≡ reads self.old ++ name.now ∷ []) }
        ensures failed { IsErrOf result ReadRefusal.Failed →
            Rose (fault_count self.old) (fault_count self.new) }
        ensures steady { fault_count self.old ≤ fault_count self.new }
        ensures named { IsErrOf result ReadRefusal.Failed → last_failed self.new ≡ Some name.now }

        // Any other answer leaves the name of the last failed read.
        ensures unnamed { (IsErrOf result ReadRefusal.Failed → ⊥) →
            last_failed self.new ≡ last_failed self.old }
        ensures kept { (other : List ℕ) → held self.new other ≡ held self.old other };
}
