ghost use Rattle.std.specs.Prelude.{◌≡◌, ◌<◌, ◌≤◌, ℕ, List, Option, length, take, IfOk, OnErr, IsErrOf};
ghost use Rattle.std.specs.Io.KnownBytes.{Appends, Keeps};
ghost use Rattle.pic_io.specs.Faults.{Rose};

use std::alloc::AllocError;
use std::error::Error;
use std::fmt;

/// Why a sink took nothing of a piece.
#[derive(Clone, Copy, Debug, PartialEq, Eq)]
pub enum SinkRefusal {
    /// The sink is closed, full or broken: a fault, which was counted.
    Failed,
    /// Memory was wanted and there was none.
    Memory,
}

impl fmt::Display for SinkRefusal {
    ghost use Rattle.std.specs.Prelude.{Some};
    ghost use Rattle.pic_io.specs.Refusals.{sink_refusal_text};

    ghost output = { λ refusal. Some (sink_refusal_text refusal) };

    fn fmt<W: fmt::Write>(&self, f: &mut fmt::Formatter<W>) -> fmt::Result {
        f.write_str(match self {
            SinkRefusal::Failed => "the sink took nothing",
            SinkRefusal::Memory => "out of memory",
        })
    }
}

impl Error for SinkRefusal {}

impl From<AllocError> for SinkRefusal {
    ghost use Rattle.std.specs.Prelude.{◌≡◌};
    ghost use Rattle.pic_io.specs.declared.sink.SinkRefusal.TheVariants.{Memory};

    ghost from_gives = { λ _ e. e ≡ Memory };

    fn from(_error: AllocError) -> SinkRefusal {
        SinkRefusal::Memory
    }
}

/// Where bytes go.
///
/// An implementation tells contracts all that it has taken so far (`taken`), or leaves it untold.
pub trait Sink {
    ghost taken: { Self → Option (List ℕ) };

    ghost fault_count: { Self → ℕ };

    /// How many puts have failed so far. The count stands still at its type's end.
    fn faults(&self) -> u64
        ensures { result ≡ fault_count self.now };

    /// Takes a front of the piece, and answers how many bytes that is: at least one. A refusal has
    /// taken nothing.
    fn put(&mut self, piece: &[u8]) -> Result<usize, SinkRefusal>
        requires { 0 < length piece.now }
        ensures some { IfOk result (λ n. 0 < n) }
        ensures within { IfOk result (λ n. n ≤ length piece.now) }
        ensures front { IfOk result (λ n.
            Appends (taken self.old) (taken self.new) (take n piece.now)) }
        ensures none { OnErr result (Keeps (taken self.old) (taken self.new)) }
        ensures failed { IsErrOf result SinkRefusal.Failed →
            Rose (fault_count self.old) (fault_count self.new) }
        ensures steady { fault_count self.old ≤ fault_count self.new };
}
