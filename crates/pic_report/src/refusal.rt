use pic_base::Memory;
use pic_io::SinkRefusal;

/// Why a text was not written whole.
#[derive(Clone, Copy, Debug, PartialEq, Eq)]
pub enum ReportRefusal {
    /// The sink failed, which it counted.
    WriteFault,
    /// Memory was wanted and there was none.
    Memory,
}

impl From<SinkRefusal> for ReportRefusal {
    ghost use Rattle.std.specs.Prelude.{◌≡◌};
    ghost use Rattle.pic_report.specs.Refusals.{refusal_of};

    ghost from_gives = { λ refusal e. e ≡ refusal_of refusal };

    fn from(refusal: SinkRefusal) -> ReportRefusal {
        match refusal {
            SinkRefusal::Failed => ReportRefusal::WriteFault,
            SinkRefusal::Memory => ReportRefusal::Memory,
        }
    }
}

impl From<Memory> for ReportRefusal {
    ghost use Rattle.std.specs.Prelude.{◌≡◌};
    ghost use Rattle.pic_report.specs.declared.refusal.ReportRefusal.TheVariants as refusal;

    ghost from_gives = { λ _ e. e ≡ refusal.Memory };

    fn from(_memory: Memory) -> ReportRefusal {
        ReportRefusal::Memory
    }
}
