use crate::numbers::Value;
use std::fmt;

/// How a computation or a fiber was completed: with a value, or cancelled with the code of an
/// exception (Picos: `Computation.return` and `Computation.cancel`).
#[derive(Clone, Copy, Debug, PartialEq, Eq)]
pub enum Outcome {
    Returned(Value),
    Cancelled(Value),
}

/// `returned V` or `cancelled K`, the number in decimal.
impl fmt::Display for Outcome {
    ghost use Rattle.std.specs.Prelude.{Some};
    ghost use Rattle.pic_base.specs.Outcome.{outcome_text};

    ghost output = { λ outcome. Some (outcome_text outcome) };

    fn fmt<W: fmt::Write>(&self, f: &mut fmt::Formatter<W>) -> fmt::Result {
        match self {
            Outcome::Returned(value) => write!(f, "returned {value}"),
            Outcome::Cancelled(code) => write!(f, "cancelled {code}"),
        }
    }
}
