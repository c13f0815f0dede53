//! Words that become names.
use std::marker::Model;

/// A word of the script that is to become a name, seen as its bytes, which are
/// ASCII.
#[derive(Drop)]
pub struct NewName<'a> {
    pub bytes: &'a [u8],
}

impl<'a> Model for NewName<'a> {
    ghost use Rattle.std.specs.Prelude.{List, ℕ, IsAscii};

    ghost Value = { List ℕ };

    ghost view = { λ n. n.bytes.now };

    ghost invariant = { λ n. IsAscii n.bytes.now };
}
