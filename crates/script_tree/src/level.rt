//! How deep a line stands, and how deep one may.
ghost use Rattle.std.specs.Prelude.{◌≡◌, ◌+◌, ◌<◌, false};
ghost use Rattle.script_tree.specs.Reading.{breaks_in, bundle_count, is_deep as is_deep_in};

use crate::opener::Opener;

/// How many blocks may stand in one another.
const DEPTH_LIMIT: u32 = 32;

/// How many bundles and flocks may stand in one another.
const BUNDLE_LIMIT: u32 = 8;

/// How deep inside blocks something stands.
#[derive(Clone, Copy)]
pub struct Level {
    /// How many blocks are open here.
    pub depth: u32,
    /// How many bundles and flocks are open here.
    pub bundles: u32,
    /// Whether a `break` may stand here.
    pub breaks: bool,
}

impl Level {
    /// Outside of all blocks.
    pub fn outermost() -> Level
        ensures { result ≡ record { depth = 0; bundles = 0; breaks = false } }
    {
        Level {
            depth: 0,
            bundles: 0,
            breaks: false,
        }
    }

    /// Inside one block more.
    pub fn inside(self, what: Opener) -> Level
        requires { is_deep_in self what ≡ false }
        ensures { result ≡ record { depth = self.depth + 1; bundles = self.bundles + bundle_count what; breaks = breaks_in what self.breaks } }
    {
        Level {
            depth: self.depth + 1,
            bundles: self.bundles + what.bundle_count(),
            breaks: what.breaks_in(self.breaks),
        }
    }

    /// Whether one block more is too deep.
    pub fn is_too_deep(self, what: Opener) -> bool
        ensures { result ≡ is_deep_in self what }
    {
        self.depth >= DEPTH_LIMIT || (what.is_bundle() && self.bundles >= BUNDLE_LIMIT)
    }
}
