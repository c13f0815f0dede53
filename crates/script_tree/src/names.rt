//! Which names are known, and what each stands for.
ghost use Rattle.std.specs.Prelude.{◌≡◌, ◌++◌, ◌∷◌, [], None, IfOk, OnOk, OnErr};
ghost use Rattle.script_tree.specs.Names.{thing_of, first_names};

use crate::thing::Thing;
use indexmap::IndexMap;
use pic_base::Memory;
use std::alloc::Global;
use std::marker::Model;

/// The names of a script in the order in which they became known.
#[derive(Drop)]
pub struct Names {
    map: IndexMap<Vec<u8>, Thing>,
}

impl Model for Names {
    ghost use Rattle.std.specs.Prelude.{List};
    ghost use Rattle.script_tree.specs.Names.{Named};
    ghost use Rattle.script_tree.specs.Known.{names_of};

    ghost Value = { List Named };

    ghost view = { λ n. names_of n.map.entries };
}

impl Names {
    /// The names that every script has.
    pub fn new(alloc: Global) -> Result<Names, Memory>
        ensures { IfOk result (λ names. names ≡ first_names) }
    {
        let mut names = Names {
            map: IndexMap::new(alloc),
        };
        names.add(b"root", Thing::Root)?;
        names.add(b"main", Thing::Main)?;
        Ok(names)
    }

    /// What a word stands for.
    pub fn get(&self, word: &[u8]) -> Option<Thing>
        ensures { result ≡ thing_of self.now word.now }
    {
        self.map.get(word).copied()
    }

    /// Makes a name known that isn't taken.
    pub fn add(&mut self, word: &[u8], thing: Thing) -> Result<(), Memory>
        requires { thing_of self.old word.now ≡ None }
        ensures ok { OnOk result (self.new ≡ self.old ++ record { bytes = word.now; thing = thing } ∷ []) }
        ensures err { OnErr result (self.new ≡ self.old) }
    {
        let alloc = *self.map.allocator();
        let name = Vec::from_slice(alloc, word)?;
        self.map.insert(name, thing)?;
        Ok(())
    }
}
