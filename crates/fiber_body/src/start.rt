ghost use Rattle.std.specs.Prelude.{◌≡◌, ◌≤◌, ◌<◌, ◌^◌, length};
ghost use Rattle.fiber_body.specs.Starts.{start_of};

use crate::numbering::{Counted, count_of};
use crate::texts::main_text;
use pic_base::Limits;
use pic_machine::Start;
use script_tree::Program;

/// What stands before the first entry of the program's runs, on a machine with these limits.
pub fn start_of(program: &Program, limits: Limits) -> Start
    ensures is { result ≡ start_of program.now limits }
    // No program declares more than 256 triggers and 256 computations; the root stands too.
    ensures few_triggers { result.triggers ≤ 256 }
    ensures few_comps { result.comps ≤ 257 }
    ensures main { result.text < length program.now.texts }
{
    Start {
        triggers: count_of(&program.decls, Counted::Triggers),
        comps: count_of(&program.decls, Counted::Comps) + 1,
        text: main_text(program),
        limits,
    }
}
