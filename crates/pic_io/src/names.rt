ghost use Rattle.std.specs.Prelude.{◌≡◌, [], ◌∷◌, ◌++◌, map, string_bytes, OnErr, OnOk};

use std::alloc::AllocError;

/// Adds a copy of the name behind the others. After an `Err` they are as before.
pub(crate) fn push_name(names: &mut Vec<String>, name: &str) -> Result<(), AllocError>
    ensures pushed { OnOk result (map string_bytes names.new.items ≡
        map string_bytes names.old.items ++ name.now ∷ []) }
    ensures err { OnErr result (names.new.items ≡ names.old.items) }
{
    let alloc = *names.allocator();
    names.push(String::from_str(alloc, name)?)?;
    Ok(())
}
