// One more item.
ghost use Rattle.std.specs.Prelude.{◌≡◌, ◌<◌, [], ◌∷◌, ◌++◌, OnOk, OnErr, IsOk, vec_len, vec_capacity};

use pdl_kit::NoMemory;

/// Adds an item, which cannot fail where there is room.
pub fn append<T: Drop>(items: &mut Vec<T>, item: T) -> Result<(), NoMemory>
    ensures ok { OnOk result (items.new.items ≡ items.old.items ++ item ∷ []) }
    ensures err { OnErr result (items.new.items ≡ items.old.items) }
    ensures room { vec_len items.old < vec_capacity items.old → IsOk result }
{
    items.push(item)?;
    Ok(())
}
