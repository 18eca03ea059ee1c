//! Lists that grow.

ghost use Rattle.std.specs.Prelude.{◌≡◌, ◌≤◌, ◌++◌, ◌∷◌, [], length, OnOk};
ghost use Rattle.std.specs.List.{insert};

use kin_num::memory::NoMemory;

/// Puts an item at the end of a list.
pub fn put<T: Drop>(list: &mut Vec<T>, item: T) -> Result<(), NoMemory>
    ensures { OnOk result (list.new.items ≡ list.old.items ++ item ∷ []) }
{
    list.push(item).map_err(|_| NoMemory)
}

/// Puts an item into a list at a place.
pub fn put_at<T: Drop>(list: &mut Vec<T>, place: usize, item: T) -> Result<(), NoMemory>
    requires { place ≤ length list.old.items }
    ensures { OnOk result (list.new.items ≡ insert list.old.items place item) }
{
    list.insert(place, item).map_err(|_| NoMemory)
}
