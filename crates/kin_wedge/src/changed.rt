//! The slots whose candidate has changed.

ghost use Rattle.std.specs.Prelude.{◌≡◌, ◌≢◌, ◌⊎◌, ◌↔◌, ℕ, ◌<◌, Some, true, IsTrue, length, slice_get, Contains, OnOk};
ghost use Rattle.kin_motion.specs.Numbers.{is_in};
ghost use Rattle.kin_wedge.specs.Passages.{HasNoted, changed_slots};
ghost use Rattle.kin_wedge.specs.declared.touch.Touch.{Touch as Touched};

use crate::push::push;
use crate::table::Table;
use crate::touch::Touch;
use kin_num::memory::NoMemory;

/// Whether the slot of a touch has another candidate now.
fn is_changed(table: &Table, touch: &Touch) -> bool
    requires { touch.now.slot < length table.now }
    ensures { IsTrue result ↔ (slice_get table.now touch.now.slot ≢ Some touch.now.old) }
{
    table.candidate(touch.slot) != touch.old
}

/// Notes the slot of a touch, if it has another candidate now.
fn note_one(table: &Table, touch: &Touch, changed: &mut Vec<u32>) -> Result<(), NoMemory>
    requires slot { touch.now.slot < length table.now }
    ensures keeps { OnOk result ((s : ℕ) → is_in s changed.old.items ≡ true → is_in s changed.new.items ≡ true) }
    ensures added { OnOk result (slice_get table.now touch.now.slot ≢ Some touch.now.old → is_in touch.now.slot changed.new.items ≡ true) }
    ensures only { OnOk result ((s : ℕ) → is_in s changed.new.items ≡ true → (is_in s changed.old.items ≡ true) ⊎ ((s ≡ touch.now.slot) × (slice_get table.now touch.now.slot ≢ Some touch.now.old))) }
{
    if is_changed(table, touch) {
        push(changed, touch.slot)
    } else {
        Ok(())
    }
}

/// Notes the slots of all touches that have another candidate now.
fn note_all(table: &Table, touches: &[Touch], changed: &mut Vec<u32>) -> Result<(), NoMemory>
    requires slots { (t : Touched) → Contains touches.now t → t.slot < length table.now }
    ensures { OnOk result (HasNoted table.now touches.now changed.new.items) }
{
    changed.clear();
    for touch in touches {
        note_one(table, touch, changed)?;
    }
    Ok(())
}

/// Lists the slots of all touches that have another candidate now, rising and each once.
pub fn list_changed(
    table: &Table,
    touches: &[Touch],
    changed: &mut Vec<u32>,
) -> Result<(), NoMemory>
    requires slots { (t : Touched) → Contains touches.now t → t.slot < length table.now }
    ensures { OnOk result (changed.new.items ≡ changed_slots table.now touches.now) }
{
    note_all(table, touches, changed)?;
    if changed.len() < 2 {
        return Ok(());
    }
    changed.sort_unstable();
    changed.dedup();
    Ok(())
}
