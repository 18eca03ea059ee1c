//! Which slopes have gone and which are new.

ghost use Rattle.std.specs.Prelude.{◌≡◌, ◌↔◌, map, Contains, IsTrue, OnOk};
ghost use Rattle.kin_motion.specs.Kinetics.{HasChanged, HasGained};
ghost use Rattle.kin_motion.specs.Sets.{AreDistinct};
ghost use Rattle.kin_diameter.specs.declared.slope.Slope.{Slope as Kept};
ghost use Rattle.kin_diameter.specs.Changes.{IsLost, IsLostOne};
ghost use Rattle.kin_diameter.specs.Seen.{slope_fact};

use crate::between::between;
use crate::slope::Slope;
use kin_motion::fact::{Delta, Placed};
use kin_num::memory::NoMemory;

/// Whether the slope is in the list.
fn has(slopes: &[Slope], slope: Slope) -> bool
    ensures { IsTrue result ↔ Contains slopes.now slope }
{
    for other in slopes {
        if other.is(slope) {
            return true;
        }
    }
    false
}

/// Reports the slope, where this list doesn't have it.
fn tell(slope: Slope, others: &[Slope], told: &mut Vec<Placed>) -> Result<(), NoMemory>
    ensures { OnOk result (HasGained told.old.items told.new.items (IsLostOne others.now slope)) }
{
    if has(others, slope) {
        return Ok(());
    }
    let Ok(()) = told.push(slope.fact()) else {
        return Err(NoMemory);
    };
    Ok(())
}

/// Reports the slopes of one list that the other one doesn't have.
fn tell_missing(slopes: &[Slope], others: &[Slope], told: &mut Vec<Placed>) -> Result<(), NoMemory>
    requires once { AreDistinct slopes.now }
    ensures { OnOk result (HasGained told.old.items told.new.items (IsLost slopes.now others.now)) }
{
    for slope in slopes {
        tell(*slope, others, told)?;
    }
    Ok(())
}

/// Reports which slopes of the old list have gone and which of the new list it didn't have. What is the same at the
/// front and at the end is passed over; between, each slope of one list is looked for among those of the other.
pub(crate) fn tell_changes(old: &[Slope], new: &[Slope], out: &mut Delta) -> Result<(), NoMemory>
    requires old_once { AreDistinct old.now }
    requires new_once { AreDistinct new.now }
    ensures { OnOk result (HasChanged (map slope_fact old.now) (map slope_fact new.now) out.old out.new) }
{
    let (olds, news) = between(old, new);
    tell_missing(olds, news, &mut out.dropped)?;
    tell_missing(news, olds, &mut out.born)?;
    Ok(())
}
