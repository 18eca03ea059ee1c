//! The ends of boxes along one axis.

ghost use Rattle.std.specs.Prelude.{◌≡◌, ◌<◌, false, true, OnOk};
ghost use Rattle.kin_motion.specs.Numbers.{is_in};
ghost use Rattle.kin_sorted.specs.Sorting.{unmarked};
ghost use Rattle.kin_motion.specs.BoxFacts.{low_end, high_end};
ghost use Rattle.kin_boxes.specs.Boxing.{entering_box, leaving_box};

use kin_num::NoMemory;
use kin_sorted::{End, Ends, Side, Sorted};

/// The low end of a box.
#[inline(always)]
pub(crate) fn low(point: u32) -> End
    ensures { result ≡ record { point = point; side = Side.Low } }
{
    End {
        point,
        side: Side::Low,
    }
}

/// The high end of a box.
#[inline(always)]
pub(crate) fn high(point: u32) -> End
    ensures { result ≡ record { point = point; side = Side.High } }
{
    End {
        point,
        side: Side::High,
    }
}

/// Marks both ends of a box as entering. No mark waits.
pub(crate) fn enter(ends: &mut Sorted<Ends>, no: u32) -> Result<(), NoMemory>
    requires whole { ends.old.whole ≡ true }
    requires rest { ends.old.marks ≡ unmarked }
    requires within { no < ends.old.rank.count }
    requires low { is_in (low_end no) ends.old.items ≡ false }
    requires high { is_in (high_end no) ends.old.items ≡ false }
    ensures { OnOk result (ends.new ≡ record ends.old { marks = entering_box no }) }
{
    ends.insert(low(no))?;
    ends.insert(high(no))?;
    Ok(())
}

/// Marks both ends of a box as leaving. No mark waits.
pub(crate) fn leave(ends: &mut Sorted<Ends>, no: u32) -> Result<(), NoMemory>
    requires whole { ends.old.whole ≡ true }
    requires rest { ends.old.marks ≡ unmarked }
    requires within { no < ends.old.rank.count }
    requires low { is_in (low_end no) ends.old.items ≡ true }
    requires high { is_in (high_end no) ends.old.items ≡ true }
    ensures ok { OnOk result (ends.new ≡ record ends.old { marks = leaving_box no }) }
    ensures same { ends.new.rank ≡ ends.old.rank }
{
    ends.remove(low(no))?;
    ends.remove(high(no))?;
    Ok(())
}
