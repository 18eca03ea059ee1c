//! Which of two moments comes first.

ghost use Rattle.kin_c.specs.Comparing.{Compares, ComparesWith, IsEarlierNumber};
ghost use Rattle.kin_c.specs.Statuses.{Answers};

use crate::moment::KinMoment;
use crate::status::Status;
use kin_tracker::{Moment, is_earlier};

/// Whether the first moment comes before the second.
#[unsafe(no_mangle)]
pub extern "C" fn kin_is_earlier(one: &KinMoment, other: &KinMoment, earlier: &mut u32) -> u32
    ensures { Answers result (Compares one.now other.now earlier.old earlier.new) }
{
    compare(one, other, earlier).code()
}

/// Whether the first moment comes before the second, if there are both.
fn compare(one: &KinMoment, other: &KinMoment, earlier: &mut u32) -> Status
    ensures { Compares one.now other.now earlier.old earlier.new result }
{
    match one.read() {
        Ok(one) => compare_with(&one, other, earlier),
        Err(refusal) => Status::Refused(refusal),
    }
}

/// Whether a moment comes before another one, if there is that.
fn compare_with(one: &Moment, other: &KinMoment, earlier: &mut u32) -> Status
    ensures { ComparesWith one.now other.now earlier.old earlier.new result }
{
    match other.read() {
        Ok(other) => {
            *earlier = earlier_number(one, &other);
            Status::Done
        }
        Err(refusal) => Status::Refused(refusal),
    }
}

/// 1 where the first moment comes before the second, and 0 where it doesn't.
fn earlier_number(one: &Moment, other: &Moment) -> u32
    ensures { IsEarlierNumber one.now other.now result }
{
    if is_earlier(one, other) { 1 } else { 0 }
}
