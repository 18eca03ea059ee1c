//! The place of a keep among others.

ghost use Rattle.std.specs.Prelude.{◌≡◌, ◌≢◌, ◌<◌, ◌^◌, ℕ, ℤ, Some, IfSome, IfNone, length, slice_get};
ghost use Rattle.kin_motion.specs.declared.keep.Keep.TheVariants as keep;

use kin_motion::Keep;

/// A place of a keep, if it is among these.
pub(crate) fn find(keep: &Keep, keeps: &[Keep]) -> Option<usize>
    ensures some { IfSome result (λ k. slice_get keeps.now k ≡ Some keep.now) }
    ensures none { IfNone result ((k : ℕ) → slice_get keeps.now k ≢ Some keep.now) }
{
    for k in 0..keeps.len() {
        if keeps[k].is(keep) {
            return Some(k);
        }
    }
    None
}

/// A place of a keep that is among these.
pub(crate) fn place_of(keep: &Keep, keeps: &[Keep]) -> u32
    requires few { length keeps.now < 2 ^ 32 }
    requires kept { (k : ℕ) × (slice_get keeps.now k ≡ Some keep.now) }
    ensures { slice_get keeps.now result ≡ Some keep.now }
{
    match find(keep, keeps) {
        Some(k) => k as u32,
        None => unreachable!(),
    }
}

/// A place of boxes, whatever their size, if some are among these.
pub(crate) fn find_boxes(keeps: &[Keep]) -> Option<usize>
    ensures some { IfSome result (λ k. (w : ℤ) × (h : ℤ) × (slice_get keeps.now k ≡ Some (keep.Boxes w h))) }
    ensures none { IfNone result ((k : ℕ) (w h : ℤ) → slice_get keeps.now k ≢ Some (keep.Boxes w h)) }
{
    for k in 0..keeps.len() {
        if let Keep::Boxes { .. } = keeps[k] {
            return Some(k);
        }
    }
    None
}

/// A place of boxes, whatever their size, that are among these.
pub(crate) fn place_of_boxes(keeps: &[Keep]) -> u32
    requires few { length keeps.now < 2 ^ 32 }
    requires kept { (k : ℕ) × (w : ℤ) × (h : ℤ) × (slice_get keeps.now k ≡ Some (keep.Boxes w h)) }
    ensures { (w : ℤ) × (h : ℤ) × (slice_get keeps.now result ≡ Some (keep.Boxes w h)) }
{
    match find_boxes(keeps) {
        Some(k) => k as u32,
        None => unreachable!(),
    }
}
