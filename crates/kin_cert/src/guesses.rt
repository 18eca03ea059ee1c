//! Guesses of the positions of buckets in their index, which spare most hashes.

ghost use Rattle.std.specs.Prelude.{◌≡◌, IfSome, IfNone, None};
ghost use Rattle.indexmap.specs.IndexMap.{get as look_up};
ghost use Rattle.kin_cert.specs.Bucket.{is_bucket};
ghost use Rattle.kin_cert.specs.Holders.{StandsAt};

use crate::bucket::Bucket;
use crate::holder::Holder;
use indexmap::IndexMap;
use std::alloc::Global;

/// How many guesses are kept: a power of two.
const COUNT: usize = 4_096;

/// The position of a bucket in its index, with its holder.
#[derive(Clone, Copy)]
pub(crate) struct Spot {
    pub(crate) position: usize,
    pub(crate) holder: Holder,
}

/// Positions at which buckets were last found. A guess may be wrong, so it is tested where it is used: the index at that
/// position has the bucket, or it is asked by hash. There are no guesses before the first one is noted.
#[derive(Drop)]
pub(crate) struct Guesses {
    positions: Vec<u32>,
}

impl Guesses {
    /// No guesses.
    pub(crate) fn new(alloc: Global) -> Guesses {
        Guesses {
            positions: Vec::new(alloc),
        }
    }

    /// The position of a bucket, if it has one. It is the next guess.
    pub(crate) fn spot_of(
        &mut self,
        index: &IndexMap<Bucket, Holder>,
        bucket: &Bucket,
    ) -> Option<Spot>
        ensures some { IfSome result (λ spot. StandsAt index.now bucket.now spot) }
        ensures none { IfNone result (look_up is_bucket index.now bucket.now ≡ None) }
    {
        if let Some(spot) = self.guessed(index, bucket) {
            return Some(spot);
        }
        let spot = asked(index, bucket)?;
        self.note(bucket, spot.position);
        Some(spot)
    }

    /// The same, and no guess is noted.
    pub(crate) fn look_up(&self, index: &IndexMap<Bucket, Holder>, bucket: &Bucket) -> Option<Spot>
        ensures some { IfSome result (λ spot. StandsAt index.now bucket.now spot) }
        ensures none { IfNone result (look_up is_bucket index.now bucket.now ≡ None) }
    {
        match self.guessed(index, bucket) {
            Some(spot) => Some(spot),
            None => asked(index, bucket),
        }
    }

    /// The position of a bucket, if the guess is right.
    pub(crate) fn guessed(&self, index: &IndexMap<Bucket, Holder>, bucket: &Bucket) -> Option<Spot>
        ensures { IfSome result (λ spot. StandsAt index.now bucket.now spot) }
    {
        let position = *self.positions.get(slot_of(bucket))? as usize;
        let (known, holder) = index.get_index(position)?;
        if *known == *bucket {
            Some(Spot {
                position,
                holder: *holder,
            })
        } else {
            None
        }
    }

    /// Notes the position of a bucket. Without memory there are no guesses.
    pub(crate) fn note(&mut self, bucket: &Bucket, position: usize) {
        if self.positions.is_empty() && self.positions.resize(COUNT, 0).is_err() {
            return;
        }
        let slot = slot_of(bucket);
        if let (Some(guess), Ok(position)) = (
            self.positions.get_mut(slot),
            u32::try_from(position),
        ) {
            *guess = position;
        }
    }
}

// The slot of the guess of a bucket.
fn slot_of(bucket: &Bucket) -> usize {
    let [structure, part, number] = *bucket;
    let mixed = number
        .wrapping_add(part.wrapping_mul(5_171))
        .wrapping_add(structure.wrapping_mul(17_807));
    mixed as usize % COUNT
}

// The position of a bucket, by hash.
#[inline(never)]
fn asked(index: &IndexMap<Bucket, Holder>, bucket: &Bucket) -> Option<Spot>
    ensures some { IfSome result (λ spot. StandsAt index.now bucket.now spot) }
    ensures none { IfNone result (look_up is_bucket index.now bucket.now ≡ None) }
{
    let (position, _, holder) = index.get_full(bucket)?;
    Some(Spot {
        position,
        holder: *holder,
    })
}
