//! The fact of two pairs.

ghost use Rattle.std.specs.Prelude.{◌≡◌, ◌≢◌, true, false, Some, None};
ghost use Rattle.kin_motion.specs.declared.fact.Fact.{Fact as FactOf};
ghost use Rattle.kin_pairs.specs.Briefs.{near_fact};

use kin_motion::fact::Fact;
use kin_motion::form::Form;
use kin_num::Sign;

/// The fact of two pairs, or none, in 10 bytes.
#[derive(Clone, Copy)]
pub struct DistanceBrief {
    pub i: u16,
    pub j: u16,
    pub k: u16,
    pub l: u16,
    pub sign: Option<Sign>,
}

const _: () = prove!(size_of::<DistanceBrief>() == 10);

impl DistanceBrief {
    /// No fact.
    pub(crate) fn none() -> DistanceBrief
        ensures { near_fact result ≡ None }
    {
        DistanceBrief {
            i: 0,
            j: 0,
            k: 0,
            l: 0,
            sign: None,
        }
    }

    /// The fact in full.
    #[inline(always)]
    pub(crate) fn fact(&self) -> Option<Fact>
        ensures { result ≡ near_fact self.now }
    {
        let sign = self.sign?;
        let form = Form::Dist {
            i: self.i as u32,
            j: self.j as u32,
            k: self.k as u32,
            l: self.l as u32,
        };
        Some(Fact { form, sign })
    }

    /// Whether both are the same fact. Usually the sign differs.
    #[inline(always)]
    pub(crate) fn is_same(&self, other: &DistanceBrief) -> bool
        ensures same { result ≡ true → near_fact self.now ≡ near_fact other.now }
        ensures differ { result ≡ false → (f : FactOf) → near_fact self.now ≡ Some f → near_fact other.now ≢ Some f }
    {
        match (self.sign, other.sign) {
            (Some(sign), Some(other_sign)) => {
                sign == other_sign
                    && self.i == other.i
                    && self.j == other.j
                    && self.k == other.k
                    && self.l == other.l
            }
            _ => false,
        }
    }
}
