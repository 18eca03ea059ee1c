//! Numbers among others, and forms that name one of several.

ghost use Rattle.std.specs.Prelude.{◌≡◌};
ghost use Rattle.kin_motion.specs.Numbers.{is_in};
ghost use Rattle.kin_overlay.specs.Overlays.{names_any};

use kin_motion::form::Form;

/// Whether a form names one of the numbers.
#[inline(always)]
pub fn names_any(form: &Form, numbers: &[u32]) -> bool
    ensures { result ≡ names_any form.now numbers.now }
{
    for no in numbers {
        if form.names(*no) {
            return true;
        }
    }
    false
}

/// Whether a number is one of these.
#[inline(always)]
pub fn is_one_of(no: u32, numbers: &[u32]) -> bool
    ensures { result ≡ is_in no numbers.now }
{
    for other in numbers {
        if *other == no {
            return true;
        }
    }
    false
}
