//! The signs that are remembered and still hold.

ghost use Rattle.std.specs.Prelude.{◌≡◌, ◌⊎◌, ℕ, pos, IfSome, IsNone, IsTrue, IsFalse, slice_get, Some, Contains};
ghost use Rattle.kin_motion.specs.declared.fact.Fact.{Fact as Claim};
ghost use Rattle.kin_motion.specs.declared.fact.Placed.{Placed as Put};
ghost use Rattle.kin_motion.specs.declared.form.Form.TheVariants.{Line, Turn};
ghost use Rattle.kin_motion.specs.Merges.{slope_form};
ghost use Rattle.kin_motion.specs.Scene.{Scene, x_sign, y_sign};
ghost use Rattle.kin_overlay.specs.Overlays.{names_any};
ghost use Rattle.kin_overlay.specs.Remembered.{end_facts};
ghost use Rattle.kin_overlay.specs.Repairing.{IsUnknown};
ghost use Rattle.kin_overlay.specs.Seen.{seen};
ghost use Rattle.kin_overlay.specs.Standings.{IsUnfailed, StandIn};

use crate::end::End;
use crate::list::BreakpointList;
use crate::names::names_any;
use kin_motion::fact::{Fact, Placed};
use kin_num::Sign;

/// A list as it was settled last, the facts of it that have failed since, and the numbers that have
/// left its chains.
#[derive(Drop)]
pub struct Standing<'a> {
    pub list: &'a BreakpointList,
    pub failed: &'a [Placed],
    pub gone: &'a [u32],
}

/// Whether one of the failed facts is this one.
#[inline(always)]
fn has_failed(failed: &[Placed], fact: Fact) -> bool
    ensures none { IsFalse result → (k : ℕ) (p : Put) → slice_get failed.now k ≡ Some p → p.fact ≡ fact → ⊥ }
    ensures some { IsTrue result → (p : Put) × Contains failed.now p × (p.fact ≡ fact) }
{
    for placed in failed {
        if placed.fact.is(fact) {
            return true;
        }
    }
    false
}

/// Whether a fact names one of the numbers that have left.
#[inline(always)]
fn names_gone(fact: Fact, gone: &[u32]) -> bool
    ensures { result ≡ names_any fact.form gone.now }
{
    !gone.is_empty() && names_any(&fact.form, gone)
}

impl Standing<'_> {
    /// Whether a fact is known neither to have failed nor to name a number that has left.
    #[inline(always)]
    pub fn is_unfailed(&self, fact: Fact) -> bool
        ensures yes { IsTrue result → IsUnfailed self.now.failed.now self.now.gone.now fact }
        ensures otherwise { IsFalse result → IsUnfailed self.now.failed.now self.now.gone.now fact → ⊥ }
    {
        if has_failed(self.failed, fact) {
            return false;
        }
        !names_gone(fact, self.gone)
    }

    /// The sign by x of an outer end, where it is remembered with these points and unfailed.
    #[inline(always)]
    pub fn x_sign(&self, a: u32, b: u32) -> Option<Sign>
        ensures known { IfSome result (λ sign. (s : Scene) → StandIn s self.now → sign ≡ x_sign s a b) }
        ensures unknown { IsNone result → (f : Claim) → f.form ≡ Line (pos 1) (pos 0) (pos 0) a b → IsUnknown self.now f }
    {
        if let Some(sign) = self.x_sign_of(self.list.left(), a, b) {
            return Some(sign);
        }
        self.x_sign_of(self.list.right(), a, b)
    }

    /// The sign by x of one of the ends of the list, where it has these points and is unfailed.
    fn x_sign_of(&self, end: Option<End>, a: u32, b: u32) -> Option<Sign>
        requires { (self.now.list.now.left ≡ end) ⊎ (self.now.list.now.right ≡ end) }
        ensures known { IfSome result (λ sign. (s : Scene) → StandIn s self.now → sign ≡ x_sign s a b) }
        ensures unknown { IsNone result → (f : Claim) → f.form ≡ Line (pos 1) (pos 0) (pos 0) a b → Contains (end_facts end) f → IsUnfailed self.now.failed.now self.now.gone.now f → ⊥ }
    {
        let noted = end?;
        if noted.a != a {
            return None;
        }
        if noted.b != b {
            return None;
        }
        if !self.is_unfailed(noted.x_fact()) {
            return None;
        }
        Some(noted.x)
    }

    /// The sign by y of an outer end, where it is remembered with these points and unfailed.
    pub fn y_sign(&self, a: u32, b: u32) -> Option<Sign>
        ensures known { IfSome result (λ sign. (s : Scene) → StandIn s self.now → sign ≡ y_sign s a b) }
        ensures unknown { IsNone result → (f : Claim) → f.form ≡ Line (pos 0) (pos 1) (pos 0) a b → IsUnknown self.now f }
    {
        if let Some(sign) = self.y_sign_of(self.list.left(), a, b) {
            return Some(sign);
        }
        self.y_sign_of(self.list.right(), a, b)
    }

    /// The sign by y of one of the ends of the list, where it has these points and is unfailed.
    fn y_sign_of(&self, end: Option<End>, a: u32, b: u32) -> Option<Sign>
        requires { (self.now.list.now.left ≡ end) ⊎ (self.now.list.now.right ≡ end) }
        ensures known { IfSome result (λ sign. (s : Scene) → StandIn s self.now → sign ≡ y_sign s a b) }
        ensures unknown { IsNone result → (f : Claim) → f.form ≡ Line (pos 0) (pos 1) (pos 0) a b → Contains (end_facts end) f → IsUnfailed self.now.failed.now self.now.gone.now f → ⊥ }
    {
        let noted = end?;
        if noted.a != a {
            return None;
        }
        if noted.b != b {
            return None;
        }
        let sign = noted.y?;
        let fact = noted.y_fact()?;
        if !self.is_unfailed(fact) {
            return None;
        }
        Some(sign)
    }
}
