//! The smallest kinetic structure with two facts: two numbers in order along x and along y. It
//! shows that both laws of `Kinetic` can be met.

ghost use Rattle.std.specs.Prelude.{◌≡◌, ◌≤◌, ◌+◌, ◌∷◌, [], List, OnOk, ℤ, pos, unsigned_abs};
ghost use Rattle.kin_motion.specs.Kinetics.{HasChanged};
ghost use Rattle.kin_motion.specs.Numbers.{Lists};
ghost use Rattle.kin_motion.specs.Orders.{IsOrder};
ghost use Rattle.kin_motion.specs.Scene.{Scene, IsReal};
ghost use Rattle.kin_motion.specs.declared.form.Form.TheVariants.{Line};
ghost use Rattle.kin_rows.specs.Pairs.{fact_of, items_of};

use kin_motion::{Delta, Fact, Form, Kinetic, Placed, Signs};
use kin_num::{NoMemory, Sign, Steps};
use std::sync::ledger::Ledger;

/// Two numbers in order along one direction, with the sign of their fact.
#[derive(Clone, Copy, Debug, PartialEq, Eq)]
pub struct Row {
    pub first: u32,
    pub second: u32,
    pub sign: Sign,
}

/// Two numbers in order along x and along y.
#[derive(Clone, Copy, Debug, PartialEq, Eq)]
pub struct Pair {
    pub by_x: Row,
    pub by_y: Row,
}

/// The fact of a row along a direction.
fn fact_along(dx: i32, dy: i32, part: u32, row: Row) -> Placed
    ensures { result ≡ fact_of dx dy part row }
{
    Placed {
        part,
        fact: Fact {
            form: Form::Line {
                dx,
                dy,
                off: 0,
                i: row.first,
                j: row.second,
            },
            sign: row.sign,
        },
    }
}

/// The two numbers in their order at this moment.
fn ordered<O: Signs, L: Ledger>(now: &O, dx: i32, dy: i32, old: Row, steps: &mut Steps<L>) -> Row
    requires real { IsReal (O.scene now.now) }
    requires numbers { Lists (items_of old) (O.scene now.now).live }
    requires dx_small { unsigned_abs dx ≤ 16 }
    requires dy_small { unsigned_abs dy ≤ 16 }
    ensures order { IsOrder (O.scene now.now) dx dy (items_of result) }
    ensures sign { (O.scene now.now).sign (Line dx dy (pos 0) result.first result.second) ≡ result.sign }
    ensures cost { steps.new ≡ steps.old + 1 }
{
    let Row {
        first: i,
        second: j,
        ..
    } = old;
    let form = Form::Line {
        dx,
        dy,
        off: 0,
        i,
        j,
    };
    let sign = now.sign(&form, steps);
    match sign {
        Sign::Zero if i > j => Row {
            first: j,
            second: i,
            sign,
        },
        Sign::Minus => Row {
            first: j,
            second: i,
            sign: Sign::Plus,
        },
        _ => Row {
            first: i,
            second: j,
            sign,
        },
    }
}

/// Reports that one fact took the place of another.
fn report(old: Placed, new: Placed, out: &mut Delta) -> Result<(), NoMemory>
    ensures { OnOk result (HasChanged (old ∷ []) (new ∷ []) out.old out.new) }
{
    if old.is(new) {
        return Ok(());
    }
    out.report_dropped(old)?;
    out.report_born(new)
}

impl Kinetic for Pair {
    ghost use Rattle.std.specs.Prelude.{false};
    ghost use Rattle.kin_rows.specs.Pairs.{pair_facts, IsSettled, IsReady};
    ghost use Rattle.kin_rows.specs.PairLaws.{pair_determined};

    ghost facts = { pair_facts };

    ghost is_spared = { λ k p. false };

    ghost ready = { IsReady };

    ghost at_rest = { λ k. Unit {0} };

    ghost settled = { IsSettled };

    ghost grounded = { λ k w. Unit {0} };

    ghost determined = { pair_determined };

    fn settle<O: Signs, L: Ledger>(
        &mut self,
        now: &O,
        _failed: &[Placed],
        out: &mut Delta,
        steps: &mut Steps<L>,
    ) -> Result<(), NoMemory> {
        let old_x = fact_along(1, 0, 0, self.by_x);
        let old_y = fact_along(0, 1, 1, self.by_y);
        self.by_x = ordered(now, 1, 0, self.by_x, steps);
        self.by_y = ordered(now, 0, 1, self.by_y, steps);
        report(old_x, fact_along(1, 0, 0, self.by_x), out)?;
        report(old_y, fact_along(0, 1, 1, self.by_y), out)
    }
}
