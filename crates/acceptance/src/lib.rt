// An accepted step, as in `stoda`: the columns corrected, the family test or the order choice, and the end of the step.
// The family test and the change of family are in family.rt, the order choice in order.rt.
// The record and the error dsm stay two: dsm is of one pass, and no later one reads it.
// Settings, record and work stay parameters, with a clause on each one's range: the head of crate history says why.
#![tactic(auto)]

ghost use Rattle.std.specs.Prelude.{◌≡◌, ◌+◌, ◌-◌, ◌^◌, ◌≤◌, ◌<◌, length};
ghost use Rattle.common.specs.Layout.{matrix_at};
ghost use Rattle.common.specs.Ranges.{StepInRange};
ghost use Rattle.history.specs.Columns.{correct_columns_of};
ghost use Rattle.acceptance.specs.Order.{Settled};
ghost use Rattle.acceptance.specs.Accept.{corrected_of, keep_family_of, test_family_of, accept_of, Closed, closed_of};

mod family;
mod order;

use common::{Common, Problem, Settings};
use family::Change;
use vectors::NotPositive;

// The branch that an accepted step took.
#[derive(Clone, Copy)]
pub enum Branch {
    Unchanged,
    SmallGain,
    Lowered,
    Kept,
    Raised,
    HeldBySm1,
    FamilyChanged,
    CoefficientGap,
}

#[derive(Clone, Copy)]
pub struct Chosen {
    pub branch: Branch,
    pub common: Common,
}

// ---- acceptance

// The step counts, and its correction goes into the columns.
#[tactic(auto, unfolding(crate::specs::Accept::corrected_of))]
fn correct(s: Settings, c: Common, work: &mut [f64]) -> Common
    requires step_in_range { StepInRange s c }
    requires nst_bound { (c.nst < 2 ^ 63) × (1 ≤ c.icount) × (matrix_at s.n ≤ length work.old) }
    ensures { (result ≡ corrected_of c) × (work.new ≡ correct_columns_of s c work.old) }
{
    history::correct_columns(s, c, work);
    Common {
        kflag: 0,
        m: 0,
        nst: c.nst + 1,
        hu: c.h,
        icount: c.icount - 1,
        ..c
    }
}

// No change of family: the order choice, if it is due.
#[tactic(auto, unfolding(crate::specs::Accept::keep_family_of))]
fn keep_family(s: Settings, c: Common, dsm: f64, work: &mut [f64]) -> Chosen
    requires step_in_range { StepInRange s c }
    requires le_lmax { (2 ≤ c.lmax) × (c.lmax ≤ 13) × (c.nq + 1 ≤ c.lmax) × (1 ≤ c.ialth)
        × (matrix_at s.n ≤ length work.old) }
    ensures { ◌≡◌ {A = Settled} (record { branch = result.branch; common = result.common; work = work.new })
        (keep_family_of s c dsm work.old) }
{
    let d = Common {
        ialth: c.ialth - 1,
        ..c
    };
    if d.ialth == 0 {
        order::choose_order(s, d, dsm, work)
    } else {
        Chosen {
            branch: Branch::Unchanged,
            common: d,
        }
    }
}

// The family test where icount is below 0, then order and size.
#[tactic(auto, unfolding(crate::specs::Accept::test_family_of, crate::specs::Accept::tested_of))]
fn test_family(s: Settings, c: Common, dsm: f64, work: &mut [f64]) -> Chosen
    requires step_in_range { StepInRange s c }
    requires le_mxordn { (1 ≤ s.mxordn) × (1 ≤ s.mxords) }
    requires le_lmax { (2 ≤ c.lmax) × (c.lmax ≤ 13) × (c.nq + 1 ≤ c.lmax) × (1 ≤ c.ialth)
        × (matrix_at s.n ≤ length work.old) }
    ensures { ◌≡◌ {A = Settled} (record { branch = result.branch; common = result.common; work = work.new })
        (test_family_of s c dsm work.old) }
{
    let change = if c.icount < 1000000 {
        family::compare_families(s, c, dsm, work)
    } else {
        Change::Stay
    };
    match change {
        Change::Stay => keep_family(s, c, dsm, work),
        Change::Gap => Chosen {
            branch: Branch::CoefficientGap,
            common: c,
        },
        #[tactic(auto, using(crate::proofs::ChangeOrder::change_order))]
        Change::To(to) => Chosen {
            branch: Branch::FamilyChanged,
            common: family::change_family(s, c, to, work),
        },
    }
}

// The step is accepted with the error dsm.
#[tactic(auto, unfolding(crate::specs::Accept::accept_of, crate::specs::Accept::corrected_of))]
pub fn accept(s: Settings, c: Common, dsm: f64, work: &mut [f64]) -> Chosen
    requires step_in_range { StepInRange s c }
    requires le_mxordn { (1 ≤ s.mxordn) × (1 ≤ s.mxords) × (c.nst < 2 ^ 63) × (1 ≤ c.icount) }
    requires le_lmax { (2 ≤ c.lmax) × (c.lmax ≤ 13) × (c.nq + 1 ≤ c.lmax) × (1 ≤ c.ialth)
        × (matrix_at s.n ≤ length work.old) }
    ensures { ◌≡◌ {A = Settled} (record { branch = result.branch; common = result.common; work = work.new })
        (accept_of s c dsm work.old) }
{
    let d = correct(s, c, work);
    test_family(s, d, dsm, work)
}

// ---- the end of a step

// acor is scaled by the order that the step used, and the weights are those of the new state, inverted up to the first
// that is at most 0 (12).
#[tactic(auto, unfolding(crate::specs::Accept::closed_of, history::specs::Columns::scale_part_of))]
pub fn close(g: &Problem, c: Common, order: usize, work: &mut [f64]) -> Result<(), NotPositive>
    requires step_in_range { StepInRange g.now.settings c }
    requires le_order { (1 ≤ order) × (order ≤ 12) × (matrix_at g.now.settings.n ≤ length work.old) }
    ensures { ◌≡◌ {A = Closed} (record { weights = result; work = work.new })
        (closed_of g.now.settings c order g.now.rtol.now g.now.atol.now work.old) }
{
    let n = g.settings.n;
    let r = 1.0 / coefficients::tesco(c.table, order, 1);
    history::scale(&mut work[common::ACOR * n..common::Y * n], r);
    #[tactic(auto, using(common::proofs::Lists::one_or_n))]
    vectors::ewset(g.rtol, g.atol, work, n, common::EWT * n);
    vectors::invert_weights(&mut work[common::EWT * n..common::SAVF * n])
}
