// The order choice of an accepted step, as in `stoda`: the factors that three orders allow, and the one that is taken.
// set_raised counts an index: it writes a part that stands between the two that it reads, so the slice would have to be
// split twice first.
// Settings, record and the error dsm stay apart: the head of lib.rt says why.
ghost use Rattle.std.specs.Prelude.{◌≡◌, ◌+◌, ◌*◌, ◌≤◌, length};
ghost use Rattle.common.specs.Limits.{max_states};
ghost use Rattle.common.specs.Layout.{matrix_at, acor_at};
ghost use Rattle.common.specs.Ranges.{StepInRange};
ghost use Rattle.common.specs.Record.{with_ialth};
ghost use Rattle.acceptance.specs.Order.{Settled, raised_work_of, raised_left_of, raised_size_of, lowered_size_of};
ghost use Rattle.acceptance.specs.Order.{limited_factors_of, held_of, settle_of, raise_column_of, raise_of, lower_of};
ghost use Rattle.acceptance.specs.Order.{choose_of, forgotten_of, choose_order_of};

use crate::family::Proposal;
use crate::{Branch, Chosen, family};
use common::{Common, Settings};

// savf becomes the difference of the correction from column lmax - 1.
#[tactic(auto, using(loops::proofs::For::turns), unfolding(crate::specs::Order::raised_work_of))]
fn set_raised(work: &mut [f64], n: usize, lmax: usize)
    requires { (1 ≤ lmax) × (lmax ≤ 13) × (n ≤ max_states) × (matrix_at n ≤ length work.old) }
    ensures { work.new ≡ raised_work_of n lmax work.old }
{
    for i in 0..n {
        work[common::SAVF * n + i] = work[common::ACOR * n + i] - work[i + (lmax - 1) * n];
    }
}

// The factor at the next higher order; where there is none 0, which is the published Rust's own and takes part in the
// choice.
#[tactic(auto, unfolding(crate::specs::Order::raised_size_of, crate::specs::Order::raised_left_of))]
fn raised_size(s: Settings, c: Common, work: &mut [f64]) -> f64
    requires step_in_range { StepInRange s c }
    requires le_lmax { (2 ≤ c.lmax) × (c.lmax ≤ 13) × (c.nq + 1 ≤ c.lmax) × (matrix_at s.n ≤ length work.old) }
    ensures { (result ≡ raised_size_of s c work.old)
        × (work.new ≡ raised_left_of s c work.old) }
{
    let l = c.nq + 1;
    if l == c.lmax {
        return 0.0;
    }
    let n = s.n;
    set_raised(work, n, c.lmax);
    let dup = history::norm_at(work, n, common::SAVF * n).value / c.tesco(2);
    family::size(1.4, 1.4e-6, dup, l + 1)
}

// The factor at the next lower order, 0 if there is none, as above.
#[tactic(auto, unfolding(crate::specs::Order::lowered_size_of))]
fn lowered_size(s: Settings, c: Common, work: &[f64]) -> f64
    requires step_in_range { StepInRange s c }
    requires n_in_bounds { matrix_at s.n ≤ length work.now }
    ensures { result ≡ lowered_size_of s c work.now }
{
    if c.nq == 1 {
        return 0.0;
    }
    let ddn = family::column_size(work, s.n, c.nq) / c.tesco(0);
    family::size(1.3, 1.3e-6, ddn, c.nq)
}

// The factors at the orders nq + 1, nq and nq - 1.
#[derive(Clone, Copy)]
pub struct Factors {
    pub up: f64,
    pub same: f64,
    pub down: f64,
}

// In the Adams family each factor is within its order's stability limit.
#[tactic(auto, unfolding(crate::specs::Order::limited_factors_of))]
fn limited_factors(c: Common, f: Factors) -> Factors
    requires { (1 ≤ c.nq) × (c.nq ≤ 12) × (c.nq + 1 ≤ c.lmax) × (c.lmax ≤ 13) }
    ensures { result ≡ limited_factors_of c f }
{
    if c.meth.is_bdf() {
        return f;
    }
    let d = history::pdh(c);
    Factors {
        up: if c.nq + 1 < c.lmax {
            numbers::min(f.up, coefficients::sm1(c.nq + 1) / d)
        } else {
            f.up
        },
        same: numbers::min(f.same, coefficients::sm1(c.nq) / d),
        down: if 1 < c.nq {
            numbers::min(f.down, coefficients::sm1(c.nq - 1) / d)
        } else {
            f.down
        },
    }
}

// The column of the order that is raised to: the correction times el[nq] / l.
#[tactic(auto, using(loops::proofs::Split::left_turns), unfolding(crate::specs::Order::raise_column_of))]
fn set_column(work: &mut [f64], n: usize, j: usize, r: f64)
    requires { (j * n + n ≤ acor_at n) × (matrix_at n ≤ length work.old) }
    ensures { work.new ≡ raise_column_of n j r work.old }
{
    let (columns, vectors) = work.split_at_mut(common::ACOR * n);
    for (i, x) in columns[j * n..j * n + n].iter_mut().enumerate() {
        *x = vectors[i] * r;
    }
}

// The Adams family holds a proposal that its stability limit does not allow.
fn is_held(c: Common, p: Proposal) -> bool
    requires { (1 ≤ p.order) × (p.order ≤ 12) }
    ensures { result ≡ held_of c p }
{
    !c.meth.is_bdf() && p.rh * history::pdh(c) * 1.00001 >= coefficients::sm1(p.order)
}

// Three steps more as now.
fn wait(branch: Branch, c: Common) -> Chosen
    ensures { result ≡ record { branch = branch; common = with_ialth 3 c } }
{
    Chosen {
        branch,
        common: Common { ialth: 3, ..c },
    }
}

// A proposal is taken, unless it is held or gains less than a tenth.
#[tactic(auto, unfolding(crate::specs::Order::settle_of))]
fn settle(s: Settings, c: Common, p: Proposal, branch: Branch, work: &mut [f64]) -> Chosen
    requires step_in_range { StepInRange s c }
    requires le_order { (1 ≤ p.order) × (p.order ≤ 12) × (matrix_at s.n ≤ length work.old) }
    ensures { ◌≡◌ {A = Settled} (record { branch = result.branch; common = result.common; work = work.new })
        (settle_of s c p branch work.old) }
{
    if is_held(c, p) {
        return wait(Branch::HeldBySm1, c);
    }
    if p.rh < 1.1 {
        return wait(Branch::SmallGain, c);
    }
    let rh = numbers::max(p.rh, history::least(c));
    let d = if p.order == c.nq {
        c
    } else {
        Common { nq: p.order, ..c }.stoda_reset(s)
    };
    #[tactic(auto, using(history::proofs::Laws::in_range), unfolding(common::specs::Rules::reset_of))]
    Chosen {
        branch,
        common: history::stoda_adjust_step_size(s, d, rh, work),
    }
}

// The order is raised: its column is written before the proposal is weighed.
#[tactic(auto, unfolding(crate::specs::Order::raise_of))]
fn raise(s: Settings, c: Common, up: f64, work: &mut [f64]) -> Chosen
    requires step_in_range { StepInRange s c }
    requires nq_bound { (c.nq + 1 ≤ c.lmax) × (c.lmax ≤ 13) × (matrix_at s.n ≤ length work.old) }
    ensures { ◌≡◌ {A = Settled} (record { branch = result.branch; common = result.common; work = work.new })
        (raise_of s c up work.old) }
{
    let l = c.nq + 1;
    if l == c.lmax || up < 1.1 {
        return wait(Branch::SmallGain, c);
    }
    let r = c.el(s, c.nq) / l as u32 as f64;
    #[tactic(auto, using(loops::proofs::For::within))]
    set_column(work, s.n, l, r);
    settle(s, c, Proposal { order: l, rh: up }, Branch::Raised, work)
}

// The order is lowered; order 1 has none below it, and stays.
#[tactic(auto, unfolding(crate::specs::Order::lower_of))]
fn lower(s: Settings, c: Common, down: f64, work: &mut [f64]) -> Chosen
    requires step_in_range { StepInRange s c }
    requires n_in_bounds { matrix_at s.n ≤ length work.old }
    ensures { ◌≡◌ {A = Settled} (record { branch = result.branch; common = result.common; work = work.new })
        (lower_of s c down work.old) }
{
    if c.nq == 1 {
        return wait(Branch::SmallGain, c);
    }
    let p = Proposal {
        order: c.nq - 1,
        rh: down,
    };
    settle(s, c, p, Branch::Lowered, work)
}

// The largest of the three factors decides.
#[tactic(auto, unfolding(crate::specs::Order::choose_of))]
fn choose(s: Settings, c: Common, f: Factors, work: &mut [f64]) -> Chosen
    requires step_in_range { StepInRange s c }
    requires nq_bound { (c.nq + 1 ≤ c.lmax) × (c.lmax ≤ 13) × (matrix_at s.n ≤ length work.old) }
    ensures { ◌≡◌ {A = Settled} (record { branch = result.branch; common = result.common; work = work.new })
        (choose_of s c f work.old) }
{
    if f.same >= f.up && f.same >= f.down {
        let p = Proposal {
            order: c.nq,
            rh: f.same,
        };
        settle(s, c, p, Branch::Kept, work)
    } else if f.up > f.down {
        raise(s, c, f.up, work)
    } else {
        lower(s, c, f.down, work)
    }
}

// In the Adams family the estimate of the Jacobian's norm begins anew.
fn forget_estimate(c: Common) -> Common
    ensures { result ≡ forgotten_of c }
{
    if c.meth.is_bdf() {
        c
    } else {
        Common { pdest: 0.0, ..c }
    }
}

// The order choice, due where ialth has come to 0.
#[tactic(auto, unfolding(crate::specs::Order::choose_order_of))]
pub fn choose_order(s: Settings, c: Common, dsm: f64, work: &mut [f64]) -> Chosen
    requires step_in_range { StepInRange s c }
    requires le_lmax { (2 ≤ c.lmax) × (c.lmax ≤ 13) × (c.nq + 1 ≤ c.lmax) × (matrix_at s.n ≤ length work.old) }
    ensures { ◌≡◌ {A = Settled} (record { branch = result.branch; common = result.common; work = work.new })
        (choose_order_of s c dsm work.old) }
{
    let up = raised_size(s, c, work);
    let same = family::size(1.2, 1.2e-6, dsm, c.nq + 1);
    let down = lowered_size(s, c, work);
    let f = limited_factors(c, Factors { up, same, down });
    choose(s, forget_estimate(c), f, work)
}
