// The family test of an accepted step, as in `stoda`, with the sizes that it shares with the order choice, and the
// change of family. Settings, record and the error dsm stay apart: the head of lib.rt says why.
ghost use Rattle.std.specs.Prelude.{◌≡◌, ◌≤◌, length};
ghost use Rattle.common.specs.Limits.{max_states};
ghost use Rattle.common.specs.Layout.{matrix_at};
ghost use Rattle.common.specs.State.{Moved};
ghost use Rattle.common.specs.Ranges.{StepInRange};
ghost use Rattle.acceptance.specs.Size.{size_of, column_size_of, within_stability_of};
ghost use Rattle.acceptance.specs.Family.{bdf_proposal_of, to_bdf_of, adams_proposal_of, to_adams_of, change_of};
ghost use Rattle.acceptance.specs.Family.{other_of, changed_of};

use common::{Common, MethodFamily, Settings};

// An order with the factor that the step would have there.
#[derive(Clone, Copy)]
pub struct Proposal {
    pub order: usize,
    pub rh: f64,
}

// What the family test says: stay, the gap in the coefficients, or move to the other family as proposed.
#[derive(Clone, Copy)]
pub enum Change {
    Stay,
    Gap,
    To(Proposal),
}

// ---- sizes

// 1 / (a·d^(1/k) + b): the factor that an error d allows at order k - 1.
#[tactic(auto, unfolding(crate::specs::Size::size_of))]
pub fn size(a: f64, b: f64, d: f64, k: usize) -> f64
    ensures { result ≡ size_of a b d k }
{
    1.0 / (a * root::root(d, k).value + b)
}

// The norm of column j.
pub fn column_size(work: &[f64], n: usize, j: usize) -> f64
    requires { (n ≤ max_states) × (j ≤ 12) × (matrix_at n ≤ length work.now) }
    ensures { result ≡ column_size_of n j work.now }
{
    history::norm_at(work, n, j * n).value
}

// ---- the family test

// rh within what the stability limit of the order allows a step with this Jacobian.
fn within_stability(rh: f64, pdh: f64, order: usize) -> f64
    requires { (1 ≤ order) × (order ≤ 12) }
    ensures { result ≡ within_stability_of rh pdh order }
{
    let limit = if pdh * rh > 1.0e-5 {
        coefficients::sm1(order) / pdh
    } else {
        2.0 * rh
    };
    numbers::min(rh, limit)
}

// The BDF method that the Adams one is compared with: its factor and order.
#[tactic(auto, unfolding(crate::specs::Family::bdf_proposal_of))]
fn bdf_proposal(s: Settings, c: Common, dsm: f64, work: &[f64]) -> Proposal
    requires step_in_range { StepInRange s c }
    requires nq_bound { (c.nq ≤ 5) × (1 ≤ s.mxords) × (matrix_at s.n ≤ length work.now) }
    ensures { result ≡ bdf_proposal_of s c dsm work.now }
{
    let mxords = s.mxords();
    let (order, dm2) = if mxords < c.nq {
        (
            mxords,
            column_size(work, s.n, mxords + 1) / coefficients::cm2(c.table, mxords),
        )
    } else {
        (
            c.nq,
            dsm * (coefficients::cm1(c.table, c.nq) / coefficients::cm2(c.table, c.nq)),
        )
    };
    Proposal {
        order,
        rh: size(1.2, 1.2e-6, dm2, order + 1),
    }
}

#[tactic(auto, unfolding(crate::specs::Family::to_bdf_of, crate::specs::Family::move_if))]
fn to_bdf(s: Settings, c: Common, dsm: f64, work: &[f64]) -> Change
    requires step_in_range { StepInRange s c }
    requires le_mxords { (1 ≤ s.mxords) × (matrix_at s.n ≤ length work.now) }
    ensures { result ≡ to_bdf_of s c dsm work.now }
{
    if c.nq <= 5 && dsm > 100.0 * c.pnorm * 2.220446049250313e-16 && c.pdest != 0.0 {
        let rh1 = within_stability(
            size(1.2, 1.2e-6, dsm, c.nq + 1),
            c.pdlast * numbers::abs(c.h),
            c.nq,
        );
        let p = bdf_proposal(s, c, dsm, work);
        if p.rh >= 5.0 * rh1 {
            return Change::To(Proposal {
                rh: numbers::max(p.rh, history::least(c)),
                ..p
            });
        }
    }
    Change::Stay
}

// The Adams method that the BDF one is compared with: its error, and its order and factor before the stability limit.
#[derive(Clone, Copy)]
pub struct AdamsProposal {
    pub error: f64,
    pub proposal: Proposal,
}

#[tactic(auto, unfolding(crate::specs::Family::adams_proposal_of))]
fn adams_proposal(s: Settings, c: Common, dsm: f64, work: &[f64]) -> AdamsProposal
    requires step_in_range { StepInRange s c }
    requires nq_bound { (c.nq ≤ 5) × (1 ≤ s.mxordn) × (matrix_at s.n ≤ length work.now) }
    ensures { result ≡ adams_proposal_of s c dsm work.now }
{
    let mxordn = s.mxordn();
    let (order, error) = if c.nq <= mxordn {
        (
            c.nq,
            dsm * (coefficients::cm2(c.table, c.nq) / coefficients::cm1(c.table, c.nq)),
        )
    } else {
        (
            mxordn,
            column_size(work, s.n, mxordn + 1) / coefficients::cm1(c.table, mxordn),
        )
    };
    AdamsProposal {
        error,
        proposal: Proposal {
            order,
            rh: size(1.2, 1.2e-6, error, order + 1),
        },
    }
}

#[tactic(auto, unfolding(crate::specs::Family::to_adams_of, crate::specs::Family::move_if))]
fn to_adams(s: Settings, c: Common, dsm: f64, work: &[f64]) -> Change
    requires step_in_range { StepInRange s c }
    requires le_mxordn { (1 ≤ s.mxordn) × (matrix_at s.n ≤ length work.now) }
    ensures { result ≡ to_adams_of s c dsm work.now }
{
    if 5 < c.nq {
        return Change::Gap;
    }
    let AdamsProposal { error, proposal: p } = adams_proposal(s, c, dsm, work);
    #[tactic(auto, unfolding(crate::specs::Family::adams_proposal_of))]
    let rh1 = within_stability(p.rh, c.pdnorm * numbers::abs(c.h), p.order);
    let rh2 = size(1.2, 1.2e-6, dsm, c.nq + 1);
    if rh1 * 5.0 >= 5.0 * rh2 {
        #[tactic(auto, unfolding(crate::specs::Family::adams_proposal_of))]
        let dm1 = root::root(numbers::max(rh1, 0.001), p.order + 1).value * error;
        if dm1 > 1000.0 * 2.220446049250313e-16 * c.pnorm {
            return Change::To(Proposal {
                rh: numbers::max(rh1, history::least(c)),
                ..p
            });
        }
    }
    Change::Stay
}

// The family test of an accepted step.
#[tactic(auto, unfolding(crate::specs::Family::change_of))]
pub fn compare_families(s: Settings, c: Common, dsm: f64, work: &[f64]) -> Change
    requires step_in_range { StepInRange s c }
    requires le_mxordn { (1 ≤ s.mxordn) × (1 ≤ s.mxords) × (matrix_at s.n ≤ length work.now) }
    ensures { result ≡ change_of s c dsm work.now }
{
    match c.meth {
        MethodFamily::Adams => to_bdf(s, c, dsm, work),
        MethodFamily::Bdf => to_adams(s, c, dsm, work),
    }
}

// The other family.
fn other(meth: MethodFamily) -> MethodFamily
    ensures { result ≡ other_of meth }
{
    match meth {
        MethodFamily::Adams => MethodFamily::Bdf,
        MethodFamily::Bdf => MethodFamily::Adams,
    }
}

// The family changes: order and columns move with it; coefficients, lmax and nqnyh stay.
#[tactic(auto, unfolding(crate::specs::Family::changed_of))]
pub fn change_family(s: Settings, c: Common, to: Proposal, work: &mut [f64]) -> Common
    requires step_in_range { StepInRange s c }
    requires le_order { (1 ≤ to.order) × (to.order ≤ c.nq) × (matrix_at s.n ≤ length work.old) }
    ensures { ◌≡◌ {A = Moved} (record { common = result; work = work.new })
        (changed_of s c to work.old) }
{
    let d = Common {
        meth: other(c.meth),
        icount: 1000020,
        pdlast: 0.0,
        nq: to.order,
        ..c
    };
    history::stoda_adjust_step_size(s, d, to.rh, work)
}
