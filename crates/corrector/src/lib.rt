// One corrector iteration of each family: what becomes of the correction and of y, and the size of the correction; and
// the verdict on it: converged, a further derivative, a retry with a new Jacobian, no convergence.
// Three loops count a state's index: each writes two parts of the work. After a split one of them is still written by
// index, and of what `iter_mut().zip(..)` wrote a proof knows the length alone.
// That each pivot is below n stays a clause (`by_index`): the head of crate dense says why.
// Settings, record and work stay parameters, with a clause on each one's range: the head of crate history says why.
#![tactic(auto)]

ghost use Rattle.std.specs.Prelude.{◌≡◌, true, ℕ, ◌≤◌, ◌<◌, length, get_or, replicate, is_ok};
ghost use Rattle.std.specs.Result.{result_unwrap_or};
ghost use Rattle.numbers.specs.Float.{zero_f};
ghost use Rattle.common.specs.Layout.{matrix_at, work_length};
ghost use Rattle.common.specs.Ranges.{StepInRange};
ghost use Rattle.corrector.specs.Iterate.{open_of, adams_residual_of, adams_update_of, bdf_residual_of, bdf_update_of};
ghost use Rattle.corrector.specs.Iterate.{Corrected, adams_of, bdf_of, correct_of, correction_of};
ghost use Rattle.corrector.specs.Verdict.{rated_of, known_rate_of, dcon_of, estimated_of, judged_further, give_up_of};
ghost use Rattle.corrector.specs.Verdict.{judged_converged, judged_tested, judge_of};

use common::{Common, Settings};
use dense::Singular;

// ---- an iteration

// A pass's iterations begin: no correction yet.
#[tactic(auto, unfolding(crate::specs::Iterate::open_of))]
pub fn open_iterations(c: Common, acor: &mut [f64]) -> Common
    ensures { (result ≡ open_of c) × (acor.new ≡ replicate (length acor.old) zero_f) }
{
    history::fill(acor, 0.0);
    Common {
        m: 0,
        rate: 0.0,
        delp: 0.0,
        ..c
    }
}

// Adams: savf = h·savf - column 1, and in y its difference from the last correction.
#[tactic(auto, using(loops::proofs::For::turns), unfolding(crate::specs::Iterate::adams_residual_of))]
fn adams_residual(work: &mut [f64], n: usize, h: f64)
    requires { matrix_at n ≤ length work.old }
    ensures { work.new ≡ adams_residual_of n h work.old }
{
    for i in 0..n {
        work[common::SAVF * n + i] = h * work[common::SAVF * n + i] - work[n + i];
        work[common::Y * n + i] = work[common::SAVF * n + i] - work[common::ACOR * n + i];
    }
}

// Adams: y = column 0 + el0·savf, and savf is the correction.
#[tactic(auto, using(loops::proofs::For::turns), unfolding(crate::specs::Iterate::adams_update_of))]
fn adams_update(work: &mut [f64], n: usize, e: f64)
    requires { matrix_at n ≤ length work.old }
    ensures { work.new ≡ adams_update_of n e work.old }
{
    for i in 0..n {
        work[common::Y * n + i] = work[i] + e * work[common::SAVF * n + i];
        work[common::ACOR * n + i] = work[common::SAVF * n + i];
    }
}

// The size of the correction.
#[tactic(auto, unfolding(crate::specs::Iterate::adams_of))]
fn correct_adams(s: Settings, c: Common, work: &mut [f64]) -> f64
    requires step_in_range { StepInRange s c }
    requires n_in_bounds { matrix_at s.n ≤ length work.old }
    ensures { ◌≡◌ {A = Corrected} (record { solved = true; del = result; work = work.new })
        (adams_of s c work.old) }
{
    let n = s.n;
    adams_residual(work, n, c.h);
    let del = history::norm_at(work, n, common::Y * n).value;
    adams_update(work, n, c.el(s, 0));
    del
}

// BDF: y = h·savf - (column 1 + acor).
#[tactic(auto, using(loops::proofs::Split::right_turns), unfolding(crate::specs::Iterate::bdf_residual_of))]
fn bdf_residual(work: &mut [f64], n: usize, h: f64)
    requires { matrix_at n ≤ length work.old }
    ensures { work.new ≡ bdf_residual_of n h work.old }
{
    let (before, y) = work.split_at_mut(common::Y * n);
    let column = &before[n..];
    let savf = &before[common::SAVF * n..];
    let acor = &before[common::ACOR * n..];
    for (i, x) in y[..n].iter_mut().enumerate() {
        *x = h * savf[i] - (column[i] + acor[i]);
    }
}

// BDF: acor += y, and y = column 0 + el0·acor.
#[tactic(auto, using(loops::proofs::For::turns), unfolding(crate::specs::Iterate::bdf_update_of))]
fn bdf_update(work: &mut [f64], n: usize, e: f64)
    requires { matrix_at n ≤ length work.old }
    ensures { work.new ≡ bdf_update_of n e work.old }
{
    for i in 0..n {
        work[common::ACOR * n + i] += work[common::Y * n + i];
        work[common::Y * n + i] = work[i] + e * work[common::ACOR * n + i];
    }
}

// The size of the correction.
#[tactic(auto, unfolding(crate::specs::Iterate::bdf_of))]
fn correct_bdf(s: Settings, c: Common, work: &mut [f64], ipiv: &[usize]) -> Result<f64, Singular>
    requires step_in_range { StepInRange s c }
    requires n_in_bounds { (work_length s.n ≤ length work.old) × (s.n ≤ length ipiv.now) }
    requires by_index { (k : ℕ) → k < s.n → get_or ipiv.now k 0 < s.n }
    ensures { ◌≡◌ {A = Corrected}
        (record { solved = is_ok result; del = result_unwrap_or result zero_f; work = work.new })
        (bdf_of s c ipiv.now work.old) }
{
    let n = s.n;
    bdf_residual(work, n, c.h);
    dense::dense_lu_solve(work, n, common::MATRIX * n, ipiv, common::Y * n)?;
    let del = history::norm_at(work, n, common::Y * n).value;
    bdf_update(work, n, c.el(s, 0));
    Ok(del)
}

// One iteration in the family in force: the size of the correction.
#[tactic(auto, unfolding(crate::specs::Iterate::correct_of))]
pub fn correct(s: Settings, c: Common, work: &mut [f64], ipiv: &[usize]) -> Result<f64, Singular>
    requires step_in_range { StepInRange s c }
    requires n_in_bounds { (work_length s.n ≤ length work.old) × (s.n ≤ length ipiv.now) }
    requires by_index { (k : ℕ) → k < s.n → get_or ipiv.now k 0 < s.n }
    ensures { ◌≡◌ {A = Corrected}
        (record { solved = is_ok result; del = result_unwrap_or result zero_f; work = work.new })
        (correct_of s c ipiv.now work.old) }
{
    if c.meth.is_bdf() {
        correct_bdf(s, c, work, ipiv)
    } else {
        Ok(correct_adams(s, c, work))
    }
}

// ---- the verdict

// How a corrector pass stands after an iteration.
#[derive(Clone, Copy)]
pub enum Pass {
    Converged,
    Retry,
    NoConvergence,
    Further,
}

#[derive(Clone, Copy)]
pub struct Verdict {
    pub pass: Pass,
    pub common: Common,
}

// The rate of convergence after a further iteration.
#[tactic(auto, unfolding(crate::specs::Verdict::rated_of))]
fn rated(c: Common, del: f64) -> Common
    ensures { result ≡ rated_of c del }
{
    let rm = if del <= 1024.0 * c.delp {
        del / c.delp
    } else {
        1024.0
    };
    Common {
        rate: numbers::max(c.rate, rm),
        convrate: numbers::max(0.2 * c.convrate, rm),
        ..c
    }
}

// The record with what is known of the rate: in the first iteration nothing new.
#[tactic(auto, unfolding(crate::specs::Verdict::known_rate_of))]
fn known_rate(c: Common, del: f64) -> Common
    ensures { result ≡ known_rate_of c del }
{
    if c.m == 0 { c } else { rated(c, del) }
}

// The size of the correction against what the error test allows.
#[tactic(auto, unfolding(crate::specs::Verdict::dcon_of))]
fn dcon(c: Common, del: f64) -> f64
    requires { (c.table ≤ 2) × (1 ≤ c.nq) × (c.nq ≤ 12) }
    ensures { result ≡ dcon_of c del }
{
    del * numbers::min(1.5, c.convrate) / (c.tesco(1) * c.conit)
}

// The estimate of the Jacobian's norm from the rate.
#[tactic(auto, unfolding(crate::specs::Verdict::estimated_of))]
fn estimated(s: Settings, c: Common) -> Common
    requires { StepInRange s c }
    ensures { result ≡ estimated_of s c }
{
    let pdest = numbers::max(c.pdest, c.rate / numbers::abs(c.h * c.el(s, 0)));
    Common {
        pdest,
        pdlast: if pdest != 0.0 { pdest } else { c.pdlast },
        ..c
    }
}

// The pass has converged.
#[tactic(auto, unfolding(crate::specs::Verdict::judged_converged))]
fn converged(c: Common) -> Verdict
    ensures { result ≡ judged_converged c }
{
    Verdict {
        pass: Pass::Converged,
        common: Common { jcur: false, ..c },
    }
}

// The pass cannot go on: a retry where the Jacobian is old, which makes one due.
#[tactic(auto, unfolding(crate::specs::Verdict::give_up_of))]
fn give_up(c: Common) -> Verdict
    ensures { result ≡ give_up_of c }
{
    if c.meth.is_bdf() && !c.jcur {
        Verdict {
            pass: Pass::Retry,
            common: Common { due: true, ..c },
        }
    } else {
        Verdict {
            pass: Pass::NoConvergence,
            common: c,
        }
    }
}

// A further derivative, unless maxcor iterations are done or the corrections grow.
#[tactic(auto, unfolding(crate::specs::Verdict::judged_further))]
fn further(s: Settings, c: Common, del: f64) -> Verdict
    requires { (s.maxcor ≤ 1000000) × (c.m < s.maxcor) }
    ensures { result ≡ judged_further s c del }
{
    let m = c.m + 1;
    if m == s.maxcor || (2 <= m && del > 2.0 * c.delp) {
        return give_up(c);
    }
    Verdict {
        pass: Pass::Further,
        common: Common { m, delp: del, ..c },
    }
}

// The convergence test proper, after the rate is known.
#[tactic(auto, unfolding(crate::specs::Verdict::judged_tested))]
fn tested(s: Settings, c: Common, del: f64) -> Verdict
    requires step_in_range { StepInRange s c }
    requires maxcor_bound { (s.maxcor ≤ 1000000) × (c.m < s.maxcor) }
    ensures { result ≡ judged_tested s c del }
{
    if dcon(c, del) <= 1.0 {
        converged(estimated(s, c))
    } else {
        further(s, c, del)
    }
}

// How the pass stands after the iteration x with the norm pnorm of the prediction.
#[tactic(auto, unfolding(crate::specs::Verdict::judge_of))]
pub fn judge(s: Settings, c: Common, x: Result<f64, Singular>, pnorm: f64) -> Verdict
    requires step_in_range { StepInRange s c }
    requires maxcor_bound { (s.maxcor ≤ 1000000) × (c.m < s.maxcor) }
    ensures { result ≡ judge_of s c (correction_of x) pnorm }
{
    let Ok(del) = x else {
        return give_up(c);
    };
    if del <= 100.0 * pnorm * 2.220446049250313e-16 {
        converged(c)
    } else if c.m == 0 && !c.meth.is_bdf() {
        further(s, c, del)
    } else {
        tested(s, known_rate(c, del), del)
    }
}
