// A step's attempts that are not accepted, as in `stoda`: no convergence, the error test, its failure, and what
// follows the derivative of the third to ninth failure.
// Settings, record and work stay parameters, with a clause on each one's range: the head of crate history says why.
// The record and the error dsm stay two: the head of crate acceptance says why.
#![tactic(auto)]

ghost use Rattle.std.specs.Prelude.{◌≡◌, ◌^◌, ◌≤◌, ◌<◌, length};
ghost use Rattle.common.specs.Layout.{matrix_at};
ghost use Rattle.common.specs.State.{Moved};
ghost use Rattle.common.specs.Ranges.{StepInRange};
ghost use Rattle.history.specs.Columns.{retract_columns_of};
ghost use Rattle.attempt.specs.Attempt.{Attempt, retracted_of, repredict_of, no_convergence_of, error_of, shrunk_of};
ghost use Rattle.attempt.specs.Attempt.{tenth_of, missed_of, failed_of, restep_of};

use common::{Common, Settings};

// What follows a pass that did not lead to acceptance.
#[derive(Clone, Copy)]
pub enum Next {
    Pass,
    Restep,
    TooSmall,
    Poor,
}

#[derive(Clone, Copy)]
pub struct Attempted {
    pub next: Next,
    pub common: Common,
}

// The history and the time are put back to where the step began.
#[tactic(auto, unfolding(crate::specs::Attempt::retracted_of))]
fn retract(s: Settings, c: Common, work: &mut [f64]) -> Common
    requires step_in_range { StepInRange s c }
    requires n_in_bounds { matrix_at s.n ≤ length work.old }
    ensures { (result ≡ retracted_of c)
        × (work.new ≡ retract_columns_of s.n c.nq c.nqnyh work.old) }
{
    history::retract_columns(work, s.n, c.nq, c.nqnyh);
    Common {
        rmax: 2.0,
        tn: c.told,
        ..c
    }
}

// The columns rescaled, then predicted again.
#[tactic(auto, unfolding(crate::specs::Attempt::repredict_of))]
fn repredict(s: Settings, c: Common, rh: f64, work: &mut [f64]) -> Common
    requires step_in_range { StepInRange s c }
    requires n_in_bounds { matrix_at s.n ≤ length work.old }
    ensures { ◌≡◌ {A = Moved} (record { common = result; work = work.new })
        (repredict_of s c rh work.old) }
{
    let d = history::stoda_adjust_step_size(s, c, rh, work);
    #[tactic(auto, using(history::proofs::Laws::in_range), unfolding(history::specs::Steps::adjust_of))]
    history::stoda_get_predicted_values(s, d, work)
}

// `stoda_handle_corrector_failure`: poor at the mxncf-th such pass or at the smallest step, else a quarter of it.
#[tactic(auto, unfolding(crate::specs::Attempt::no_convergence_of))]
pub fn no_convergence(s: Settings, c: Common, work: &mut [f64]) -> Attempted
    requires step_in_range { StepInRange s c }
    requires ncf_bound { (c.ncf < 2 ^ 62) × (c.rejected < 2 ^ 63) }
    requires n_in_bounds { matrix_at s.n ≤ length work.old }
    ensures { ◌≡◌ {A = Attempt} (record { next = result.next; common = result.common; work = work.new })
        (no_convergence_of s c work.old) }
{
    let d = Common {
        ncf: c.ncf + 1,
        ..retract(s, c, work)
    };
    if d.is_tiny() || d.ncf == s.mxncf() {
        return Attempted {
            next: Next::Poor,
            common: d,
        };
    }
    let e = Common {
        due: d.meth.is_bdf(),
        rejected: c.rejected + 1,
        ..d
    };
    let rh = numbers::max(0.25, history::least(e));
    #[tactic(auto, using(history::proofs::Laws::in_range), unfolding(crate::specs::Attempt::retracted_of))]
    Attempted {
        next: Next::Pass,
        common: repredict(s, e, rh, work),
    }
}

// The error of a converged pass, 1 being what is allowed. A pass that converged at once has the size of its correction
// at hand.
#[tactic(auto, unfolding(crate::specs::Attempt::error_of))]
pub fn error(s: Settings, c: Common, del: f64, work: &[f64]) -> f64
    requires step_in_range { StepInRange s c }
    requires n_in_bounds { matrix_at s.n ≤ length work.now }
    ensures { result ≡ error_of s c del work.now }
{
    let size = if c.m == 0 {
        del
    } else {
        history::norm_at(work, s.n, common::ACOR * s.n).value
    };
    size / c.tesco(1)
}

// The factor after the first and the second error failure.
#[tactic(auto, unfolding(crate::specs::Attempt::shrunk_of))]
fn shrunk(c: Common, dsm: f64) -> f64
    requires { c.nq ≤ 12 }
    ensures { result ≡ shrunk_of c dsm }
{
    let rh = numbers::min(1.0 / (1.2 * root::root(dsm, c.nq + 1).value + 1.2e-6), 1.0);
    let rh = if 2 <= c.kflag {
        numbers::min(rh, 0.2)
    } else {
        rh
    };
    numbers::max(rh, history::least(c))
}

// A tenth of the step; y is what the derivative is wanted at.
#[tactic(auto, unfolding(crate::specs::Attempt::tenth_of))]
fn tenth(s: Settings, c: Common, work: &mut [f64]) -> Common
    requires step_in_range { StepInRange s c }
    requires n_in_bounds { matrix_at s.n ≤ length work.old }
    ensures { ◌≡◌ {A = Moved} (record { common = result; work = work.new })
        (tenth_of s c work.old) }
{
    history::copy_part(work, s.n, common::Y * s.n, 0);
    Common {
        h: c.h * numbers::max(0.1, history::least(c)),
        ..c
    }
}

// An error failure, retracted: too small at the smallest step or at the tenth failure, from the third on a tenth of
// the step and a derivative anew.
#[tactic(auto, unfolding(crate::specs::Attempt::missed_of, crate::specs::Attempt::missed_at))]
fn missed(s: Settings, c: Common, dsm: f64, work: &mut [f64]) -> Attempted
    requires step_in_range { StepInRange s c }
    requires n_in_bounds { matrix_at s.n ≤ length work.old }
    ensures { ◌≡◌ {A = Attempt} (record { next = result.next; common = result.common; work = work.new })
        (missed_of s c dsm work.old) }
{
    if c.is_tiny() || c.kflag == 10 {
        return Attempted {
            next: Next::TooSmall,
            common: c,
        };
    }
    if c.kflag < 3 {
        let rh = shrunk(c, dsm);
        return Attempted {
            next: Next::Pass,
            common: repredict(s, c, rh, work),
        };
    }
    Attempted {
        next: Next::Restep,
        common: tenth(s, c, work),
    }
}

// The error is above 1.
#[tactic(auto, unfolding(crate::specs::Attempt::failed_of, crate::specs::Attempt::overshot_of))]
pub fn error_failure(s: Settings, c: Common, dsm: f64, work: &mut [f64]) -> Attempted
    requires step_in_range { StepInRange s c }
    requires kflag_bound { (c.kflag ≤ 9) × (c.rejected < 2 ^ 63) }
    requires n_in_bounds { matrix_at s.n ≤ length work.old }
    ensures { ◌≡◌ {A = Attempt} (record { next = result.next; common = result.common; work = work.new })
        (failed_of s c dsm work.old) }
{
    let d = Common {
        rejected: c.rejected + 1,
        kflag: c.kflag + 1,
        ..retract(s, c, work)
    };
    #[tactic(auto, using(history::proofs::Laws::in_range), unfolding(crate::specs::Attempt::retracted_of))]
    missed(s, d, dsm, work)
}

// The derivative after the third to ninth error failure is in savf: order 1 from there, and a prediction.
#[tactic(auto, unfolding(crate::specs::Attempt::restep_of))]
pub fn restep(s: Settings, c: Common, work: &mut [f64]) -> Common
    requires step_in_range { StepInRange s c }
    requires n_in_bounds { matrix_at s.n ≤ length work.old }
    ensures { ◌≡◌ {A = Moved} (record { common = result; work = work.new })
        (restep_of s c work.old) }
{
    history::set_slope(work, s.n, c.h);
    let d = Common {
        due: c.meth.is_bdf(),
        ialth: 5,
        ..c
    };
    let e = if c.nq == 1 {
        d
    } else {
        Common { nq: 1, ..d }.stoda_reset(s)
    };
    #[tactic(auto, using(history::proofs::Laws::in_range), unfolding(common::specs::Rules::reset_of))]
    history::stoda_get_predicted_values(s, e, work)
}
