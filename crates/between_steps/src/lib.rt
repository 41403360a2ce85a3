// What the run does between two steps, shared by the machine and the step rules: what a host may say and how a run
// may end, the way to a step's first prediction, the first step's size, a state that the host gives.
// Settings, record and work stay parameters, with a clause on each one's range: the head of crate history says why.
// take_first and take_state go by the length of what they take, so n is no parameter of theirs.
#![tactic(auto)]

ghost use Rattle.std.specs.Prelude.{◌≡◌, ◌≤◌, length};
ghost use Rattle.vectors.specs.Weights.{ewset_like_of};
ghost use Rattle.common.specs.Layout.{ewt_at, y_at, matrix_at};
ghost use Rattle.history.specs.Columns.{copy_of};
ghost use Rattle.common.specs.State.{Moved};
ghost use Rattle.common.specs.Ranges.{Accepted, Inside};
ghost use Rattle.between_steps.specs.Begin.{cut_of, setup_of, prepared_of, first_prediction_of};
ghost use Rattle.between_steps.specs.Start.{with_derivative, inverted, first_size_of, taken_of, restart_of};

use common::{Common, MethodFamily, Settings};

// How a run ends, each with the number that a call answers.
#[derive(Clone, Copy)]
pub enum Status {
    Success = 110,
    Interrupted = 111,
    NeedsMoreSteps = 112,
    StepTooSmall = 113,
    PoorConvergence = 114,
    CoefficientGap = 115,
}

// What the host says to a report; the Rust's `XOut` is Continue.
#[derive(Clone, Copy, PartialEq, Eq)]
pub enum Answer {
    Continue,
    Interrupt,
    Modified,
}

// The kind of a reply.
#[derive(Clone, Copy, PartialEq, Eq)]
pub enum Kind {
    Derivative,
    Jacobian,
    Report(Answer),
}

// ---- a step begins

// The interval's end cuts the step: rescaled to what is left. Its setup is skipped.
#[tactic(auto, unfolding(crate::specs::Begin::cut_of))]
fn cut(s: Settings, c: Common, work: &mut [f64]) -> Common
    requires inside { Inside s c }
    requires n_in_bounds { matrix_at s.n ≤ length work.old }
    ensures { ◌≡◌ {A = Moved} (record { common = result; work = work.new })
        (cut_of s c work.old) }
{
    let d = Common { setup: false, ..c };
    history::stoda_adjust_step_size(s, d, (s.xend - c.tn) / c.h, work)
}

// First-call setup.
#[tactic(auto, unfolding(crate::specs::Begin::setup_of, common::specs::Rules::first_call_init_of))]
fn setup(s: Settings, c: Common) -> Common
    requires { Accepted s }
    ensures { result ≡ setup_of s c }
{
    let d = Common { setup: false, ..c };
    d.stoda_first_call_init(s).stoda_reset(s)
}

// What comes before a step's first prediction: the cut, else the setup if it is due.
#[tactic(auto, unfolding(crate::specs::Begin::prepared_of, crate::specs::Begin::prepared_at))]
fn prepare(s: Settings, c: Common, work: &mut [f64]) -> Common
    requires inside { Inside s c }
    requires n_in_bounds { matrix_at s.n ≤ length work.old }
    ensures { ◌≡◌ {A = Moved} (record { common = result; work = work.new })
        (prepared_of s c work.old) }
{
    if numbers::abs(c.h) > numbers::abs(s.xend - c.tn) {
        cut(s, c, work)
    } else if c.setup {
        setup(s, c)
    } else {
        c
    }
}

// A step begins: prepared and predicted, with the norm of its first prediction.
#[tactic(auto, unfolding(crate::specs::Begin::first_prediction_of, crate::specs::Begin::predicted_at))]
pub fn first_prediction(s: Settings, c: Common, work: &mut [f64]) -> Common
    requires inside { Inside s c }
    requires n_in_bounds { matrix_at s.n ≤ length work.old }
    ensures { ◌≡◌ {A = Moved} (record { common = result; work = work.new })
        (first_prediction_of s c work.old) }
{
    let prepared = prepare(s, c, work);
    let d = Common {
        kflag: 0,
        ncf: 0,
        count: 0,
        jcur: false,
        told: c.tn,
        ..prepared
    };
    let e = history::stoda_get_predicted_values(s, d, work);
    Common {
        pnorm: history::norm_at(work, s.n, 0).value,
        ..e
    }
}

// ---- the start and the reports

// The first step within the largest step, the interval and the smallest step.
#[tactic(auto, unfolding(crate::specs::Start::first_size_of))]
pub fn first_size(s: Settings, c: Common, h: f64) -> f64
    ensures { result ≡ first_size_of s c h }
{
    let left = s.xend - c.tn;
    let h1 = if c.hmxi != 0.0 {
        h / numbers::max(numbers::abs(h) * c.hmxi, 1.0)
    } else {
        h
    };
    let h2 = if numbers::abs(h1) > numbers::abs(left) {
        left
    } else {
        h1
    };
    if numbers::abs(h2) < c.hmin {
        c.hmin * s.direction
    } else {
        h2
    }
}

// The derivative at the start in savf, and y in column 0.
pub fn take_first(f: &[f64], work: &mut [f64])
    requires { matrix_at (length f.now) ≤ length work.old }
    ensures { work.new
        ≡ copy_of (length f.now) 0 (y_at (length f.now)) (with_derivative (length f.now) f.now work.old) }
{
    let n = f.len();
    history::store(work, common::SAVF * n, f);
    history::copy_part(work, n, 0, common::Y * n);
}

// The state as the host gives it, in y and in column 0.
pub fn take_state(y: &[f64], work: &mut [f64])
    requires { matrix_at (length y.now) ≤ length work.old }
    ensures { work.new ≡ taken_of (length y.now) y.now work.old }
{
    history::store(work, common::Y * y.len(), y);
    history::store(work, 0, y);
}

// `restart_after_modification`: order 1, Adams, weights from the state, setup due.
pub fn restart(c: Common) -> Common
    ensures { result ≡ restart_of c }
{
    Common {
        meth: MethodFamily::Adams,
        setup: true,
        nq: 1,
        ..c
    }
}

// The weights of a modified state, 1 / max(|y|, 2^-52).
pub fn state_weights(n: usize, work: &mut [f64])
    requires { matrix_at n ≤ length work.old }
    ensures { work.new ≡ inverted n (ewset_like_of n (ewt_at n) work.old) }
{
    let w = common::EWT * n;
    let we = common::SAVF * n;
    vectors::ewset_scalar_like(work, n, w);
    let _ = vectors::invert_weights(&mut work[w..we]); // none of these weights is refused: each is at least 2^-52
}
