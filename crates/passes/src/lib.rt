// The replies in a pass, and how it ends: the Jacobian, the iterations, the error test, acceptance, the report.
// A reply f, the work and the pivots stay three slices, as the host lends them; n is known at run time alone, so that f
// is n long is a clause.
// Settings, record and work stay parameters, with a clause on each one's range: the head of crate history says why.
#![tactic(auto)]

ghost use Rattle.std.specs.Prelude.{List, ◌≡◌, ℕ, ◌*◌, ◌^◌, ◌≤◌, ◌<◌, length};
ghost use Rattle.common.specs.Layout.{matrix_at};
ghost use Rattle.common.specs.Limits.{max_states};
ghost use Rattle.common.specs.State.{given_by, state};
ghost use Rattle.common.specs.Ranges.{StepInRange, Inside, Lent};
ghost use Rattle.questions.specs.Turns.{run_state};
ghost use Rattle.passes.specs.Pass.{attempted_at, reported_of, end_step_of, accepted_of, error_test_of, pass_failed_of};
ghost use Rattle.passes.specs.Pass.{iterate_of, iterations_of, matrix_done_of, ask_column_of, ask_jacobian_of};
ghost use Rattle.passes.specs.Pass.{opened_reply_of, jacobian_reply_of, column_reply_of, further_reply_of};
ghost use Rattle.passes.specs.Pass.{restep_reply_of};

use acceptance::Branch;
use attempt::Next;
use between_steps::Status;
use common::{Common, Problem, Settings};
use corrector::Pass;
use questions::{At, Phase, Question, Step, Turn};

// ---- a pass's end

// After a pass that was not accepted.
#[tactic(auto, unfolding(crate::specs::Pass::attempted_at))]
fn attempted(a: attempt::Attempted, n: usize, work: &mut [f64]) -> Turn
    requires { (a.common.nfe < 2 ^ 63) × (a.common.count < 2 ^ 63) × (matrix_at n ≤ length work.old) }
    ensures { (p : List ℕ) → run_state result work.new p
        ≡ attempted_at n (state a.common work.old p) a.next }
{
    match a.next {
        Next::Pass => questions::open_pass(a.common, n, work),
        Next::Restep => questions::ask_in_step(a.common, Phase::Restep),
        Next::TooSmall => questions::finish(a.common, Status::StepTooSmall),
        Next::Poor => questions::finish(a.common, Status::PoorConvergence),
    }
}

// The weights of the new state stand: the report.
#[tactic(auto, unfolding(crate::specs::Pass::reported_of))]
fn report(c: Common, n: usize, work: &mut [f64]) -> Turn
    requires { (c.nst < 2 ^ 63) × (c.rejected < 2 ^ 63) × (matrix_at n ≤ length work.old) }
    ensures { (p : List ℕ) → run_state result work.new p
        ≡ reported_of n (state c work.old p) }
{
    history::copy_part(work, n, common::Y * n, 0);
    let step = Step {
        previous: c.told,
        time: c.tn,
        count: c.count,
        order: c.nq,
    };
    Turn {
        question: Question::Report(step),
        phase: Phase::Report,
        common: Common {
            total: c.nst + c.rejected,
            ..c
        },
    }
}

// The end of an accepted step that used the given order: weights, then the report or 12.
#[tactic(auto, unfolding(crate::specs::Pass::end_step_of, crate::specs::Pass::closed_at))]
fn end_step(g: &Problem, c: Common, order: usize, work: &mut [f64]) -> Turn
    requires step_in_range { StepInRange g.now.settings c }
    requires le_order { (1 ≤ order) × (order ≤ 12) }
    requires nst_bound { (c.nst < 2 ^ 63) × (c.rejected < 2 ^ 63) }
    requires n_in_bounds { matrix_at g.now.settings.n ≤ length work.old }
    ensures { (p : List ℕ) → run_state result work.new p
        ≡ end_step_of (given_by g.now) (state c work.old p) order }
{
    match acceptance::close(g, c, order, work) {
        Ok(()) => report(c, g.settings.n, work),
        Err(why) => questions::refuse_weight(c, why),
    }
}

// The error is at most 1, or a NaN: the step is accepted.
#[tactic(auto, unfolding(crate::specs::Pass::accepted_of, crate::specs::Pass::accepted_at))]
fn accepted(g: &Problem, c: Common, dsm: f64, work: &mut [f64]) -> Turn
    requires inside { Inside g.now.settings c }
    requires n_in_bounds { matrix_at g.now.settings.n ≤ length work.old }
    ensures { (p : List ℕ) → run_state result work.new p
        ≡ accepted_of (given_by g.now) (state c work.old p) dsm }
{
    let chosen = acceptance::accept(g.settings, c, dsm, work);
    #[tactic(auto, using(crate::proofs::PassInside::accepted))]
    match chosen.branch {
        Branch::CoefficientGap => questions::finish(chosen.common, Status::CoefficientGap),
        // every other branch ends the step
        _ => end_step(g, chosen.common, c.nq, work),
    }
}

// The pass has converged: the error test.
#[tactic(auto, unfolding(crate::specs::Pass::error_test_of, crate::specs::Pass::error_test_at))]
fn error_test(g: &Problem, c: Common, del: f64, work: &mut [f64]) -> Turn
    requires inside { Inside g.now.settings c }
    requires n_in_bounds { matrix_at g.now.settings.n ≤ length work.old }
    ensures { (p : List ℕ) → run_state result work.new p
        ≡ error_test_of (given_by g.now) (state c work.old p) del }
{
    let dsm = attempt::error(g.settings, c, del, work);
    if dsm > 1.0 {
        #[tactic(auto, using(attempt::proofs::Laws::failed))]
        attempted(
            attempt::error_failure(g.settings, c, dsm, work),
            g.settings.n,
            work,
        )
    } else {
        accepted(g, c, dsm, work)
    }
}

#[tactic(auto, unfolding(crate::specs::Pass::pass_failed_of))]
fn pass_failed(s: Settings, c: Common, work: &mut [f64]) -> Turn
    requires inside { Inside s c }
    requires n_in_bounds { matrix_at s.n ≤ length work.old }
    ensures { (p : List ℕ) → run_state result work.new p
        ≡ pass_failed_of s (state c work.old p) }
{
    #[tactic(auto, using(attempt::proofs::Laws::unconverged))]
    attempted(attempt::no_convergence(s, c, work), s.n, work)
}

// One iteration, and what its verdict leads to.
#[tactic(auto, unfolding(crate::specs::Pass::iterate_of, crate::specs::Pass::concluded_at))]
fn iterate(g: &Problem, c: Common, work: &mut [f64], ipiv: &[usize]) -> Turn
    requires inside { Inside g.now.settings c }
    requires lent { Lent g.now.settings.n work.old ipiv.now }
    ensures { run_state result work.new ipiv.now
        ≡ iterate_of (given_by g.now)
        (state c work.old ipiv.now) }
{
    let n = g.settings.n;
    let x = corrector::correct(g.settings, c, work, ipiv);
    let pnorm = history::norm_at(work, n, 0).value;
    let verdict = corrector::judge(g.settings, c, x, pnorm);
    let d = verdict.common;
    #[tactic(auto, using(crate::proofs::PassInside::inside_judged))]
    match verdict.pass {
        // an iteration that is refused does not converge
        Pass::Converged => error_test(g, d, x.unwrap_or(0.0), work),
        Pass::Retry => questions::open_pass(d, n, work),
        Pass::NoConvergence => pass_failed(g.settings, d, work),
        Pass::Further => questions::ask_in_step(d, Phase::FurtherDerivative),
    }
}

#[tactic(auto, unfolding(crate::specs::Pass::iterations_of, history::specs::Columns::fill_of))]
fn iterations(g: &Problem, c: Common, work: &mut [f64], ipiv: &[usize]) -> Turn
    requires inside { Inside g.now.settings c }
    requires lent { Lent g.now.settings.n work.old ipiv.now }
    ensures { run_state result work.new ipiv.now
        ≡ iterations_of (given_by g.now)
        (state c work.old ipiv.now) }
{
    let n = g.settings.n;
    let a = common::ACOR * n;
    let e = common::Y * n;
    let d = corrector::open_iterations(c, &mut work[a..e]);
    #[tactic(auto, unfolding(corrector::specs::Iterate::open_of))]
    iterate(g, d, work, ipiv)
}

// The matrix is complete: factored, then the iterations; a singular one gives no convergence.
#[tactic(auto, unfolding(crate::specs::Pass::matrix_done_of, crate::specs::Pass::matrix_done_at))]
fn matrix_done(g: &Problem, c: Common, work: &mut [f64], ipiv: &mut [usize]) -> Turn
    requires inside { Inside g.now.settings c }
    requires nlu_bound { c.nlu < 2 ^ 63 }
    requires lent { Lent g.now.settings.n work.old ipiv.old }
    ensures { run_state result work.new ipiv.new
        ≡ matrix_done_of (given_by g.now)
        (state c work.old ipiv.old) }
{
    let f = jacobian::finish_jacobian(g.settings, c, work, ipiv);
    #[tactic(auto, using(crate::proofs::PassInside::factored))]
    match f.outcome {
        Ok(()) => iterations(g, f.common, work, ipiv),
        Err(_) => pass_failed(g.settings, f.common, work),
    }
}

// ---- replies in a pass

// A difference column is asked for.
#[tactic(auto, unfolding(crate::specs::Pass::ask_column_of))]
fn ask_column(s: Settings, c: Common, j: usize, work: &mut [f64]) -> Turn
    requires n_le_max_states { (s.n ≤ max_states) × (j < s.n) }
    requires nfe_bound { (c.nfe < 2 ^ 63) × (c.count < 2 ^ 63) }
    requires n_in_bounds { matrix_at s.n ≤ length work.old }
    ensures { (p : List ℕ) → run_state result work.new p
        ≡ ask_column_of s (state c work.old p) j }
{
    jacobian::perturb(s, c, work, j);
    questions::ask_in_step(Common { column: j, ..c }, Phase::DifferenceColumn)
}

// A Jacobian begins: asked of the host, or by differences from the first column.
#[tactic(auto, unfolding(crate::specs::Pass::ask_jacobian_of, crate::specs::Pass::ask_jacobian_at))]
fn ask_jacobian(s: Settings, c: Common, work: &mut [f64]) -> Turn
    requires inside { Inside s c }
    requires nje_bound { c.nje < 2 ^ 63 }
    requires n_in_bounds { matrix_at s.n ≤ length work.old }
    ensures { (p : List ℕ) → run_state result work.new p
        ≡ ask_jacobian_of s (state c work.old p) }
{
    let d = jacobian::begin_jacobian(c);
    if c.meth.is_bdf() && s.supplied {
        Turn {
            question: Question::Jacobian(At { time: d.tn }),
            phase: Phase::JacobianAsked,
            common: d,
        }
    } else {
        let n = s.n;
        history::copy_part(work, n, common::Y_FD * n, common::Y * n);
        #[tactic(auto, unfolding(jacobian::specs::Jacobian::begin_of))]
        ask_column(s, d, 0, work)
    }
}

// The derivative at the prediction.
#[tactic(auto, unfolding(crate::specs::Pass::opened_reply_of, crate::specs::Pass::opened_reply_at))]
pub fn opened_reply(g: &Problem, c: Common, f: &[f64], work: &mut [f64], ipiv: &[usize]) -> Turn
    requires inside { Inside g.now.settings c }
    requires nje_bound { c.nje < 2 ^ 63 }
    requires f_len { length f.now ≡ g.now.settings.n }
    requires lent { Lent g.now.settings.n work.old ipiv.now }
    ensures { run_state result work.new ipiv.now
        ≡ opened_reply_of (given_by g.now)
        (state c work.old ipiv.now) f.now }
{
    history::store(work, common::SAVF * g.settings.n, f);
    if c.due {
        ask_jacobian(g.settings, c, work)
    } else {
        iterations(g, c, work, ipiv)
    }
}

// The host's Jacobian.
#[tactic(auto, unfolding(crate::specs::Pass::jacobian_reply_of))]
pub fn jacobian_reply(
    g: &Problem,
    c: Common,
    f: &[f64],
    work: &mut [f64],
    ipiv: &mut [usize],
) -> Turn
    requires inside { Inside g.now.settings c }
    requires nlu_bound { c.nlu < 2 ^ 63 }
    requires f_len { length f.now ≡ g.now.settings.n * g.now.settings.n }
    requires lent { Lent g.now.settings.n work.old ipiv.old }
    ensures { run_state result work.new ipiv.new
        ≡ jacobian_reply_of (given_by g.now)
        (state c work.old ipiv.old) f.now }
{
    let a = common::MATRIX * g.settings.n;
    let e = a + f.len();
    jacobian::store_jacobian(c, &mut work[a..e], f);
    matrix_done(g, c, work, ipiv)
}

// The derivative of a difference column.
#[tactic(auto, unfolding(crate::specs::Pass::column_reply_of, crate::specs::Pass::column_reply_at))]
pub fn column_reply(g: &Problem, c: Common, f: &[f64], work: &mut [f64], ipiv: &mut [usize]) -> Turn
    requires inside { Inside g.now.settings c }
    requires nlu_bound { c.nlu < 2 ^ 63 }
    requires f_len { length f.now ≡ g.now.settings.n }
    requires lent { Lent g.now.settings.n work.old ipiv.old }
    ensures { run_state result work.new ipiv.new
        ≡ column_reply_of (given_by g.now)
        (state c work.old ipiv.old) f.now }
{
    history::store(work, common::FTEM * g.settings.n, f);
    let j = c.column;
    jacobian::store_column(g.settings, c, work, j);
    if j + 1 < g.settings.n {
        ask_column(g.settings, c, j + 1, work)
    } else {
        let first = Common { column: 0, ..c };
        matrix_done(g, first, work, ipiv)
    }
}

// A further derivative.
#[tactic(auto, unfolding(crate::specs::Pass::further_reply_of))]
pub fn further_reply(g: &Problem, c: Common, f: &[f64], work: &mut [f64], ipiv: &[usize]) -> Turn
    requires inside { Inside g.now.settings c }
    requires f_len { length f.now ≡ g.now.settings.n }
    requires lent { Lent g.now.settings.n work.old ipiv.now }
    ensures { run_state result work.new ipiv.now
        ≡ further_reply_of (given_by g.now)
        (state c work.old ipiv.now) f.now }
{
    history::store(work, common::SAVF * g.settings.n, f);
    iterate(g, c, work, ipiv)
}

// The derivative after the third to ninth error failure.
#[tactic(auto, unfolding(crate::specs::Pass::restep_reply_of))]
pub fn restep_reply(s: Settings, c: Common, f: &[f64], work: &mut [f64]) -> Turn
    requires inside { Inside s c }
    requires f_len { length f.now ≡ s.n }
    requires n_in_bounds { matrix_at s.n ≤ length work.old }
    ensures { (p : List ℕ) → run_state result work.new p
        ≡ restep_reply_of s (state c work.old p) f.now }
{
    history::store(work, common::SAVF * s.n, f);
    let d = attempt::restep(s, c, work);
    #[tactic(auto, using(attempt::proofs::Laws::restepped))]
    questions::open_pass(d, s.n, work)
}
