// The start and the reports: the first step, and what the host's answers and a state that it has modified lead to.
// Settings, record and work stay parameters, with a clause on each one's range: the head of crate history says why.
// Answer, y and time of a reply stay three: the head of crate machine says why.
// That a reply is n long is a clause: the head of crate passes says why.
#![tactic(auto)]

ghost use Rattle.std.specs.Prelude.{List, ◌≡◌, ℕ, ◌≤◌, length};
ghost use Rattle.common.specs.Layout.{matrix_at};
ghost use Rattle.common.specs.State.{given_by, state};
ghost use Rattle.common.specs.Ranges.{Inside};
ghost use Rattle.between_steps.specs.Start.{first_step_of};
ghost use Rattle.questions.specs.Turns.{run_state};
ghost use Rattle.reports.specs.Reports.{sized_of, first_derivative_of, after_first_report_of, first_modified_of};
ghost use Rattle.reports.specs.Reports.{after_report_of, modified_of};

use between_steps::{Answer, Status};
use common::{Common, Problem, Settings};
use questions::{At, Phase, Question, Turn};

// The first step is known: refused (11), or the first report.
#[tactic(auto, unfolding(crate::specs::Reports::sized_of, crate::specs::Reports::sized_at))]
fn sized(s: Settings, c: Common, h: f64, work: &mut [f64]) -> Turn
    requires { matrix_at s.n ≤ length work.old }
    ensures { (p : List ℕ) → run_state result work.new p ≡ sized_of s (state c work.old p) h }
{
    if numbers::is_refused(h, s.direction) {
        Turn {
            question: Question::StepRefused(h),
            phase: Phase::Finished,
            common: Common { h, ..c },
        }
    } else {
        let h = between_steps::first_size(s, c, h);
        history::set_slope(work, s.n, h);
        Turn {
            question: Question::FirstReport(At { time: c.tn }),
            phase: Phase::FirstReport,
            common: Common { h, ..c },
        }
    }
}

// The first step, as given or computed from the weights of the start.
#[tactic(auto, using(common::proofs::Lists::one_or_n))]
fn first_step(g: &Problem, c: Common, work: &[f64]) -> f64
    requires le_n { 1 ≤ g.now.settings.n }
    requires n_in_bounds { matrix_at g.now.settings.n ≤ length work.now }
    ensures { result ≡ first_step_of g.now.settings c g.now.rtol.now g.now.atol.now work.now }
{
    if g.settings.given {
        c.h
    } else {
        let n = g.settings.n;
        let f = common::SAVF * n;
        let fe = common::FTEM * n;
        let w = common::EWT * n;
        vectors::initial_step_size(
            c.tn,
            g.settings.xend,
            &work[0..n],
            &work[f..fe],
            &work[w..f],
            g.rtol,
            g.atol,
        )
    }
}

// The derivative at the start.
#[tactic(auto, unfolding(crate::specs::Reports::first_derivative_of, crate::specs::Reports::weighted_at))]
pub fn first_derivative(g: &Problem, c: Common, f: &[f64], work: &mut [f64]) -> Turn
    requires le_n { 1 ≤ g.now.settings.n }
    requires f_len { length f.now ≡ g.now.settings.n }
    requires n_in_bounds { matrix_at g.now.settings.n ≤ length work.old }
    ensures { (p : List ℕ) → run_state result work.new p
        ≡ first_derivative_of (given_by g.now) (state c work.old p) f.now }
{
    let n = g.settings.n;
    between_steps::take_first(f, work);
    let w = common::EWT * n;
    let we = common::SAVF * n;
    #[tactic(auto, using(common::proofs::Lists::one_or_n))]
    vectors::ewset(g.rtol, g.atol, work, n, w);
    match vectors::invert_weights(&mut work[w..we]) {
        Ok(()) => {
            let h = first_step(g, c, work);
            sized(g.settings, c, h, work)
        }
        Err(why) => questions::refuse_weight(c, why),
    }
}

#[tactic(auto, unfolding(crate::specs::Reports::after_first_report_of))]
pub fn after_first_report(
    s: Settings,
    c: Common,
    answer: Answer,
    y: &[f64],
    time: f64,
    work: &mut [f64],
) -> Turn
    requires inside { Inside s c }
    requires y_len { length y.now ≡ s.n }
    requires n_in_bounds { matrix_at s.n ≤ length work.old }
    ensures { (p : List ℕ) → run_state result work.new p
        ≡ after_first_report_of s (state c work.old p) answer y.now time }
{
    let d = Common { tn: time, ..c };
    match answer {
        Answer::Continue => questions::go_on(s, d, work),
        Answer::Interrupt => questions::finish(d, Status::Interrupted),
        Answer::Modified => {
            between_steps::take_state(y, work);
            questions::ask(d, Phase::FirstModified)
        }
    }
}

// The derivative after a modified first report.
#[tactic(auto, unfolding(crate::specs::Reports::first_modified_of))]
pub fn first_modified(s: Settings, c: Common, f: &[f64], work: &mut [f64]) -> Turn
    requires inside { Inside s c }
    requires f_len { length f.now ≡ s.n }
    requires n_in_bounds { matrix_at s.n ≤ length work.old }
    ensures { (p : List ℕ) → run_state result work.new p
        ≡ first_modified_of s (state c work.old p) f.now }
{
    let n = s.n;
    history::store(work, common::SAVF * n, f);
    history::set_slope(work, n, c.h);
    questions::go_on(s, c, work)
}

#[tactic(auto, unfolding(crate::specs::Reports::after_report_of))]
pub fn after_report(
    s: Settings,
    c: Common,
    answer: Answer,
    y: &[f64],
    time: f64,
    work: &mut [f64],
) -> Turn
    requires inside { Inside s c }
    requires y_len { length y.now ≡ s.n }
    requires n_in_bounds { matrix_at s.n ≤ length work.old }
    ensures { (p : List ℕ) → run_state result work.new p
        ≡ after_report_of s (state c work.old p) answer y.now time }
{
    between_steps::take_state(y, work);
    let d = Common { tn: time, ..c };
    match answer {
        Answer::Continue => questions::go_on(s, d, work),
        Answer::Interrupt => questions::finish(d, Status::Interrupted),
        Answer::Modified => {
            let before = Common {
                tn: c.told + c.hu,
                ..c
            };
            questions::ask(before, Phase::Modified)
        }
    }
}

// The derivative after a modified report.
#[tactic(auto, unfolding(crate::specs::Reports::modified_of))]
pub fn modified(s: Settings, c: Common, f: &[f64], work: &mut [f64]) -> Turn
    requires inside { Inside s c }
    requires f_len { length f.now ≡ s.n }
    requires n_in_bounds { matrix_at s.n ≤ length work.old }
    ensures { (p : List ℕ) → run_state result work.new p
        ≡ modified_of s (state c work.old p) f.now }
{
    let n = s.n;
    history::store(work, common::SAVF * n, f);
    history::set_slope(work, n, c.h);
    between_steps::state_weights(n, work);
    questions::go_on(s, between_steps::restart(c), work)
}
