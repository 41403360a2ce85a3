// What a run asks, what it then waits for and keeps until the reply; and the way from one step to the next.
// Settings, record and work stay parameters, with a clause on each one's range: the head of crate history says why.
#![tactic(auto)]

ghost use Rattle.std.specs.Prelude.{List, ◌≡◌, ℕ, ◌^◌, ◌≤◌, ◌<◌, length};
ghost use Rattle.common.specs.Layout.{matrix_at};
ghost use Rattle.common.specs.State.{state};
ghost use Rattle.common.specs.Ranges.{Inside};
ghost use Rattle.questions.specs.Turns.{run_state, asked_of, asked_in_step_of, finished_of, weight_refused};
ghost use Rattle.questions.specs.Begin.{open_pass_of, began_of, go_on_of};

use between_steps::Status;
use common::{Common, Settings};
use vectors::NotPositive;

// What the run waits for.
#[derive(Clone, Copy)]
pub enum Phase {
    FirstDerivative,
    FirstReport,
    FirstModified,
    Opened,
    JacobianAsked,
    DifferenceColumn,
    FurtherDerivative,
    Restep,
    Report,
    Modified,
    Finished,
}

#[derive(Clone, Copy)]
pub struct Session {
    pub settings: Settings,
    pub common: Common,
    pub phase: Phase,
}

// A question about the state at a time.
#[derive(Clone, Copy)]
pub struct At {
    pub time: f64,
}

// A report after a step: previous time, time, derivatives requested in the step, and the order of its snapshot.
#[derive(Clone, Copy)]
pub struct Step {
    pub previous: f64,
    pub time: f64,
    pub count: usize,
    pub order: usize,
}

#[derive(Clone, Copy)]
pub struct End {
    pub h: f64,
    pub status: Status,
    pub nfe: usize,
    pub nje: usize,
    pub nlu: usize,
    pub total: usize,
    pub accepted: usize,
    pub rejected: usize,
}

// What a call answers.
#[derive(Clone, Copy)]
pub enum Question {
    Derivative(At),
    Jacobian(At),
    FirstReport(At),
    Report(Step),
    Finished(End),
    StepRefused(f64),
    WeightRefused(usize),
    Unasked,
}

// The next question, the phase that waits for its reply, and the record then.
#[derive(Clone, Copy)]
pub struct Turn {
    pub question: Question,
    pub phase: Phase,
    pub common: Common,
}

// ---- questions

// A derivative that belongs to no step.
#[tactic(auto, unfolding(crate::specs::Turns::asked_of))]
pub fn ask(c: Common, phase: Phase) -> Turn
    requires { c.nfe < 2 ^ 63 }
    ensures { result ≡ asked_of c phase }
{
    Turn {
        question: Question::Derivative(At { time: c.tn }),
        phase,
        common: Common {
            nfe: c.nfe + 1,
            ..c
        },
    }
}

// A derivative of the step under way.
#[tactic(auto, unfolding(crate::specs::Turns::asked_of, crate::specs::Turns::asked_in_step_of))]
pub fn ask_in_step(c: Common, phase: Phase) -> Turn
    requires { (c.nfe < 2 ^ 63) × (c.count < 2 ^ 63) }
    ensures { result ≡ asked_in_step_of c phase }
{
    let counted = Common {
        count: c.count + 1,
        ..c
    };
    ask(counted, phase)
}

#[tactic(auto, unfolding(crate::specs::Turns::finished_of))]
pub fn finish(c: Common, status: Status) -> Turn
    ensures { result ≡ finished_of c status }
{
    let end = End {
        h: c.h,
        status,
        nfe: c.nfe,
        nje: c.nje,
        nlu: c.nlu,
        total: c.total,
        accepted: c.nst,
        rejected: c.rejected,
    };
    Turn {
        question: Question::Finished(end),
        phase: Phase::Finished,
        common: c,
    }
}

// 12: a weight is at most 0.
pub fn refuse_weight(c: Common, why: NotPositive) -> Turn
    ensures { result ≡ weight_refused c why.index }
{
    Turn {
        question: Question::WeightRefused(why.index),
        phase: Phase::Finished,
        common: c,
    }
}

// ---- between steps: the pivots are not lent, so a contract says of any that they stay

// A pass opens: the derivative at the prediction is wanted.
#[tactic(auto, unfolding(crate::specs::Begin::open_pass_of))]
pub fn open_pass(c: Common, n: usize, work: &mut [f64]) -> Turn
    requires { (c.nfe < 2 ^ 63) × (c.count < 2 ^ 63) × (matrix_at n ≤ length work.old) }
    ensures { (p : List ℕ)
        → run_state result work.new p ≡ open_pass_of n (state c work.old p) }
{
    history::copy_part(work, n, common::Y * n, 0);
    ask_in_step(c, Phase::Opened)
}

// A step begins: its first prediction, its first pass.
#[tactic(auto, unfolding(crate::specs::Begin::began_of))]
fn begin_step(s: Settings, c: Common, work: &mut [f64]) -> Turn
    requires inside { Inside s c }
    requires n_in_bounds { matrix_at s.n ≤ length work.old }
    ensures { (p : List ℕ) → run_state result work.new p ≡ began_of s (state c work.old p) }
{
    #[tactic(auto, using(crate::proofs::Counts::first_counts))]
    open_pass(between_steps::first_prediction(s, c, work), s.n, work)
}

// The loop of `solve`: the interval's end, the largest number of steps, another step.
#[tactic(auto, unfolding(crate::specs::Begin::go_on_of, crate::specs::Begin::go_on_at))]
pub fn go_on(s: Settings, c: Common, work: &mut [f64]) -> Turn
    requires inside { Inside s c }
    requires n_in_bounds { matrix_at s.n ≤ length work.old }
    ensures { (p : List ℕ) → run_state result work.new p ≡ go_on_of s (state c work.old p) }
{
    if (s.xend - c.tn) * s.direction > 0.0 {
        if s.maxsteps <= c.nst {
            finish(c, Status::NeedsMoreSteps)
        } else {
            begin_step(s, c, work)
        }
    } else {
        finish(c, Status::Success)
    }
}
