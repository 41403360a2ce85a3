// The run as a machine that asks: from a record, a phase and a reply to the next question.
// `resume` hands each reply to the function of its phase.
// Settings, record and work stay parameters, with a clause on each one's range: the head of crate history says why.
// Kind, numbers and time of a reply stay three: the calls have them so, and each is read by itself.
#![tactic(auto)]

ghost use Rattle.std.specs.Prelude.{List, ◌≡◌, ℕ, ◌≤◌, Float};
ghost use Rattle.common.specs.Limits.{max_states};
ghost use Rattle.common.specs.State.{given, state};
ghost use Rattle.questions.specs.Requires.{Resumes, UnlessFinished};
ghost use Rattle.questions.specs.Turns.{run_state};
ghost use Rattle.machine.specs.Resume.{is_asked, unasked, resume_of};

use between_steps::Kind;
use common::Problem;
use questions::{Phase, Question, Session, Turn};

// Whether a reply of this kind and length is what the phase waits for.
fn is_asked(phase: Phase, kind: Kind, len: usize, n: usize) -> bool
    requires { n ≤ max_states }
    ensures { result ≡ is_asked phase kind len n }
{
    match phase {
        Phase::Finished => false,
        Phase::JacobianAsked => kind == Kind::Jacobian && len == n * n,
        Phase::FirstReport | Phase::Report => matches!(kind, Kind::Report(_)) && len == n,
        Phase::FirstDerivative
        | Phase::FirstModified
        | Phase::Opened
        | Phase::DifferenceColumn
        | Phase::FurtherDerivative
        | Phase::Restep
        | Phase::Modified => kind == Kind::Derivative && len == n,
    }
}

// Nothing has changed.
fn unasked(x: Session) -> Turn
    ensures { (w : List Float) (p : List ℕ) → run_state result w p ≡ unasked x.phase (state x.common w p) }
{
    Turn {
        question: Question::Unasked,
        phase: x.phase,
        common: x.common,
    }
}

// The next question after a reply; nothing has changed where the reply is not what was asked.
#[tactic(auto, unfolding(crate::specs::Resume::resume_of, crate::specs::Resume::resume_at))]
pub fn resume(
    x: Session,
    kind: Kind,
    reply: &[f64],
    time: f64,
    rtol: &[f64],
    atol: &[f64],
    work: &mut [f64],
    ipiv: &mut [usize],
) -> Turn
    requires n_le_max_states { x.settings.n ≤ max_states }
    requires unless_finished { UnlessFinished x.phase (Resumes x rtol.now atol.now work.old ipiv.old) }
    ensures { run_state result work.new ipiv.new
        ≡ resume_of (given x.settings rtol.now atol.now) x.phase
        (state x.common work.old ipiv.old) kind reply.now time }
{
    let s = x.settings;
    let c = x.common;
    if !is_asked(x.phase, kind, reply.len(), s.n) {
        return unasked(x);
    }
    let g = Problem {
        settings: s,
        rtol,
        atol,
    };
    // The phase is a stored session's, read from its bytes: data to switch on, which can hold no closure.
    match (x.phase, kind) {
        (Phase::FirstDerivative, _) => reports::first_derivative(&g, c, reply, work),
        (Phase::FirstReport, Kind::Report(answer)) => {
            reports::after_first_report(s, c, answer, reply, time, work)
        }
        (Phase::FirstModified, _) => reports::first_modified(s, c, reply, work),
        (Phase::Opened, _) => passes::opened_reply(&g, c, reply, work, ipiv),
        (Phase::JacobianAsked, _) => passes::jacobian_reply(&g, c, reply, work, ipiv),
        (Phase::DifferenceColumn, _) => passes::column_reply(&g, c, reply, work, ipiv),
        (Phase::FurtherDerivative, _) => passes::further_reply(&g, c, reply, work, ipiv),
        (Phase::Restep, _) => passes::restep_reply(s, c, reply, work),
        (Phase::Report, Kind::Report(answer)) => reports::after_report(
            s, c, answer, reply, time, work,
        ),
        (Phase::Modified, _) => reports::modified(s, c, reply, work),
        (Phase::FirstReport | Phase::Report | Phase::Finished, _) => unasked(x),
    }
}
