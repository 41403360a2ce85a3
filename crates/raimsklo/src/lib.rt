// What the host calls; crates/raimsklo_c exports it by C's rules. Nothing is asked of the host: each function answers
// at every argument, and its contract is one equation for the answer and for the whole contents of every lent slice,
// refused calls included. Answers and kinds are numbers and no enums, since C has them, and there is one function for
// each exported name. The four lent slices stay apart, as C lends each by itself: a struct of them would have to name
// a ghost for each in every clause.
#![tactic(auto)]

ghost use Rattle.std.specs.Prelude.{◌≡◌, true, ℕ, length};
ghost use Rattle.common.specs.SessionWords.{session_length};
ghost use Rattle.root.specs.Root.{root_of};
ghost use Rattle.interpolation.specs.Evaluate.{Interpolated, interpolate_of};
ghost use Rattle.answers.specs.Called.{Buffers, Called};
ghost use Rattle.raimsklo.specs.Calls.{start_of, reply_of};
ghost use Rattle.raimsklo.specs.Defaults.{defaults, work_length_for, question_length_for};

mod starts;

pub use answers::Reply;
use refusals::{Lengths, Options, Refusal, Start};

// The root of order k of x. An order outside 2 to 13 gives a NaN whatever x is.
pub fn raimsklo_root(x: f64, k: usize) -> f64
    ensures { result ≡ (root_of x k).value }
{
    root::root(x, k).value
}

// The pose at time xi from a report's snapshot: 0, or a refusal (15, 16, 17) that leaves the pose as it was.
pub fn raimsklo_interpolate(xi: f64, pose: &mut [f64], snapshot: &[f64]) -> usize
    ensures { ◌≡◌ {A = Interpolated} (record { number = result; output = pose.new })
        (interpolate_of xi snapshot.now pose.old) }
{
    match interpolation::interpolate(xi, pose, snapshot) {
        Ok(()) => 0,
        Err(why) => usize::from(why),
    }
}

// The Rust's own options, to be changed where wanted.
pub fn raimsklo_defaults() -> Options
    ensures { result ≡ defaults }
{
    Options {
        max_steps: 100000,
        mxordn: 12,
        mxords: 5,
        maxcor: 3,
        msbp: 20,
        mxncf: 10,
        banded: 0,
        supplied: 0,
        has_max_step: 0,
        has_min_step: 0,
        has_first_step: 0,
        max_step: 0.0,
        min_step: 0.0,
        first_step: 0.0,
    }
}

// How many numbers the work of n states has; 0 where n is above the largest number of states.
#[tactic(auto, unfolding(crate::specs::Defaults::work_length_for))]
pub fn raimsklo_work_length(n: usize) -> usize
    ensures { result ≡ work_length_for n }
{
    if n > common::MAX_STATES {
        0
    } else {
        common::work_length(n)
    }
}

// How many numbers the question of n states has; 0 where n is above the largest number of states.
#[tactic(auto, unfolding(crate::specs::Defaults::question_length_for))]
pub fn raimsklo_question_length(n: usize) -> usize
    ensures { result ≡ question_length_for n }
{
    if n > common::MAX_STATES {
        0
    } else {
        common::question_length(n)
    }
}

// How many bytes a session has.
pub fn raimsklo_session_length() -> usize
    ensures { result ≡ session_length }
{
    common::SESSION_LENGTH
}

// A run begins: the first derivative is wanted, or the start is refused.
#[tactic(auto, unfolding(crate::specs::Calls::start_of))]
pub fn raimsklo_start(
    x0: f64,
    xend: f64,
    y0: &[f64],
    rtol: &[f64],
    atol: &[f64],
    options: Options,
    work: &mut [f64],
    pivots: &mut [usize],
    session: &mut [u8],
    question: &mut [f64],
) -> Reply
    ensures { ◌≡◌ {A = Called} (record {
      reply = result;
      lent = record {
        work = work.new;
        pivots = pivots.new;
        session = session.new;
        question = question.new;
      };
    })
        (start_of (record {
          x0 = x0;
          xend = xend;
          y0 = y0.now;
          rtol = rtol.now;
          atol = atol.now;
          options = options;
        })
        (record {
          work = work.old;
          pivots = pivots.old;
          session = session.old;
          question = question.old;
        })) }
{
    if y0.is_empty() {
        return answers::nothing();
    }
    let l = Lengths {
        n: y0.len(),
        rtol: rtol.len(),
        atol: atol.len(),
        work: work.len(),
        pivots: pivots.len(),
        session: session.len(),
        question: question.len(),
    };
    match refusals::start_refusal(x0, xend, options, l, rtol, atol) {
        Err(r) => Reply::from(r),
        Ok(()) => {
            let start = Start::new(x0, xend, options, l);
            starts::accept(start, y0, rtol, atol, work, pivots, session, question)
        }
    }
}

// The host's reply to the question that stands: the next question, a report, the end, or a refusal.
pub fn raimsklo_reply(
    kind: usize,
    numbers: &[f64],
    time: f64,
    work: &mut [f64],
    pivots: &mut [usize],
    session: &mut [u8],
    question: &mut [f64],
) -> Reply
    ensures { ◌≡◌ {A = Called} (record {
      reply = result;
      lent = record {
        work = work.new;
        pivots = pivots.new;
        session = session.new;
        question = question.new;
      };
    })
        (reply_of kind numbers.now time
        (record {
          work = work.old;
          pivots = pivots.old;
          session = session.old;
          question = question.old;
        })) }
{
    if session.len() != common::SESSION_LENGTH {
        return Reply::from(Refusal::LentLength);
    }
    let u = session::counts(session);
    let x = session::decode(&u, session);
    match replies::checked(kind, &u, x, work.len(), pivots, session, question.len()) {
        Err(r) => Reply::from(r),
        Ok(kind) => replies::accept(x, kind, numbers, time, work, pivots, session, question),
    }
}
