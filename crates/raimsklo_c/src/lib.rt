// What a host calls, by C's rules: include/raimsklo.h over the crate raimsklo, whose functions these call and whose
// clauses they state again. A crate is a library or a static library, and a library exports nothing to C.
#![tactic(auto)]

ghost use Rattle.std.specs.Prelude.{◌≡◌};
ghost use Rattle.common.specs.SessionWords.{session_length};
ghost use Rattle.root.specs.Root.{root_of};
ghost use Rattle.interpolation.specs.Evaluate.{Interpolated, interpolate_of};
ghost use Rattle.answers.specs.Called.{Called};
ghost use Rattle.raimsklo.specs.Calls.{start_of, reply_of};
ghost use Rattle.raimsklo.specs.Defaults.{defaults, work_length_for, question_length_for};

use answers::Reply;
use refusals::Options;

// The root of order k of x. An order outside 2 to 13 gives a NaN whatever x is.
#[unsafe(no_mangle)]
pub extern "C" fn raimsklo_root(x: f64, k: usize) -> f64
    ensures { result ≡ (root_of x k).value }
{
    raimsklo::raimsklo_root(x, k)
}

// The pose at time xi from a report's snapshot: 0, or a refusal (15, 16, 17) that leaves the pose as it was.
#[unsafe(no_mangle)]
pub extern "C" fn raimsklo_interpolate(xi: f64, pose: &mut [f64], snapshot: &[f64]) -> usize
    ensures { ◌≡◌ {A = Interpolated} (record { number = result; output = pose.new })
        (interpolate_of xi snapshot.now pose.old) }
{
    raimsklo::raimsklo_interpolate(xi, pose, snapshot)
}

// The Rust's own options, to be changed where wanted.
#[unsafe(no_mangle)]
pub extern "C" fn raimsklo_defaults() -> Options
    ensures { result ≡ defaults }
{
    raimsklo::raimsklo_defaults()
}

// How many numbers the work of n states has; 0 where n is above the largest number of states.
#[unsafe(no_mangle)]
pub extern "C" fn raimsklo_work_length(n: usize) -> usize
    ensures { result ≡ work_length_for n }
{
    raimsklo::raimsklo_work_length(n)
}

// How many numbers the question of n states has; 0 where n is above the largest number of states.
#[unsafe(no_mangle)]
pub extern "C" fn raimsklo_question_length(n: usize) -> usize
    ensures { result ≡ question_length_for n }
{
    raimsklo::raimsklo_question_length(n)
}

// How many bytes a session has.
#[unsafe(no_mangle)]
pub extern "C" fn raimsklo_session_length() -> usize
    ensures { result ≡ session_length }
{
    raimsklo::raimsklo_session_length()
}

// A run begins: the first derivative is wanted, or the start is refused.
#[unsafe(no_mangle)]
pub extern "C" fn raimsklo_start(
    x0: f64,
    xend: f64,
    y0: &[f64],
    rtol: &[f64],
    atol: &[f64],
    options: Options,
    work: &mut [f64],
    pivots: &mut [usize],
    session: &mut [u8],
    question: &mut [f64],
) -> Reply
    ensures { ◌≡◌ {A = Called} (record {
      reply = result;
      lent = record {
        work = work.new;
        pivots = pivots.new;
        session = session.new;
        question = question.new;
      };
    })
        (start_of (record {
          x0 = x0;
          xend = xend;
          y0 = y0.now;
          rtol = rtol.now;
          atol = atol.now;
          options = options;
        })
        (record {
          work = work.old;
          pivots = pivots.old;
          session = session.old;
          question = question.old;
        })) }
{
    raimsklo::raimsklo_start(
        x0, xend, y0, rtol, atol, options, work, pivots, session, question,
    )
}

// The host's reply to the question that stands: the next question, a report, the end, or a refusal.
#[unsafe(no_mangle)]
pub extern "C" fn raimsklo_reply(
    kind: usize,
    numbers: &[f64],
    time: f64,
    work: &mut [f64],
    pivots: &mut [usize],
    session: &mut [u8],
    question: &mut [f64],
) -> Reply
    ensures { ◌≡◌ {A = Called} (record {
      reply = result;
      lent = record {
        work = work.new;
        pivots = pivots.new;
        session = session.new;
        question = question.new;
      };
    })
        (reply_of kind numbers.now time
        (record {
          work = work.old;
          pivots = pivots.old;
          session = session.old;
          question = question.old;
        })) }
{
    raimsklo::raimsklo_reply(kind, numbers, time, work, pivots, session, question)
}
