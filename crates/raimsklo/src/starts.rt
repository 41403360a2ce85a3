// An accepted start: work and pivots 0, the state in y, the session written, the first derivative wanted.
ghost use Rattle.std.specs.Prelude.{◌≡◌, ℕ, ◌≤◌, length};
ghost use Rattle.common.specs.Ranges.{Accepted};
ghost use Rattle.common.specs.Layout.{work_length};
ghost use Rattle.common.specs.SessionWords.{session_length};
ghost use Rattle.answers.specs.Called.{Called};
ghost use Rattle.raimsklo.specs.Starts.{accepted_start_of, kept_of};

use answers::Reply;
use common::{Common, Settings};
use questions::{At, Phase, Question, Session};
use refusals::Start;

// The session of a start, with its tolerances.
#[tactic(auto, unfolding(crate::specs::Starts::kept_of, session::specs::Session::encode_of))]
fn keep(s: Settings, c: Common, rtol: &[f64], atol: &[f64], bytes: &mut [u8])
    requires { session_length ≤ length bytes.old }
    ensures { bytes.new ≡ kept_of s c rtol.now atol.now bytes.old }
{
    let x = Session {
        settings: s,
        common: c,
        phase: Phase::FirstDerivative,
    };
    session::encode_counts(x, bytes);
    session::encode_floats(x, bytes);
    session::put_tolerances(rtol, atol, bytes);
}

// A start that is not refused.
#[tactic(auto, unfolding(crate::specs::Starts::accepted_start_of))]
pub fn accept(
    start: Start,
    y0: &[f64],
    rtol: &[f64],
    atol: &[f64],
    work: &mut [f64],
    pivots: &mut [usize],
    bytes: &mut [u8],
    question: &mut [f64],
) -> Reply
    requires accepted { Accepted start.settings }
    requires y0_len { (length y0.now ≡ start.settings.n) × (length work.old ≡ work_length start.settings.n) }
    requires session_length_in_bounds { (session_length ≤ length bytes.old) × (start.settings.n ≤ length question.old) }
    ensures { ◌≡◌ {A = Called} (record {
      reply = result;
      lent = record {
        work = work.new;
        pivots = pivots.new;
        session = bytes.new;
        question = question.new;
      };
    })
        (accepted_start_of start.settings start.x0 start.h start.hmin start.hmxi y0.now rtol.now atol.now (record {
          work = work.old;
          pivots = pivots.old;
          session = bytes.old;
          question = question.old;
        })) }
{
    let s = start.settings;
    history::fill(work, 0.0);
    history::store(work, common::Y * s.n, y0);
    pivots.fill(0);
    let c = Common::initial(s, start.x0, start.h, start.hmin, start.hmxi);
    keep(s, c, rtol, atol, bytes);
    history::store(question, 0, y0);
    Reply::from(Question::Derivative(At { time: start.x0 }))
}
