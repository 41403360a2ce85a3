// A reply: what it is refused for, and what an accepted one leaves. Nothing is written before the last refusal is past.
// Settings, record and work stay parameters, with a clause on each one's range: the head of crate history says why.
// Kind, numbers and time of a reply stay three: the calls have them so, and each is read by itself.
#![tactic(auto)]

ghost use Rattle.std.specs.Prelude.{◌≡◌, Bool, true, ℕ, ◌+◌, ◌*◌, ◌≤◌, ◌<◌, length, IfOk};
ghost use Rattle.common.specs.Layout.{matrix_at, question_length};
ghost use Rattle.common.specs.Limits.{max_states};
ghost use Rattle.common.specs.SessionWords.{session_length};
ghost use Rattle.session.specs.Session.{in_range_of, stored_counts, decode_of};
ghost use Rattle.answers.specs.Called.{Called};
ghost use Rattle.refusals.specs.Refusal.{entry_of};
ghost use Rattle.replies.specs.Replies.{kind_of, kind_in, reply_refusal_of, Sized, shown_of, question_of};
ghost use Rattle.replies.specs.Replies.{is_unasked, TurnWritten, turn_written_of, accepted_reply_of};

use answers::Reply;
use between_steps::{Answer, Kind};
use common::{Common, Settings};
use questions::{Phase, Question, Session, Turn};
use refusals::Refusal;

// 1 derivative, 2 Jacobian, 3 continue, 4 interrupt, 5 modified. No `TryFrom`: its error would say nothing.
#[tactic(auto, unfolding(crate::specs::Replies::kind_of))]
fn known(kind: usize) -> Option<Kind>
    ensures { result ≡ kind_in kind }
{
    match kind {
        1 => Some(Kind::Derivative),
        2 => Some(Kind::Jacobian),
        3 => Some(Kind::Report(Answer::Continue)),
        4 => Some(Kind::Report(Answer::Interrupt)),
        5 => Some(Kind::Report(Answer::Modified)),
        _ => None,
    }
}

// The kind of a reply with a session of the right length, or 3, 13, 14. A stored n that is no number of states gives
// 13 before the lengths that need it; a finished session is judged by its n and phase alone.
// Counts, record and bytes are one session's: a struct of the three would only carry the two clauses that tie them.
#[tactic(auto, unfolding(crate::specs::Replies::reply_refusal_of))]
pub fn checked(
    kind: usize,
    u: &[usize; common::COUNT_WORDS],
    x: Session,
    work: usize,
    pivots: &[usize],
    bytes: &[u8],
    question: usize,
) -> Result<Kind, Refusal>
    requires bytes_len { length bytes.now ≡ session_length }
    requires u_value { (u.now ≡ stored_counts bytes.now) × (x ≡ decode_of bytes.now) }
    ensures refused { entry_of result ≡ reply_refusal_of kind work pivots.now bytes.now question }
    ensures kind { IfOk result (λ k. k ≡ kind_of kind) }
{
    let n = session::stored_n(bytes);
    if n == 0 || n > common::MAX_STATES {
        return Err(Refusal::SessionRange);
    }
    if !refusals::are_lent(n, work, pivots.len(), question) {
        return Err(Refusal::LentLength);
    }
    if session::is_finished(bytes) {
        return Err(Refusal::Unasked);
    }
    if !session::in_range(u, x, bytes, pivots) {
        return Err(Refusal::SessionRange);
    }
    known(kind).ok_or(Refusal::Unasked)
}

// The n numbers at `at` of the work, first in the question: n and at name a part of the work, cut here once for three
// callers.
fn show(n: usize, at: usize, work: &[f64], question: &mut [f64])
    requires { (at + n ≤ length work.now) × (n ≤ length question.old) }
    ensures { question.new ≡ shown_of n at work.now question.old }
{
    common::copy_from(&mut question[..n], &work[at..at + n]);
}

// y stands first, the snapshot from n on; an end leaves the question as it was.
#[tactic(auto, unfolding(crate::specs::Replies::question_of))]
fn write_question(s: Settings, c: Common, phase: Phase, work: &[f64], question: &mut [f64])
    requires le_n { (1 ≤ s.n) × (s.n ≤ max_states) × (c.nq ≤ 12) }
    requires n_in_bounds { (matrix_at s.n ≤ length work.now) × (question_length s.n ≤ length question.old) }
    ensures { question.new ≡ question_of s phase c work.now question.old }
{
    let n = s.n;
    match phase {
        Phase::Finished => {}
        Phase::DifferenceColumn => show(n, common::Y_FD * n, work, question),
        Phase::Report => {
            show(n, common::Y * n, work, question);
            interpolation::snapshot_step(s, c, work, question);
        }
        // every other question is about y alone
        _ => show(n, common::Y * n, work, question),
    }
}

// Whether the reply was not what was asked.
fn is_unasked(question: Question) -> bool
    ensures { result ≡ is_unasked question }
{
    matches!(question, Question::Unasked)
}

// The turn is kept in the session and its question written, unless the reply was not what was asked.
#[tactic(auto, unfolding(crate::specs::Replies::turn_written_of, session::specs::Session::encode_of))]
fn write_turn(
    s: Settings,
    turn: Turn,
    work: &[f64],
    bytes: &mut [u8],
    question: &mut [f64],
) -> Reply
    requires le_n { (1 ≤ s.n) × (s.n ≤ max_states) × (turn.common.nq ≤ 12) }
    requires n_in_bounds { (matrix_at s.n ≤ length work.now) × (question_length s.n ≤ length question.old) }
    requires session_length_in_bounds { session_length ≤ length bytes.old }
    ensures { ◌≡◌ {A = TurnWritten}
        (record { reply = result; session = bytes.new; question = question.new })
        (turn_written_of s turn work.now bytes.old question.old) }
{
    if is_unasked(turn.question) {
        return Reply::from(turn.question);
    }
    let x = Session {
        settings: s,
        common: turn.common,
        phase: turn.phase,
    };
    session::encode_counts(x, bytes);
    session::encode_floats(x, bytes);
    write_question(s, turn.common, turn.phase, work, question);
    Reply::from(turn.question)
}

// The reply of a session that is not refused; x as it was read from the bytes.
pub fn accept(
    x: Session,
    kind: Kind,
    numbers: &[f64],
    time: f64,
    work: &mut [f64],
    pivots: &mut [usize],
    bytes: &mut [u8],
    question: &mut [f64],
) -> Reply
    requires bytes_len { length bytes.old ≡ session_length }
    requires pivots_value { (in_range_of bytes.old pivots.old ≡ true) × (x ≡ decode_of bytes.old) }
    requires sized { Sized (decode_of bytes.old).settings.n work.old pivots.old question.old }
    ensures { ◌≡◌ {A = Called} (record {
      reply = result;
      lent = record {
        work = work.exit.now;
        pivots = pivots.new;
        session = bytes.new;
        question = question.new;
      };
    })
        (accepted_reply_of kind numbers.now time (record {
          work = work.entry.now;
          pivots = pivots.old;
          session = bytes.old;
          question = question.old;
        })) }
{
    let mut rtol = [0.0; common::MAX_STATES];
    let rtol = &mut rtol[..x.settings.nrtol];
    session::rtol(bytes, rtol);
    let mut atol = [0.0; common::MAX_STATES];
    let atol = &mut atol[..x.settings.natol];
    session::atol(bytes, atol);
    let turn = machine::resume(x, kind, numbers, time, rtol, atol, work, pivots);
    write_turn(x.settings, turn, work, bytes, question)
}
