// A stored answer beside the one that a call gave. How it is read follows from the stored number alone: an enum for the
// four forms would be made and matched again in the two functions that match the number, and in their definitions.
ghost use Rattle.std.specs.Prelude.{◌+◌, ◌*◌, ◌≤◌, ◌≡◌, length};
ghost use Rattle.common.specs.Layout.{question_length};
ghost use Rattle.common.specs.Limits.{max_states};
ghost use Rattle.replay_runs.specs.Answer.{asks_reply, report_numbers, is_stored_refusal, is_timed, is_stored_question};
ghost use Rattle.replay_runs.specs.Answer.{is_stored_report, is_stored_end, is_stored_answer};

use crate::stored_words::Place;
use raimsklo::Reply;

// Whether the stored answer asks for a reply.
#[tactic(auto, unfolding(crate::specs::Answer::asks_reply))]
pub fn is_asked(place: &Place) -> bool
    ensures { result ≡ asks_reply place.now.words.now place.now.at }
{
    (100..110).contains(&place.word(0))
}

// How many numbers a report has: y, and the snapshot behind it.
fn reported(order: usize, n: usize) -> usize
    requires { (order ≤ 12) × (n ≤ max_states) }
    ensures { (result ≡ report_numbers order n) × (n ≤ result) × (result ≤ question_length n) }
{
    n + common::HEADER + (order + 1) * n
}

// How many words the stored answer has.
pub fn size(place: &Place, n: usize) -> usize
    requires { n ≤ max_states }
    ensures { (1 ≤ result) × (result ≤ 1000) }
{
    match place.word(0) {
        0..=99 => 3,
        100..=102 => 2 + n,
        103 => 5 + reported(place.limited(4, 12), n),
        _ => 8,
    }
}

#[tactic(auto, unfolding(crate::specs::Answer::is_stored_refusal))]
fn is_refusal(place: &Place, r: Reply) -> bool
    ensures { result ≡ is_stored_refusal place.now.words.now place.now.at r }
{
    place.is_count(1, r.index) && place.is_float(2, r.value)
}

// The first report's previous time is its time; what is wanted has none.
#[tactic(auto, unfolding(crate::specs::Answer::is_timed))]
fn is_timed(r: Reply) -> bool
    ensures { result ≡ is_timed r }
{
    r.number != 102 || numbers::to_bits(r.previous) == numbers::to_bits(r.time)
}

// A derivative or a Jacobian wanted, or the first report.
#[tactic(auto, unfolding(crate::specs::Answer::is_stored_question))]
fn is_question(place: &Place, r: Reply, y: &[f64]) -> bool
    requires { length y.now ≤ max_states }
    ensures { result ≡ is_stored_question place.now.words.now place.now.at r y.now }
{
    is_timed(r) && place.is_float(1, r.time) && place.are_floats(2, y)
}

// Previous time, time, count, order, y and snapshot.
#[tactic(auto, unfolding(crate::specs::Answer::is_stored_report))]
fn is_report(place: &Place, r: Reply, numbers: &[f64]) -> bool
    requires { length numbers.now ≤ 1000 }
    ensures { result ≡ is_stored_report place.now.words.now place.now.at r numbers.now }
{
    place.is_float(1, r.previous)
        && place.is_float(2, r.time)
        && place.is_count(3, r.count)
        && place.is_count(4, r.order)
        && place.are_floats(5, numbers)
}

#[tactic(auto, unfolding(crate::specs::Answer::is_stored_end))]
fn is_end(place: &Place, r: Reply) -> bool
    ensures { result ≡ is_stored_end place.now.words.now place.now.at r }
{
    place.is_float(1, r.h)
        && place.are_three(2, r.nfe, r.nje, r.nlu)
        && place.are_three(5, r.total, r.accepted, r.rejected)
}

// Whether the call answered what is stored.
#[tactic(auto, unfolding(crate::specs::Answer::is_stored_answer))]
pub fn is_stored(place: &Place, n: usize, r: Reply, question: &[f64]) -> bool
    requires { (n ≤ max_states) × (question_length n ≤ length question.now) }
    ensures { result ≡ is_stored_answer place.now.words.now place.now.at n r question.now }
{
    if !place.is_count(0, r.number) {
        return false;
    }
    match r.number {
        0..=99 => is_refusal(place, r),
        100..=102 => is_question(place, r, &question[..n]),
        103 => {
            let end = reported(place.limited(4, 12), n);
            is_report(place, r, &question[..end])
        }
        _ => is_end(place, r),
    }
}
