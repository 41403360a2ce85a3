// What a call answers, as one struct of numbers: each case of the machine's question has its number and its values.
#![tactic(auto)]

ghost use Rattle.std.specs.Prelude.{◌≡◌};
ghost use Rattle.numbers.specs.Float.{zero_f};
ghost use Rattle.refusals.specs.Refusal.{entry};
ghost use Rattle.answers.specs.Answers.{plain_reply, status_number, question_reply, refusal_reply};

use between_steps::Status;
use questions::Question;
use refusals::Refusal;

// Fields that a case has no use for are 0. C reads it, so each case is a number, and no enum.
#[repr(C)]
#[derive(Clone, Copy)]
pub struct Reply {
    pub number: usize, // what is wanted (100 to 103), how the run ended (110 to 115), or a refusal (1 to 14)
    pub index: usize, // of 9, 10 and 12
    pub value: f64, // of 11
    pub time: f64, // of a question or a report
    pub previous: f64, // a report's previous time
    pub count: usize, // derivatives requested in the report's step
    pub order: usize, // order of the report's snapshot, which has 6 + (order + 1)·n numbers; 0: no snapshot
    pub h: f64, // at the end: step size, evaluations, steps
    pub nfe: usize,
    pub nje: usize,
    pub nlu: usize,
    pub total: usize,
    pub accepted: usize,
    pub rejected: usize,
}

// A number, and nothing else.
fn numbered(number: usize) -> Reply
    ensures { result ≡ plain_reply number 0 zero_f zero_f }
{
    Reply {
        number,
        index: 0,
        value: 0.0,
        time: 0.0,
        previous: 0.0,
        count: 0,
        order: 0,
        h: 0.0,
        nfe: 0,
        nje: 0,
        nlu: 0,
        total: 0,
        accepted: 0,
        rejected: 0,
    }
}

// No states: success, h 0, all counts 0.
pub fn nothing() -> Reply
    ensures { result ≡ plain_reply 110 0 zero_f zero_f }
{
    numbered(110)
}

impl From<Refusal> for Reply {
    ghost from_gives = { λ r reply. reply ≡ refusal_reply (entry r) };

    fn from(r: Refusal) -> Reply {
        match r {
            Refusal::TooManyStates => numbered(1),
            Refusal::ToleranceLength => numbered(2),
            Refusal::LentLength => numbered(3),
            Refusal::LargeSetting => numbered(4),
            Refusal::NoSteps => numbered(5),
            Refusal::NoIterations => numbered(6),
            Refusal::NoOrder => numbered(7),
            Refusal::Banded => numbered(8),
            Refusal::RelativeTolerance(index) => Reply {
                index,
                ..numbered(9)
            },
            Refusal::AbsoluteTolerance(index) => Reply {
                index,
                ..numbered(10)
            },
            Refusal::FirstStep(value) => Reply {
                value,
                ..numbered(11)
            },
            Refusal::Weight(index) => Reply {
                index,
                ..numbered(12)
            },
            Refusal::SessionRange => numbered(13),
            Refusal::Unasked => numbered(14),
        }
    }
}

impl From<Question> for Reply {
    ghost from_gives = { λ q reply. reply ≡ question_reply q };

    fn from(q: Question) -> Reply {
        match q {
            Question::Derivative(at) => Reply {
                time: at.time,
                ..numbered(100)
            },
            Question::Jacobian(at) => Reply {
                time: at.time,
                ..numbered(101)
            },
            // no snapshot, and its previous time is its time
            Question::FirstReport(at) => Reply {
                time: at.time,
                previous: at.time,
                ..numbered(102)
            },
            Question::Report(step) => Reply {
                time: step.time,
                previous: step.previous,
                count: step.count,
                order: step.order,
                ..numbered(103)
            },
            Question::Finished(end) => Reply {
                h: end.h,
                nfe: end.nfe,
                nje: end.nje,
                nlu: end.nlu,
                total: end.total,
                accepted: end.accepted,
                rejected: end.rejected,
                ..numbered(end.status as usize)
            },
            Question::StepRefused(h) => Reply::from(Refusal::FirstStep(h)),
            Question::WeightRefused(i) => Reply::from(Refusal::Weight(i)),
            Question::Unasked => Reply::from(Refusal::Unasked),
        }
    }
}
