// A rig of 64 states from its first pose to the end of two seconds, through the calls: once with the Jacobian by
// differences, once with the rig's own. The state of a run is 5312 floats of this program, lent to each call.
// Prints the pose at each quarter of a second, what the run cost beside what was seen of it, and the last pose bit by
// bit.
#![tactic(auto)]

mod chain;
mod show;
mod watch;

use chain::STATES;
use raimsklo::Reply;
use refusals::Options;
use std::io;
use watch::Watch;

// made by tools/record.py: the family's place
const FAMILY_AT: usize = 8 * 12;
// end of the family's place

// What an answer asks of the host.
#[derive(Clone, Copy)]
enum Wanted {
    Derivative,
    Jacobian,
    FirstReport,
    Report,
}

impl Wanted {
    // By the answer's number. The end of a run and a refusal ask for nothing.
    fn of(number: usize) -> Option<Wanted> {
        match number {
            100 => Some(Wanted::Derivative),
            101 => Some(Wanted::Jacobian),
            102 => Some(Wanted::FirstReport),
            103 => Some(Wanted::Report),
            _ => None,
        }
    }
}

// What the host lends to each call of a run.
#[derive(Drop)]
struct Lent {
    work: [f64; common::WORK_LENGTH],
    pivots: [usize; STATES],
    session: [u8; common::SESSION_LENGTH],
    question: [f64; common::QUESTION_LENGTH],
}

impl Lent {
    fn new() -> Lent {
        Lent {
            work: [0.0; common::WORK_LENGTH],
            pivots: [0; STATES],
            session: [0; common::SESSION_LENGTH],
            question: [0.0; common::QUESTION_LENGTH],
        }
    }

    fn start(&mut self, options: Options) -> Reply {
        raimsklo::raimsklo_start(
            0.0,
            2.0,
            &chain::first_pose(),
            &[0.001],
            &[0.0001],
            options,
            &mut self.work,
            &mut self.pivots,
            &mut self.session,
            &mut self.question,
        )
    }

    // The kinds are the calls' own: 1 a derivative, 2 a Jacobian, 3 continue.
    fn reply(&mut self, kind: usize, numbers: &[f64], time: f64) -> Reply {
        raimsklo::raimsklo_reply(
            kind,
            numbers,
            time,
            &mut self.work,
            &mut self.pivots,
            &mut self.session,
            &mut self.question,
        )
    }

    // The answer to what the host replies: what is wanted, or to a report the reported pose as it is.
    fn answer(&mut self, wanted: Wanted, time: f64) -> Reply {
        match wanted {
            Wanted::Derivative => {
                let f = chain::derivative(time, &self.question);
                self.reply(1, &f, time)
            }
            Wanted::Jacobian => {
                let j = chain::jacobian(&self.question);
                self.reply(2, &j, time)
            }
            Wanted::FirstReport | Wanted::Report => {
                let mut pose = [0.0; STATES];
                pose.copy_from_slice(&self.question[..STATES]);
                self.reply(3, &pose, time)
            }
        }
    }

    // The family is a byte of the session: docs/SESSION.md.
    fn is_adams(&self) -> bool {
        self.session[FAMILY_AT] == 1
    }
}

// The poses at the quarters of a second that lie within the reported step. The loop counts them, and indexes nothing.
fn frames(rt: &impl Print, r: &Reply, question: &[f64; common::QUESTION_LENGTH]) -> io::Result<()> {
    for quarter in 1..9u32 {
        let t = quarter as f64 * 0.25;
        if r.previous < t && t <= r.time && r.order <= 12 {
            let end = STATES + common::HEADER + STATES * (r.order + 1);
            let mut pose = [0.0; STATES];
            match raimsklo::raimsklo_interpolate(t, &mut pose, &question[STATES..end]) {
                0 => show::frame(rt, t, &pose)?,
                number => show::refused(rt, t, number)?,
            }
        }
    }
    Ok(())
}

fn cost(rt: &impl Print, end: Reply, w: &Watch) -> io::Result<()> {
    println!(rt;
        "ended by {}, h {:016x}",
        end.number,
        numbers::to_bits(end.h)
    )?;
    println!(rt;
        "derivatives {}, Jacobians {}, factorings {}",
        end.nfe, end.nje, end.nlu
    )?;
    println!(rt;
        "derivatives seen {}, Jacobians seen {}",
        w.derivatives, w.jacobians
    )?;
    println!(rt;
        "steps {}, accepted {}, rejected {}",
        end.total, end.accepted, end.rejected
    )?;
    println!(rt; "reports {}, wrong {}", w.reports, w.wrong)?;
    println!(rt;
        "most derivatives in a step {}, capped at {}",
        w.most, w.capped
    )
}

fn run(rt: &impl Print, options: Options) -> io::Result<()> {
    let mut lent = Lent::new();
    let mut watch = Watch::new();
    let mut r = lent.start(options);
    // It counts turns, and indexes nothing.
    for _ in 0..100000 {
        let Some(wanted) = Wanted::of(r.number) else {
            break;
        };
        match wanted {
            Wanted::Derivative => watch.derivative(&r, &lent.question),
            Wanted::Jacobian => watch.jacobian(&lent.question),
            Wanted::FirstReport => watch.first_report(&r, lent.is_adams()),
            Wanted::Report => {
                watch.step_report(&r, lent.is_adams());
                frames(rt, &r, &lent.question)?;
            }
        }
        r = lent.answer(wanted, r.time);
    }
    cost(rt, r, &watch)?;
    show::pose(rt, &lent.question[..STATES])
}

fn main(rt: HostRuntime) -> io::Result<()> {
    let options = raimsklo::raimsklo_defaults();
    println!(rt; "Jacobian by differences")?;
    run(&rt, options)?;
    println!(rt; "Jacobian supplied")?;
    run(
        &rt,
        Options {
            supplied: 1,
            ..options
        },
    )
}
