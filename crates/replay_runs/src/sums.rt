// The sums of the scope that are whole runs, made through the calls: each line has a run's end as it was answered.
// All have one state. The derivative is 0 at the start, and `later` at every other request.
use raimsklo::Reply;
use refusals::Options;
use std::{fmt, io};

#[derive(Clone, Copy)]
struct Sum {
    xend: f64,
    y0: f64,
    rtol: f64,
    atol: f64,
    later: f64,
    options: Options,
}

// What an answer asks of the host. No sum supplies a Jacobian. (rig has its own, with two more cases: a library for an
// enum of a few lines would be no plainer.)
#[derive(Clone, Copy)]
enum Wanted {
    Derivative,
    Report,
}

impl Wanted {
    // By the answer's number. The end of a run and a refusal ask for nothing.
    fn of(number: usize) -> Option<Wanted> {
        match number {
            100 => Some(Wanted::Derivative),
            102 | 103 => Some(Wanted::Report),
            _ => None,
        }
    }
}

// What the host lends to each call of a run with one state. (rig's has other lengths: a library for both would hand on
// every argument of the two calls, and be no shorter.)
#[derive(Drop)]
struct Lent {
    work: [f64; 20],
    pivots: [usize; 1],
    session: [u8; common::SESSION_LENGTH],
    question: [f64; 20],
}

impl Lent {
    fn new() -> Lent {
        Lent {
            work: [0.0; 20],
            pivots: [0],
            session: [0; common::SESSION_LENGTH],
            question: [0.0; 20],
        }
    }

    fn start(&mut self, sum: &Sum) -> Reply {
        raimsklo::raimsklo_start(
            0.0,
            sum.xend,
            &[sum.y0],
            &[sum.rtol],
            &[sum.atol],
            sum.options,
            &mut self.work,
            &mut self.pivots,
            &mut self.session,
            &mut self.question,
        )
    }

    // The kinds are the calls' own: 1 a derivative, 3 continue.
    fn reply(&mut self, kind: usize, number: f64, time: f64) -> Reply {
        raimsklo::raimsklo_reply(
            kind,
            &[number],
            time,
            &mut self.work,
            &mut self.pivots,
            &mut self.session,
            &mut self.question,
        )
    }
}

// A run's end, and the pose of its last report.
struct Outcome {
    end: Reply,
    pose: f64,
}

fn outcome_of(sum: &Sum) -> Outcome {
    let mut lent = Lent::new();
    let mut end = lent.start(sum);
    let mut pose = 0.0;
    // One of these sums takes 100000 steps. `i` counts the replies and indexes nothing.
    for i in 0..1000000 {
        let Some(wanted) = Wanted::of(end.number) else {
            break;
        };
        end = match wanted {
            Wanted::Derivative => lent.reply(1, if i == 0 { 0.0 } else { sum.later }, end.time),
            Wanted::Report => {
                pose = lent.question[0];
                lent.reply(3, pose, end.time)
            }
        };
    }
    Outcome { end, pose }
}

// ---- what is printed

// NaN, a small whole number, or the pattern.
#[derive(Drop)]
struct Pattern(f64);

impl fmt::Display for Pattern {
    fn fmt<W: fmt::Write>(&self, f: &mut fmt::Formatter<W>) -> fmt::Result {
        if self.0.is_nan() {
            return f.write_str("NaN");
        }
        match numbers::to_bits(self.0) {
            0 => f.write_str("0"),
            0x3ff0_0000_0000_0000 => f.write_str("1"),
            0x4000_0000_0000_0000 => f.write_str("2"),
            bits => write!(f, "0x{bits:016x}"),
        }
    }
}

// How a run ended, by the answer's number; a refusal is its number.
#[derive(Drop)]
struct Ending(usize);

impl fmt::Display for Ending {
    fn fmt<W: fmt::Write>(&self, f: &mut fmt::Formatter<W>) -> fmt::Result {
        match self.0 {
            110 => f.write_str("success"),
            111 => f.write_str("interrupted"),
            112 => f.write_str("needs more steps"),
            113 => f.write_str("too small"),
            114 => f.write_str("poor"),
            115 => f.write_str("coefficient gap"),
            number => write!(f, "{number}"),
        }
    }
}

fn line(rt: &impl Print, name: &str, sum: &Sum) -> io::Result<()> {
    let Outcome { end, pose } = outcome_of(sum);
    print!(rt; "{name}: {}", Ending(end.number))?;
    if end.number < 100 {
        return println!(rt; ", value {}", Pattern(end.value));
    }
    print!(rt; ", h {}, derivatives {}", Pattern(end.h), end.nfe)?;
    print!(rt; ", steps {}, {}, {}", end.total, end.accepted, end.rejected)?;
    println!(rt; ", pose {}", Pattern(pose))
}

// ---- the sums

fn eight() -> Sum {
    Sum {
        xend: 1.0,
        y0: 2.0,
        rtol: 0.5,
        atol: 0.0,
        later: 0.0,
        options: Options {
            has_first_step: 1,
            first_step: 1.0,
            ..raimsklo::raimsklo_defaults()
        },
    }
}

fn nine() -> Sum {
    Sum {
        later: numbers::not_a_number(),
        ..eight()
    }
}

fn ten() -> Sum {
    let sum = eight();
    Sum {
        xend: 2.0,
        options: Options {
            max_steps: 1,
            ..sum.options
        },
        ..sum
    }
}

fn eleven() -> Sum {
    Sum {
        xend: 1.0,
        y0: 0.0,
        rtol: 0.0,
        atol: 1.0,
        later: 100.0,
        options: Options {
            maxcor: 1,
            mxncf: 1,
            has_first_step: 1,
            first_step: 1.0,
            ..raimsklo::raimsklo_defaults()
        },
    }
}

fn twelve() -> Sum {
    let sum = with_min_step(eleven(), 1.0);
    Sum {
        options: Options {
            maxcor: 3,
            ..sum.options
        },
        ..sum
    }
}

// (8) with its interval's start as its end.
fn empty() -> Sum {
    Sum {
        xend: 0.0,
        ..eight()
    }
}

fn without_first_step(sum: Sum) -> Sum {
    Sum {
        options: Options {
            has_first_step: 0,
            ..sum.options
        },
        ..sum
    }
}

fn with_min_step(sum: Sum, least: f64) -> Sum {
    Sum {
        options: Options {
            has_min_step: 1,
            min_step: least,
            ..sum.options
        },
        ..sum
    }
}

pub fn lines(rt: &impl Print) -> io::Result<()> {
    let sums = [
        ("(8)", eight()),
        ("(9)", nine()),
        ("(10)", ten()),
        ("(11)", eleven()),
        ("(12)", twelve()),
        (
            "start equal to end, no first step",
            without_first_step(empty()),
        ),
        ("start equal to end, first step 1", empty()),
        (
            "start equal to end, first step 1, minimum step 2",
            with_min_step(empty(), 2.0),
        ),
        ("(8), minimum step 2", with_min_step(eight(), 2.0)),
    ];
    for (name, sum) in sums {
        line(rt, name, &sum)?;
    }
    Ok(())
}
