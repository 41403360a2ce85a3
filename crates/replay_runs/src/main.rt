// Replays the stored runs of the reference through the calls: every answer of ours is compared with the stored one, and
// every reply is the stored one. Writes how many answers were compared and how many differ, and then the scope's sums.
#![tactic(auto)]

ghost use Rattle.std.specs.Prelude.{◌+◌, ◌≤◌, ◌<◌, ◌≡◌, cond, length};
ghost use Rattle.common.specs.Layout.{question_length};
ghost use Rattle.common.specs.Limits.{max_states};
ghost use Rattle.replay_runs.specs.Answer.{is_stored_answer};
ghost use Rattle.replay_runs.specs.Words.{most_numbers};

mod answer;
mod runs;
mod stored_words;
mod sums;

use raimsklo::Reply;
use refusals::Options;
use std::io;
use stored_words::Place;

// What was found so far.
#[derive(Clone, Copy)]
struct Found {
    runs: usize,
    answers: usize,
    differ: usize,
}

// A run's head: where it stands, n, and the lengths of rtol and atol.
#[derive(Clone, Copy)]
struct Head<'a> {
    place: Place<'a>,
    n: usize,
    nrtol: usize,
    natol: usize,
    ghost few: { n ≤ max_states },
    ghost few_rtol: { nrtol ≤ max_states },
    ghost few_atol: { natol ≤ max_states },
}

impl<'a> Head<'a> {
    fn read(place: Place<'a>) -> Head<'a>
        ensures { (result.place.words.now ≡ place.entry.words.now) × (result.place.at ≡ place.entry.at) }
    {
        Head {
            place,
            n: place.limited(0, common::MAX_STATES),
            nrtol: place.limited(1, common::MAX_STATES),
            natol: place.limited(2, common::MAX_STATES),
        }
    }

    // Behind the lengths stand the options, in the struct's order.
    fn options(&self) -> Options {
        let place = &self.place;
        Options {
            max_steps: place.count(3),
            mxordn: place.count(4),
            mxords: place.count(5),
            maxcor: place.count(6),
            msbp: place.count(7),
            mxncf: place.count(8),
            banded: place.count(9),
            supplied: place.count(10),
            has_max_step: place.count(11),
            has_min_step: place.count(12),
            has_first_step: place.count(13),
            max_step: place.float(14),
            min_step: place.float(15),
            first_step: place.float(16),
        }
    }

    // The answer to the start stands behind x0, xend, y0, rtol and atol.
    fn first_answer(&self) -> Place<'a>
        requires { self.now.place.at ≤ 1000000 }
        ensures { (result.words.now ≡ self.now.place.words.now)
            × (self.now.place.at < result.at) × (result.at ≤ 1010000) }
    {
        self.place.after(19 + self.n + self.nrtol + self.natol)
    }
}

fn square(n: usize) -> usize
    requires { n ≤ max_states }
    ensures { result ≤ most_numbers }
{
    n * n
}

// How many numbers a reply has: n, of a Jacobian n·n. The kind is the stored run's number, and it may be any.
fn reply_size(kind: usize, n: usize) -> usize
    requires { n ≤ max_states }
    ensures { result ≤ most_numbers }
{
    if kind == 2 { square(n) } else { n }
}

// What the host lends to each call of a run: the parts that n states have, since the calls ask for the exact lengths.
// Slices: of an array in the struct the check refuses a part that is lent behind `&mut self` beside another field.
#[derive(Drop)]
struct Lent<'a> {
    n: usize,
    work: &'a mut [f64],
    pivots: &'a mut [usize],
    session: &'a mut [u8],
    question: &'a mut [f64],
    ghost few: { n ≤ max_states },
    ghost asked: { question_length n ≤ length question.now },
}

impl<'a> Lent<'a> {
    // Behind the options stand x0, xend, y0, rtol and atol.
    fn start(&mut self, head: &Head) -> Reply {
        let n = head.n;
        let rtol = n + head.nrtol;
        let atol = rtol + head.natol;
        let lists = head.place.floats(19);
        raimsklo::raimsklo_start(
            head.place.float(17),
            head.place.float(18),
            &lists[..n],
            &lists[n..rtol],
            &lists[rtol..atol],
            head.options(),
            self.work,
            self.pivots,
            self.session,
            self.question,
        )
    }

    // The answer to the stored reply: its kind, its time and its numbers.
    fn reply(&mut self, place: &Place) -> Reply {
        let kind = place.count(0);
        let numbers = place.floats(2);
        let end = reply_size(kind, self.n);
        raimsklo::raimsklo_reply(
            kind,
            &numbers[..end],
            place.float(1),
            self.work,
            self.pivots,
            self.session,
            self.question,
        )
    }

    // Whether this answer is the stored one.
    fn is_stored(&self, place: &Place, r: Reply) -> bool
        ensures { result ≡ is_stored_answer place.now.words.now place.now.at self.now.n r self.now.question.now }
    {
        answer::is_stored(place, self.n, r, self.question)
    }
}

// Counts the stored answer that stands there, and whether ours differs from it. Behind it a reply stands, or a run.
fn compared<'a>(place: &Place<'a>, lent: &Lent, r: Reply, found: &mut Found) -> Place<'a>
    requires { (place.now.at ≤ 1010000) × (found.old.answers ≤ place.now.at) × (found.old.differ ≤ place.now.at) }
    ensures place { (result.words.now ≡ place.now.words.now)
        × (place.now.at < result.at) × (result.at ≤ place.now.at + 1000) }
    ensures counts { (found.new.runs ≡ found.old.runs) × (found.new.answers ≡ found.old.answers + 1)
        × (found.new.differ ≡ found.old.differ
        + cond (is_stored_answer place.now.words.now place.now.at lent.now.n r lent.now.question.now) 0 1) }
{
    found.answers += 1;
    if !lent.is_stored(place, r) {
        found.differ += 1;
    }
    place.after(answer::size(place, lent.n))
}

// Behind the stored reply.
fn passed<'a>(place: &Place<'a>, n: usize) -> Place<'a>
    requires { (place.now.at ≤ 1000000) × (n ≤ max_states) }
    ensures { (result.words.now ≡ place.now.words.now)
        × (place.now.at < result.at) × (result.at ≤ 1010000) }
{
    place.after(2 + reply_size(place.count(0), n))
}

// The run that stands there, from its start to its last stored answer. The next one stands where the result says.
fn run<'a>(place: Place<'a>, found: &mut Found) -> Place<'a>
    requires stored_len_bound { length place.words.now ≤ 1000000 }
    requires at_bound { (place.at ≤ 1000000) × (found.old.answers ≤ place.at) × (found.old.differ ≤ place.at)
        × (found.old.runs ≤ 1000000) }
    ensures place { (result.words.now ≡ place.entry.words.now) × (result.at ≤ 1020000) }
    ensures runs { found.new.runs ≡ found.old.runs + 1 }
    ensures counts { (found.new.answers ≤ result.at) × (found.new.differ ≤ result.at) }
    ensures answered { 0 < length place.entry.words.now → found.old.answers < found.new.answers }
    ensures moved { found.new.answers + place.entry.at ≤ found.old.answers + result.at }
    ensures differ { (found.old.differ ≤ found.new.differ)
        × (found.new.differ + found.old.answers ≤ found.old.differ + found.new.answers) }
{
    found.runs += 1;
    let head = Head::read(place);
    let n = head.n;
    let mut work = [0.0; common::WORK_LENGTH];
    let mut pivots = [0usize; common::MAX_STATES];
    let mut session = [0u8; common::SESSION_LENGTH];
    let mut question = [0.0; common::QUESTION_LENGTH];
    let mut lent = Lent {
        n,
        work: &mut work[..common::work_length(n)],
        pivots: &mut pivots[..n],
        session: &mut session,
        question: &mut question[..common::question_length(n)],
    };
    let mut r = lent.start(&head);
    let mut place = head.first_answer();
    // Counted by turns: the number indexes nothing.
    for _ in 0..place.words.len() {
        let asked = answer::is_asked(&place);
        place = compared(&place, &lent, r, found);
        if !asked || place.is_end() {
            break;
        }
        r = lent.reply(&place);
        place = passed(&place, n);
    }
    place
}

fn all(stored: &[u64]) -> Found
    requires { length stored.now ≤ 1000000 }
    ensures counts { (result.runs ≤ result.answers) × (result.differ ≤ result.answers) × (result.answers ≤ 1020000) }
    ensures answered { 0 < length stored.now → 0 < result.runs }
{
    let mut found = Found {
        runs: 0,
        answers: 0,
        differ: 0,
    };
    let mut place = Place::first(stored);
    // Counted by turns: the number indexes nothing.
    for _ in 0..stored.len() {
        if place.is_end() {
            break;
        }
        place = run(place, &mut found);
    }
    found
}

// Apart from what follows, which would carry the table along.
fn whole() -> Found {
    all(&runs::RUNS)
}

fn main(rt: HostRuntime) -> io::Result<()> {
    let found = whole();
    println!(rt;
        "runs: {}\nanswers: {} compared, {} differ",
        found.runs, found.answers, found.differ
    )?;
    sums::lines(&rt)
}
