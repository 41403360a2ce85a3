// The snapshot of a step and its dense output: snapshot_step, and interpolate with its header and evaluation.
// Settings, record and work stay parameters, with a clause on each one's range: the head of crate history says why. So
// does the question, with a place: of a part that is cut out a lemma would have to say what the whole becomes.
#![tactic(auto)]

ghost use Rattle.std.specs.Prelude.{◌≡◌, ◌+◌, ◌*◌, ◌≤◌, ◌<◌, length, IfSome};
ghost use Rattle.common.specs.Limits.{max_states};
ghost use Rattle.common.specs.Layout.{ewt_at, header_length, question_length};
ghost use Rattle.interpolation.specs.Snapshot.{header_of, snapshot_of};
ghost use Rattle.interpolation.specs.Header.{whole_count_of, read_header_of};
ghost use Rattle.interpolation.specs.Evaluate.{horner_of, evaluate_of, Interpolated, unusable_number, number_of};
ghost use Rattle.interpolation.specs.Evaluate.{interpolate_of};

use common::{Common, Settings};

// Why a snapshot gives no pose, each with the number of the refusal.
#[derive(Clone, Copy, PartialEq, Eq)]
pub enum Unusable {
    // under 6 numbers, or n or nq is no count within its limit
    Header = 15,
    // the pose's length is not n
    Length = 16,
    // the history is shorter than its columns, or h is zero
    History = 17,
}

impl From<Unusable> for usize {
    fn from(why: Unusable) -> usize
        ensures { result ≡ unusable_number why }
    {
        why as usize
    }
}

// The numbers of a snapshot that are read: states, order, time and step size.
#[derive(Clone, Copy)]
pub struct Sizes {
    pub n: usize,
    pub nq: usize,
    pub tn: f64,
    pub h: f64,
}

// The header of a snapshot at `at`: n, nq, t, h, hu, 2^-52.
#[tactic(auto, unfolding(crate::specs::Snapshot::header_of))]
fn put_header(s: Settings, c: Common, to: &mut [f64], at: usize)
    requires { (s.n ≤ max_states) × (c.nq ≤ 12) × (at + header_length ≤ length to.old) }
    ensures { to.new ≡ header_of s c at to.old }
{
    let n = s.n as u32;
    let nq = c.nq as u32;
    to[at] = n as f64;
    to[at + 1] = nq as f64;
    to[at + 2] = c.tn;
    to[at + 3] = c.h;
    to[at + 4] = c.hu;
    to[at + 5] = 2.220446049250313e-16;
}

// The snapshot of the step just done, from n on in the question: the header, then the columns 0 to nq.
pub fn snapshot_step(s: Settings, c: Common, work: &[f64], question: &mut [f64])
    requires { (1 ≤ s.n) × (s.n ≤ max_states) × (c.nq ≤ 12) × (ewt_at s.n ≤ length work.now)
        × (question_length s.n ≤ length question.old) }
    ensures { question.new ≡ snapshot_of s c work.now question.old }
{
    let n = s.n;
    put_header(s, c, question, n);
    let columns = (c.nq + 1) * n;
    let at = n + common::HEADER;
    common::copy_from(&mut question[at..at + columns], &work[..columns]);
}

// The count up to `limit` that a float equals; -0.0 equals 0, and no NaN, fraction or infinity equals any.
fn whole_count(x: f64, limit: u32) -> Option<usize>
    requires { limit ≤ max_states }
    ensures { result ≡ whole_count_of x limit }
{
    (0..limit + 1).find(|k| x == *k as f64).map(|k| k as usize)
}

// At least 6 numbers, n whole and 0 to 64, nq whole and 0 to 12.
#[tactic(auto, using(crate::proofs::Steps::headers), unfolding(crate::specs::Header::read_header_of))]
fn read_header(cont: &[f64]) -> Option<Sizes>
    ensures value { result ≡ read_header_of cont.now }
    ensures sizes { IfSome result (λ z. (6 ≤ length cont.now) × (z.n ≤ max_states) × (z.nq ≤ 12)) }
{
    if cont.len() < common::HEADER {
        return None;
    }
    let n = whole_count(cont[0], common::MAX_STATES as u32)?;
    let nq = whole_count(cont[1], 12)?;
    Some(Sizes {
        n,
        nq,
        tn: cont[2],
        h: cont[3],
    })
}

// One turn of Horner's rule: a column plus s times what stands. By index: of what
// `iter_mut().zip(column)` leaves a proof knows the length alone.
#[tactic(auto, using(loops::proofs::For::turns), unfolding(crate::specs::Evaluate::horner_of))]
fn horner(yi: &mut [f64], column: &[f64], s: f64)
    requires { length yi.old ≤ length column.now }
    ensures { yi.new ≡ horner_of column.now s yi.old }
{
    for (i, y) in yi.iter_mut().enumerate() {
        *y = column[i] + s * *y;
    }
}

// The polynomial of the columns at s = (xi - tn) / h, by Horner's rule from the last column down. By number, since n
// may be 0, where `chunks_exact` would panic.
fn evaluate(xi: f64, yi: &mut [f64], cont: &[f64], z: Sizes)
    requires { (z.n ≤ max_states) × (z.nq ≤ 12) × (length yi.old ≡ z.n)
        × (6 + (z.nq + 1) * z.n ≤ length cont.now) }
    ensures { yi.new ≡ evaluate_of xi cont.now z yi.old }
{
    let n = z.n;
    let s = (xi - z.tn) / z.h;
    let last = common::HEADER + z.nq * n;
    common::copy_from(yi, &cont[last..last + n]);
    for j in (0..z.nq).rev() {
        let a = common::HEADER + j * n;
        horner(yi, &cont[a..a + n], s);
    }
}

// The state at time xi from a snapshot. A refusal leaves the output unchanged.
// A snapshot as long as the output is copied to it.
#[tactic(auto, using(crate::proofs::Steps::poses), unfolding(crate::specs::Evaluate::interpolate_sized_of))]
pub fn interpolate(xi: f64, yi: &mut [f64], cont: &[f64]) -> Result<(), Unusable>
    ensures { ◌≡◌ {A = Interpolated} (record { number = number_of result; output = yi.new })
        (interpolate_of xi cont.now yi.old) }
{
    if cont.len() == yi.len() {
        common::copy_from(yi, cont);
        return Ok(());
    }
    let Some(z) = read_header(cont) else {
        return Err(Unusable::Header);
    };
    if yi.len() != z.n {
        return Err(Unusable::Length);
    }
    if cont.len() - common::HEADER < (z.nq + 1) * z.n || z.h == 0.0 {
        return Err(Unusable::History);
    }
    evaluate(xi, yi, cont, z);
    Ok(())
}
