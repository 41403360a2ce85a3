// Norms and weights: vmnorm, fnorm_dense, ewset, invert_weights, initial_step_size.
// Loops by index: `row_sum` and `row_sums` go along rows, which are no slices (by the weights' iterator both prove,
// with a parameter and a clause more), `fnorm_dense` goes by rows, and `vmnorm` takes w by number, which may be longer
// than v (by a `zip` it proves and takes 3 to 5 percent more instructions). The weights' functions take work, n and a
// place: each caller would split the work first, and put the whole together again in its proof. The two tolerance lists
// stay two parameters here: crate common's `Problem` is above.
#![tactic(auto)]

ghost use Rattle.std.specs.Prelude.{◌≡◌, false, ◌+◌, ◌-◌, ◌*◌, ◌≤◌, ◌<◌, length};
ghost use Rattle.std.specs.Float.Ieee as Ieee;
ghost use Rattle.numbers.specs.Order.{max_of};
ghost use Rattle.vectors.specs.Tolerance.{List1OrN, tolerance_of};
ghost use Rattle.vectors.specs.Norm.{entry_of, vmnorm_of, row_at, row_of, fnorm_of};
ghost use Rattle.vectors.specs.Maxima.{four_at, top_of, row_sums_at, row_sums_of, four_rows_at};
ghost use Rattle.vectors.specs.Weights.{ewset_of, ewset_like_of, invert_of, weights_outcome};
ghost use Rattle.vectors.specs.FirstStep.{largest_rtol_of, relative_of, tolerance_used_of};
ghost use Rattle.vectors.specs.FirstStep.{initial_step_of};

// What a norm answers.
#[derive(Clone, Copy)]
pub struct Norm {
    pub value: f64,
}

// The weight at this index is at most 0.
#[derive(Clone, Copy, PartialEq, Eq)]
pub struct NotPositive {
    pub index: usize,
}

// Entry i of a tolerance list, which is 1 long or holds an entry for each state.
#[tactic(auto, unfolding(crate::specs::Tolerance::tolerance_of))]
pub fn tolerance(list: &[f64], i: usize) -> f64
    requires { List1OrN list.now i }
    ensures { result ≡ tolerance_of list.now i }
{
    if list.len() == 1 { list[0] } else { list[i] }
}

// The maximum of a number and x, which is ignored if it is a NaN: one test in the norms' chain, where `numbers::max`
// has two.
#[tactic(auto, unfolding(numbers::specs::Order::max_of), using(crate::proofs::Largest::compared))]
fn larger(m: f64, x: f64) -> f64
    requires { Ieee.ne m m ≡ false }
    ensures largest { result ≡ max_of m x }
    ensures number { Ieee.ne result result ≡ false }
{
    if m < x { x } else { m }
}

// |v|·w at index i. A w that is longer than v serves too: a clause says so here and in what norms v.
fn entry(v: &[f64], w: &[f64], i: usize) -> f64
    requires { (i < length v.now) × (length v.now ≤ length w.now) }
    ensures { result ≡ entry_of v.now w.now i }
{
    numbers::abs(v[i]) * w[i]
}

// Four maxima or sums at once, each of its own entries: 13 instructions an entry of `vmnorm`. One chain through all
// entries takes 15, and waits for each in turn.
#[derive(Clone, Copy)]
pub struct Four {
    pub a: f64,
    pub b: f64,
    pub c: f64,
    pub d: f64,
}

const ZEROS: Four = Four {
    a: 0.0,
    b: 0.0,
    c: 0.0,
    d: 0.0,
};

impl Four {
    // Four entries, each to its maximum.
    fn with_entries(self, v: &[f64; 4], w: &[f64; 4]) -> Four
        requires a_value { (Ieee.ne self.a self.a ≡ false) × (Ieee.ne self.b self.b ≡ false) }
        requires c_value { (Ieee.ne self.c self.c ≡ false) × (Ieee.ne self.d self.d ≡ false) }
        ensures { result ≡ four_at v.now w.now 0 self }
    {
        Four {
            a: larger(self.a, entry(v, w, 0)),
            b: larger(self.b, entry(v, w, 1)),
            c: larger(self.c, entry(v, w, 2)),
            d: larger(self.d, entry(v, w, 3)),
        }
    }

    // The largest of the four.
    fn largest(self) -> f64
        requires { (Ieee.ne self.a self.a ≡ false) × (Ieee.ne self.c self.c ≡ false) }
        ensures { result ≡ top_of self }
    {
        larger(larger(self.a, self.b), larger(self.c, self.d))
    }

    // The sums of the rows i to i + 3 with entry j more.
    fn with_column(self, m: &Weighted<'_>, i: usize, j: usize) -> Four
        requires { (i + 4 ≤ m.now.n) × (j < m.now.n) }
        ensures { result ≡ row_sums_at m.now.n m.now.a.now m.now.w.now i j self }
    {
        Four {
            a: m.add_entry(i, j, self.a),
            b: m.add_entry(i + 1, j, self.b),
            c: m.add_entry(i + 2, j, self.c),
            d: m.add_entry(i + 3, j, self.d),
        }
    }
}

// The largest |v|·w; NaN entries are skipped.
#[tactic(auto, using(loops::proofs::For::turns), unfolding(crate::specs::Norm::vmnorm_of))]
pub fn vmnorm(v: &[f64], w: &[f64]) -> Norm
    requires { length v.now ≤ length w.now }
    ensures { result ≡ vmnorm_of v.now w.now }
{
    let (fours, rest) = v.as_chunks::<4>();
    let (weights, _) = w.as_chunks::<4>();
    let mut m = ZEROS;
    for (k, four) in fours.iter().enumerate() {
        m = m.with_entries(four, &weights[k]);
    }
    let mut value = m.largest();
    for i in v.len() - rest.len()..v.len() {
        value = larger(value, entry(v, w, i));
    }
    Norm { value }
}

// A matrix of n columns, the entry in row i of column j at i + j·n, and the weights of its rows.
#[derive(Clone, Copy)]
struct Weighted<'a> {
    n: usize,
    a: &'a [f64],
    w: &'a [f64],
    ghost square: { n * n ≤ length a.now },
    ghost weighed: { n ≤ length w.now },
}

impl Weighted<'_> {
    // The sum of row i with entry j more, divided by its column's weight.
    fn add_entry(&self, i: usize, j: usize, sum: f64) -> f64
        requires { (i < self.now.n) × (j < self.now.n) }
        ensures { result ≡ row_at self.now.n self.now.a.now self.now.w.now i j sum }
    {
        sum + numbers::abs(self.a[i + j * self.n]) / self.w[j]
    }

    // The sum of row i of the matrix, each entry divided by its column's weight.
    #[tactic(auto, using(loops::proofs::For::turns), unfolding(crate::specs::Norm::row_of))]
    fn row_sum(&self, i: usize) -> f64
        requires { i < self.now.n }
        ensures { result ≡ row_of self.now.n self.now.a.now self.now.w.now i }
    {
        let mut sum = 0.0;
        for j in 0..self.n {
            sum = self.add_entry(i, j, sum);
        }
        sum
    }

    // The sums of the rows i to i + 3.
    #[tactic(auto, unfolding(crate::specs::Norm::row_of))]
    fn row_sums(&self, i: usize) -> Four
        requires { i + 4 ≤ self.now.n }
        ensures { result ≡ row_sums_of self.now.n self.now.a.now self.now.w.now i }
    {
        let mut s = ZEROS;
        for j in 0..self.n {
            s = s.with_column(self, i, j);
        }
        s
    }

    // The matrix norm with the rows i to i + 3 more.
    fn four_rows(&self, i: usize, an: f64) -> f64
        requires i_bound { i + 4 ≤ self.now.n }
        requires an_value { Ieee.ne an an ≡ false }
        ensures { result ≡ four_rows_at self.now.n self.now.a.now self.now.w.now i an }
    {
        let s = self.row_sums(i);
        let first = larger(an, s.a * self.w[i]);
        let second = larger(first, s.b * self.w[i + 1]);
        let third = larger(second, s.c * self.w[i + 2]);
        larger(third, s.d * self.w[i + 3])
    }
}

// The norm of a matrix of n columns that belongs to vmnorm. n columns fit in a, which may be longer: so n beside it.
#[tactic(auto, using(loops::proofs::For::turns), unfolding(crate::specs::Norm::fnorm_of))]
pub fn fnorm_dense(n: usize, a: &[f64], w: &[f64]) -> Norm
    requires { (n * n ≤ length a.now) × (n ≤ length w.now) }
    ensures { result ≡ fnorm_of n a.now w.now }
{
    let m = Weighted { n, a, w };
    let mut value = 0.0;
    for k in 0..n / 4 {
        value = m.four_rows(4 * k, value);
    }
    for i in n / 4 * 4..n {
        value = larger(value, m.row_sum(i) * w[i]);
    }
    Norm { value }
}

// The weights rtol·|y| + atol of the n numbers at the start of work, written at `at`.
#[tactic(auto, using(loops::proofs::Split::right_turns), unfolding(crate::specs::Weights::ewset_of))]
pub fn ewset(rtol: &[f64], atol: &[f64], work: &mut [f64], n: usize, at: usize)
    requires list1or_n { List1OrN rtol.now (n - 1) }
    requires list1or_n_2 { List1OrN atol.now (n - 1) }
    requires n_le_at { (n ≤ at) × (at + n ≤ length work.old) }
    ensures { work.new ≡ ewset_of rtol.now atol.now n at work.old }
{
    let (y, weights) = work.split_at_mut(at);
    for (i, w) in weights[..n].iter_mut().enumerate() {
        #[tactic(auto, using(crate::proofs::Laws::serves))]
        *w = tolerance(rtol, i) * numbers::abs(y[i]) + tolerance(atol, i);
    }
}

// The weights after a modified reply, max(|y|, 2^-52), written at `at`.
#[tactic(auto, using(loops::proofs::Split::right_turns), unfolding(crate::specs::Weights::ewset_like_of))]
pub fn ewset_scalar_like(work: &mut [f64], n: usize, at: usize)
    requires { (n ≤ at) × (at + n ≤ length work.old) }
    ensures { work.new ≡ ewset_like_of n at work.old }
{
    let (y, weights) = work.split_at_mut(at);
    for (i, w) in weights[..n].iter_mut().enumerate() {
        *w = numbers::max(numbers::abs(y[i]), 2.220446049250313e-16);
    }
}

// Each weight inverted, up to the first that is at most 0, -0.0 included; a NaN passes.
#[tactic(auto, using(loops::proofs::For::turns), unfolding(crate::specs::Weights::invert_of))]
pub fn invert_weights(ewt: &mut [f64]) -> Result<(), NotPositive>
    ensures { (ewt.new ≡ (invert_of ewt.old).ewt)
        × (result ≡ weights_outcome (invert_of ewt.old)) }
{
    for (index, weight) in ewt.iter_mut().enumerate() {
        if *weight <= 0.0 {
            return Err(NotPositive { index });
        }
        *weight = 1.0 / *weight;
    }
    Ok(())
}

// The largest relative tolerance of n states. A list of 1 is met once, which gives the same maximum as n times.
#[tactic(auto, using(loops::proofs::For::turns), unfolding(crate::specs::FirstStep::largest_rtol_of))]
fn largest_rtol(rtol: &[f64], n: usize) -> f64
    requires { List1OrN rtol.now (n - 1) }
    ensures { result ≡ largest_rtol_of rtol.now n }
{
    let mut tol = 0.0;
    for x in rtol.iter().take(n) {
        tol = numbers::max(tol, *x);
    }
    tol
}

// The largest absolute tolerance relative to its state, from `start` on; a state that is 0 has none.
#[tactic(auto, using(loops::proofs::For::turns), unfolding(crate::specs::FirstStep::relative_of))]
fn largest_relative(atol: &[f64], y: &[f64], start: f64) -> f64
    requires { List1OrN atol.now (length y.now - 1) }
    ensures { result ≡ relative_of atol.now y.now start }
{
    let mut tol = start;
    for (i, state) in y.iter().enumerate() {
        if *state != 0.0 {
            #[tactic(auto, using(crate::proofs::Laws::serves))]
            tol = numbers::max(tol, tolerance(atol, i) / numbers::abs(*state));
        }
    }
    tol
}

// The tolerance that the first step goes by, within 100·2^-52 and 0.001.
#[tactic(auto, unfolding(crate::specs::FirstStep::tolerance_used_of))]
fn tolerance_used(rtol: &[f64], atol: &[f64], y: &[f64]) -> f64
    requires list1or_n { List1OrN rtol.now (length y.now - 1) }
    requires list1or_n_2 { List1OrN atol.now (length y.now - 1) }
    ensures { result ≡ tolerance_used_of rtol.now atol.now y.now }
{
    let rtol = largest_rtol(rtol, y.len());
    let tol = if rtol <= 0.0 {
        largest_relative(atol, y, rtol)
    } else {
        rtol
    };
    numbers::clamp(tol, 100.0 * 2.220446049250313e-16, 1.0e-3)
}

// The size of the first step from t towards tout.
#[tactic(auto, unfolding(crate::specs::FirstStep::initial_step_of))]
pub fn initial_step_size(
    t: f64,
    tout: f64,
    y: &[f64],
    f0: &[f64],
    w: &[f64],
    rtol: &[f64],
    atol: &[f64],
) -> f64
    requires list1or_n { List1OrN rtol.now (length y.now - 1) }
    requires list1or_n_2 { List1OrN atol.now (length y.now - 1) }
    requires f0_in_bounds { length f0.now ≤ length w.now }
    ensures { result ≡ initial_step_of t tout y.now f0.now w.now
        rtol.now atol.now }
{
    let tdist = numbers::abs(tout - t);
    let w0 = numbers::max(numbers::abs(t), numbers::abs(tout));
    let tol = tolerance_used(rtol, atol, y);
    let norm = vmnorm(f0, w).value;
    let sum = 1.0 / (tol * w0 * w0) + tol * norm * norm;
    let h0 = numbers::min(1.0 / sqrt::sqrt(sum), tdist);
    numbers::copysign(h0, tout - t)
}
