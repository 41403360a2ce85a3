// Factoring and solving with a dense matrix of n columns, the entry in row i of column j at i + j·n.
// The factoring exchanges whole rows, multipliers included; the solve mixes exchanges with elimination.
// The solve works on one slice that has the right side at b and the matrix at a.
// Loops by index: `column` and `less` read one part of the slice that they write another of (by `split_at_mut` both
// prove, with two lines and three ranges more, and the factoring takes 1 to 4 percent more instructions), and the
// others hand on, or answer, the row or column that they are at (`find_pivot` by an iterator: 3 to 6 percent more).
// A struct of a and n would hold a `&mut` whose name each contract had to keep. That each pivot is below n stays a
// clause, `by_index`: the pivots are a slice that is lent, and a struct of it would be made anew in each caller. Bounds
// on one index stay clauses: the head of crate history says why.
#![tactic(auto)]

ghost use Rattle.std.specs.Prelude.{◌≡◌, true, ℕ, ◌+◌, ◌*◌, ◌<◌, ◌≤◌, length, get_or};
ghost use Rattle.dense.specs.Factor.{pivot_of, exchange_of, scale_of, column_of, eliminate_of, step_of, factor_of};
ghost use Rattle.dense.specs.Solve.{less_of, forward_all_of, backward_at, solve_of, outcome_of};

// The factoring met a pivot that is 0, or the solve a diagonal entry that is 0.
#[derive(Clone, Copy, PartialEq, Eq)]
pub struct Singular;

#[derive(Clone, Copy)]
pub struct Pivot {
    pub row: usize,
    pub value: f64,
}

// The first largest entry of column k, from row k down.
#[tactic(auto, using(loops::proofs::For::turns), unfolding(crate::specs::Factor::pivot_of))]
fn find_pivot(a: &[f64], n: usize, k: usize) -> Pivot
    requires { (k < n) × (k * n + n ≤ length a.now) }
    ensures { (result ≡ pivot_of n k a.now) × (result.row < n) }
{
    let col = k * n;
    let mut pivot = Pivot {
        row: k,
        value: numbers::abs(a[k + col]),
    };
    for row in k + 1..n {
        let value = numbers::abs(a[row + col]);
        if value > pivot.value {
            pivot = Pivot { row, value };
        }
    }
    pivot
}

// Rows k and p change places, if they are two. By index: of what `chunks_exact_mut` leaves a proof knows the length
// alone.
#[tactic(auto, using(crate::proofs::Laws::exchanges), unfolding(crate::specs::Factor::swap_of))]
fn exchange(a: &mut [f64], n: usize, k: usize, p: usize)
    requires { (k < n) × (p < n) × (n * n ≤ length a.old) }
    ensures { a.new ≡ exchange_of n k p a.old }
{
    if p != k {
        for j in 0..n {
            #[tactic(auto, using(loops::proofs::For::within))]
            a.swap(k + j * n, p + j * n);
        }
    }
}

// Column k below the diagonal, divided by the diagonal's entry.
#[tactic(auto, using(loops::proofs::Split::part_turns), unfolding(crate::specs::Factor::scale_of))]
fn scale(a: &mut [f64], n: usize, k: usize)
    requires { (k < n) × (k * n + n ≤ length a.old) }
    ensures { a.new ≡ scale_of n k a.old }
{
    let diag = a[k + k * n];
    for x in &mut a[k * n + k + 1..k * n + n] {
        *x /= diag;
    }
}

// Column j below row k, less the multiples of column k.
#[tactic(auto, using(loops::proofs::For::turns), unfolding(crate::specs::Factor::column_of))]
fn column(a: &mut [f64], n: usize, k: usize, j: usize)
    requires { (k < n) × (k * n + n ≤ length a.old) × (j * n + n ≤ length a.old) }
    ensures { a.new ≡ column_of n k j a.old }
{
    let ukj = a[k + j * n];
    for i in k + 1..n {
        a[i + j * n] -= a[i + k * n] * ukj;
    }
}

// Every column to the right of k.
#[tactic(auto, using(loops::proofs::For::turns), unfolding(crate::specs::Factor::eliminate_of))]
fn eliminate(a: &mut [f64], n: usize, k: usize)
    requires { (k < n) × (n * n ≤ length a.old) }
    ensures { a.new ≡ eliminate_of n k a.old }
{
    for j in k + 1..n {
        #[tactic(auto, using(loops::proofs::For::within))]
        column(a, n, k, j);
    }
}

// Step k of the factoring. Where the pivot is zero nothing has changed.
#[tactic(auto, using(loops::proofs::For::within), unfolding(crate::specs::Factor::step_of))]
fn step(a: &mut [f64], n: usize, ipiv: &mut [usize], k: usize) -> Result<(), Singular>
    requires { (k < n) × (n * n ≤ length a.old) × (n ≤ length ipiv.old) }
    ensures { let next = step_of n k (record { a = a.old; ipiv = ipiv.old; ok = true }) in
        (a.new ≡ next.a) × (ipiv.new ≡ next.ipiv) × (result ≡ outcome_of next.ok) }
{
    let p = find_pivot(a, n, k);
    if p.value == 0.0 {
        return Err(Singular);
    }
    ipiv[k] = p.row;
    exchange(a, n, k, p.row);
    scale(a, n, k);
    eliminate(a, n, k);
    Ok(())
}

// The factors in place of the matrix, and the row that each step exchanged.
#[tactic(auto, using(loops::proofs::For::turns), unfolding(crate::specs::Factor::factor_of))]
pub fn dense_lu_factor(a: &mut [f64], n: usize, ipiv: &mut [usize]) -> Result<(), Singular>
    requires { (n * n ≤ length a.old) × (n ≤ length ipiv.old) }
    ensures { (a.new ≡ (factor_of n a.old ipiv.old).a)
        × (ipiv.new ≡ (factor_of n a.old ipiv.old).ipiv)
        × (result ≡ outcome_of (factor_of n a.old ipiv.old).ok) }
{
    for k in 0..n {
        step(a, n, ipiv, k)?;
    }
    Ok(())
}

// The equations that are solved: the right side is the n numbers at b, and the factors begin at a, behind it.
#[derive(Clone, Copy)]
struct System {
    n: usize,
    a: usize,
    b: usize,
    ghost behind: { b + n ≤ a },
}

impl System {
    // Rows lo..hi of the right side, less their multiples of row k, whose entry bk is read once: the published code
    // reads it in every turn of the loop, where it does not change.
    #[tactic(auto, using(loops::proofs::For::turns), unfolding(crate::specs::Solve::less_of))]
    fn less(self, work: &mut [f64], k: usize, bk: f64, lo: usize, hi: usize)
        requires { (hi ≤ self.n) × (self.a + (k * self.n + self.n) ≤ length work.old) }
        ensures { work.new ≡ less_of self.n self.a self.b k bk lo hi work.old }
    {
        for i in lo..hi {
            work[self.b + i] -= work[self.a + (i + k * self.n)] * bk;
        }
    }

    // Each row's exchange, then its elimination.
    #[tactic(auto, using(crate::proofs::Laws::eliminations), unfolding(crate::specs::Solve::forward_all_of))]
    fn forward_all(self, work: &mut [f64], ipiv: &[usize])
        requires n_bound { (self.a + self.n * self.n ≤ length work.old) × (self.n ≤ length ipiv.now) }
        requires by_index { (k : ℕ) → k < self.n → get_or ipiv.now k 0 < self.n }
        ensures { work.new ≡ forward_all_of self.n self.a ipiv.now self.b work.old }
    {
        for (k, pivot) in ipiv[..self.n].iter().enumerate() {
            work.swap(self.b + k, self.b + *pivot);
            let bk = work[self.b + k];
            self.less(work, k, bk, k + 1, self.n);
        }
    }

    // Row k divided by its diagonal entry, and the rows above it less their multiples. Where the diagonal is zero
    // nothing has changed.
    #[tactic(auto, unfolding(crate::specs::Solve::backward_of))]
    fn backward_step(self, work: &mut [f64], k: usize) -> Result<(), Singular>
        requires { (k < self.n) × (self.a + self.n * self.n ≤ length work.old) }
        ensures { let next = backward_at self.n self.a self.b k (record { work = work.old; ok = true }) in
            (work.new ≡ next.work) × (result ≡ outcome_of next.ok) }
    {
        let diag = work[self.a + (k + k * self.n)];
        if diag == 0.0 {
            return Err(Singular);
        }
        let bk = work[self.b + k] / diag;
        work[self.b + k] = bk;
        self.less(work, k, bk, 0, k);
        Ok(())
    }
}

// The right side replaced by the solution, from the last row up, or as far as it went at a zero diagonal. Both lie in
// work: the right side is the n numbers at b, and the factors begin at a, behind it.
#[tactic(auto, using(loops::proofs::For::turns), unfolding(crate::specs::Solve::solve_of))]
pub fn dense_lu_solve(
    work: &mut [f64],
    n: usize,
    a: usize,
    ipiv: &[usize],
    b: usize,
) -> Result<(), Singular>
    requires n_bound { (b + n ≤ a) × (a + n * n ≤ length work.old) × (n ≤ length ipiv.now) }
    requires by_index { (k : ℕ) → k < n → get_or ipiv.now k 0 < n }
    ensures { (work.new ≡ (solve_of n a ipiv.now b work.old).work)
        × (result ≡ outcome_of (solve_of n a ipiv.now b work.old).ok) }
{
    let s = System { n, a, b };
    s.forward_all(work, ipiv);
    for k in (0..n).rev() {
        s.backward_step(work, k)?;
    }
    Ok(())
}
