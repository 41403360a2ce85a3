// The Jacobian of the corrector, `prja` in its parts: the matrix by differences or from the host, its norm and factors.
// add_identity counts an index, since the diagonal's entries stand n + 1 apart: over a `step_by` a proof needs a
// measure, and the place of each turn all the same.
// Settings, record and work stay parameters, with a clause on each one's range: the head of crate history says why.
#![tactic(auto)]

ghost use Rattle.std.specs.Prelude.{◌≡◌, ◌+◌, ◌*◌, ◌^◌, ◌≤◌, ◌<◌, length, is_ok};
ghost use Rattle.dense.specs.Solve.{outcome_of};
ghost use Rattle.common.specs.Limits.{max_states};
ghost use Rattle.common.specs.Layout.{matrix_at, work_length};
ghost use Rattle.jacobian.specs.Jacobian.{begin_of, r0_of, increment_of, perturb_of, difference_of, restore_of};
ghost use Rattle.jacobian.specs.Jacobian.{minus_hl0, scaled_of, identity_of, identity_factors_of, in_force, Factored};
ghost use Rattle.jacobian.specs.Jacobian.{finish_jacobian_of};

use common::{Common, Settings};
use dense::Singular;

#[derive(Clone, Copy)]
pub struct Factoring {
    pub outcome: Result<(), Singular>,
    pub common: Common,
}

// A Jacobian begins: it is counted, and made in this pass.
#[tactic(auto, unfolding(crate::specs::Jacobian::begin_of))]
pub fn begin_jacobian(c: Common) -> Common
    requires { c.nje < 2 ^ 63 }
    ensures { result ≡ begin_of c }
{
    Common {
        nje: c.nje + 1,
        jcur: true,
        due: false,
        ..c
    }
}

// The least increment of a difference column, before its weight.
#[tactic(auto, unfolding(crate::specs::Jacobian::r0_of))]
fn r0(s: Settings, c: Common, work: &[f64]) -> f64
    requires { (s.n ≤ max_states) × (matrix_at s.n ≤ length work.now) }
    ensures { result ≡ r0_of s c work.now }
{
    let n = s.n;
    let fac = history::norm_at(work, n, common::SAVF * n).value;
    let r = 1000.0 * numbers::abs(c.h) * 2.220446049250313e-16 * n as u32 as f64 * fac;
    if r == 0.0 { 1.0 } else { r }
}

// The increment of state j in its difference column.
#[tactic(auto, unfolding(crate::specs::Jacobian::increment_of))]
fn increment(s: Settings, c: Common, work: &[f64], j: usize) -> f64
    requires { (s.n ≤ max_states) × (matrix_at s.n ≤ length work.now) × (j < s.n) }
    ensures { result ≡ increment_of s c work.now j }
{
    let n = s.n;
    let r = r0(s, c, work);
    numbers::max(
        1.4901161193847656e-8 * numbers::abs(work[common::Y * n + j]),
        r / work[common::EWT * n + j],
    )
}

// State j of y_fd is moved by its increment.
#[tactic(auto, unfolding(crate::specs::Jacobian::perturb_of))]
pub fn perturb(s: Settings, c: Common, work: &mut [f64], j: usize)
    requires { (s.n ≤ max_states) × (matrix_at s.n ≤ length work.old) × (j < s.n) }
    ensures { work.new ≡ perturb_of s c j work.old }
{
    let n = s.n;
    let r = increment(s, c, work, j);
    work[common::Y_FD * n + j] = work[common::Y * n + j] + r;
}

// Column j of the matrix from the derivative in ftem at the moved state.
#[tactic(auto, using(loops::proofs::Split::right_turns), unfolding(crate::specs::Jacobian::difference_of))]
fn difference_column(work: &mut [f64], n: usize, j: usize, fac: f64)
    requires { (j * n + n ≤ n * n) × (work_length n ≤ length work.old) }
    ensures { work.new ≡ difference_of n j fac work.old }
{
    let (vectors, matrix) = work.split_at_mut(common::MATRIX * n);
    let ftem = &vectors[common::FTEM * n..];
    let savf = &vectors[common::SAVF * n..];
    for (i, x) in matrix[j * n..j * n + n].iter_mut().enumerate() {
        *x = (ftem[i] - savf[i]) * fac;
    }
}

// The derivative at the moved state is taken: its column is stored, and state j of y_fd is put back.
#[tactic(auto, unfolding(crate::specs::Jacobian::restore_of))]
pub fn store_column(s: Settings, c: Common, work: &mut [f64], j: usize)
    requires { (s.n ≤ max_states) × (work_length s.n ≤ length work.old) × (j < s.n) }
    ensures { work.new ≡ restore_of s c j work.old }
{
    let n = s.n;
    let fac = -(c.h * c.el0) / increment(s, c, work, j);
    difference_column(work, n, j, fac);
    work[common::Y_FD * n + j] = work[common::Y * n + j];
}

// The host's Jacobian, column by column, scaled into the matrix. By index: of what
// `iter_mut().zip(jac)` leaves a proof knows the length alone.
#[tactic(auto, using(loops::proofs::For::turns), unfolding(crate::specs::Jacobian::scaled_of))]
pub fn store_jacobian(c: Common, a: &mut [f64], jac: &[f64])
    requires { length jac.now ≤ length a.old }
    ensures { a.new ≡ scaled_of (minus_hl0 c) jac.now a.old }
{
    let scale = -(c.h * c.el0);
    for (i, x) in jac.iter().enumerate() {
        a[i] = scale * *x;
    }
}

// The identity added to a matrix.
#[tactic(auto, using(loops::proofs::For::turns), unfolding(crate::specs::Jacobian::identity_of))]
fn add_identity(a: &mut [f64], n: usize)
    requires { n * n ≤ length a.old }
    ensures { a.new ≡ identity_of n a.old }
{
    for i in 0..n {
        a[i + i * n] += 1.0;
    }
}

// The identity added to the matrix, and its factors in its place.
fn factor(a: &mut [f64], n: usize, ipiv: &mut [usize]) -> Result<(), Singular>
    requires { (n * n ≤ length a.old) × (n ≤ length ipiv.old) }
    ensures { (a.new ≡ (identity_factors_of n a.old ipiv.old).a)
        × (ipiv.new ≡ (identity_factors_of n a.old ipiv.old).ipiv)
        × (result ≡ outcome_of (identity_factors_of n a.old ipiv.old).ok) }
{
    add_identity(a, n);
    dense::dense_lu_factor(a, n, ipiv)
}

// The record with a Jacobian of this norm in force; a factoring that went through is counted.
fn in_force(c: Common, norm: f64, done: bool) -> Common
    requires { c.nlu < 2 ^ 63 }
    ensures { result ≡ in_force c norm done }
{
    Common {
        pdnorm: norm / numbers::abs(c.h * c.el0),
        rc: 1.0,
        nslp: c.nst,
        convrate: 0.7,
        nlu: if done { c.nlu + 1 } else { c.nlu },
        ..c
    }
}

// The matrix's norm, the identity and the factors; a Jacobian is in force from here.
#[tactic(auto, unfolding(crate::specs::Jacobian::finish_jacobian_of))]
pub fn finish_jacobian(s: Settings, c: Common, work: &mut [f64], ipiv: &mut [usize]) -> Factoring
    requires n_le_max_states { (s.n ≤ max_states) × (work_length s.n ≤ length work.old) × (s.n ≤ length ipiv.old) }
    requires nlu_bound { c.nlu < 2 ^ 63 }
    ensures { ◌≡◌ {A = Factored}
        (record { done = is_ok result.outcome; common = result.common; work = work.new; ipiv = ipiv.new })
        (finish_jacobian_of s c work.old ipiv.old) }
{
    let n = s.n;
    let a = common::MATRIX * n;
    let e = a + n * n;
    let weights = &work[common::EWT * n..common::SAVF * n];
    let norm = vectors::fnorm_dense(n, &work[a..e], weights).value;
    let outcome = factor(&mut work[a..e], n, ipiv);
    Factoring {
        outcome,
        common: in_force(c, norm, outcome.is_ok()),
    }
}
