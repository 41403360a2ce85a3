// The history's columns: predict, retract, rescale, the correction added, and copies between parts of the work slice.
// Column j is the n numbers at j·n. Snapshot and interpolation are in crate interpolation.
// work and n stay two: n is the settings' in most callers, these ask less than the whole layout, and of a struct with
// the `&mut` no contract is an equation for what work becomes: it is a relation that keeps the reference's name too.
// Settings and Common stay two values: a rule makes the record anew, so a struct of both would be taken apart in each.
// A bound on one count, order or index stays a clause: a type for it would be unwrapped wherever it is reckoned with.
// A place in the work stays a number: parts that are read and written lie in one slice, and contracts speak of it all.
// sweep and copy_part count an index: the part that they read and the part that they write may overlap.
// passes and correct_columns hand on the number of the pass or column that they are at.
#![tactic(auto)]

ghost use Rattle.std.specs.Prelude.{◌≡◌, ◌+◌, ◌*◌, ◌≤◌, length, replicate, Float};
ghost use Rattle.common.specs.Layout.{matrix_at};
ghost use Rattle.history.specs.Columns.{sweep_of, passes_of, predict_columns_of, retract_columns_of, times_of};
ghost use Rattle.history.specs.Columns.{rescale_columns_of, add_scaled_of, correct_columns_of, copy_of, slope_of};
ghost use Rattle.common.specs.Ranges.{StepInRange};
ghost use Rattle.history.specs.Steps.{least_of, pdh_of, limited_of, adjust_of, stale_of, predicted_of};
ghost use Rattle.history.specs.Steps.{predicted_work_of};
ghost use Rattle.history.specs.Parts.{norm_at_of, stored_of};

use common::{Common, Settings};
use vectors::Norm;

// The norm of the n numbers at `at`, by the weights in the work.
pub fn norm_at(work: &[f64], n: usize, at: usize) -> Norm
    requires { (at + n ≤ length work.now) × (matrix_at n ≤ length work.now) }
    ensures { result ≡ norm_at_of n at work.now }
{
    vectors::vmnorm(&work[at..at + n], &work[common::EWT * n..common::SAVF * n])
}

// The numbers at `at` become those of f.
pub fn store(work: &mut [f64], at: usize, f: &[f64])
    requires { at + length f.now ≤ length work.old }
    ensures { work.new ≡ stored_of at f.now work.old }
{
    common::copy_from(&mut work[at..at + f.len()], f);
}

// Each number from a to e becomes what f makes of it and the one that stands n further on.
#[tactic(auto, using(loops::proofs::For::turns))]
fn sweep<F: Fn(f64, f64) -> f64>(yh: &mut [f64], n: usize, a: usize, e: usize, f: &F)
    requires callable { F.IsAlwaysCallable f.now }
    requires room { e + n ≤ length yh.old }
    ensures { (op : Float → Float → Float) → ((x y z : Float) → F.post f.now x y z → z ≡ op x y)
        → yh.new ≡ sweep_of op n a e yh.old }
{
    for i in a..e {
        yh[i] = f(yh[i], yh[i + n]);
    }
}

// nq passes: each begins one column further to the left and runs to nqnyh.
#[tactic(auto, using(loops::proofs::For::turns))]
fn passes<F: Fn(f64, f64) -> f64>(yh: &mut [f64], n: usize, nq: usize, nqnyh: usize, f: F)
    requires callable { F.IsAlwaysCallable f }
    requires room { (nq * n ≤ nqnyh) × (nqnyh + n ≤ length yh.old) }
    ensures { (op : Float → Float → Float) → ((x y z : Float) → F.post f x y z → z ≡ op x y)
        → yh.new ≡ passes_of op n nq nqnyh yh.old }
{
    for k in 0..nq {
        sweep(yh, n, nqnyh - (k + 1) * n, nqnyh, &f);
    }
}

// Each number plus the one a column further on, pass by pass.
#[tactic(auto, unfolding(crate::specs::Columns::predict_columns_of))]
pub fn predict_columns(yh: &mut [f64], n: usize, nq: usize, nqnyh: usize)
    requires { (nq * n ≤ nqnyh) × (nqnyh + n ≤ length yh.old) }
    ensures { yh.new ≡ predict_columns_of n nq nqnyh yh.old }
{
    passes(yh, n, nq, nqnyh, |x, y| x + y);
}

// The same passes, subtracting: predict's order, so floats need not return.
#[tactic(auto, unfolding(crate::specs::Columns::retract_columns_of))]
pub fn retract_columns(yh: &mut [f64], n: usize, nq: usize, nqnyh: usize)
    requires { (nq * n ≤ nqnyh) × (nqnyh + n ≤ length yh.old) }
    ensures { yh.new ≡ retract_columns_of n nq nqnyh yh.old }
{
    passes(yh, n, nq, nqnyh, |x, y| x - y);
}

// Each number times r.
#[tactic(auto, using(loops::proofs::For::turns))]
pub fn scale(v: &mut [f64], r: f64)
    ensures { v.new ≡ times_of r v.old }
{
    for x in v.iter_mut() {
        *x *= r;
    }
}

// Column j times rh to the j-th, for the columns 1 to l - 1. (n may be 0, where chunks_exact_mut would panic.)
#[tactic(auto, using(loops::proofs::For::turns), unfolding(crate::specs::Columns::rescale_columns_of))]
pub fn rescale_columns(yh: &mut [f64], n: usize, l: usize, rh: f64)
    requires { l * n ≤ length yh.old }
    ensures { yh.new ≡ rescale_columns_of n l rh yh.old }
{
    let mut r = 1.0;
    #[tactic(auto, using(loops::proofs::For::turns), unfolding(crate::specs::Columns::scale_part_of))]
    for j in 1..l {
        r *= rh;
        let a = j * n;
        scale(&mut yh[a..a + n], r);
    }
}

// Column j plus e times the vector at `at`.
#[tactic(auto, using(loops::proofs::Split::left_turns), unfolding(crate::specs::Columns::add_scaled_of))]
fn add_scaled(work: &mut [f64], n: usize, j: usize, e: f64, at: usize)
    requires { (j * n + n ≤ at) × (at + n ≤ length work.old) }
    ensures { work.new ≡ add_scaled_of n j e at work.old }
{
    let (columns, vectors) = work.split_at_mut(at);
    for (i, x) in columns[j * n..j * n + n].iter_mut().enumerate() {
        *x += e * vectors[i];
    }
}

// The correction acor added to the columns 0 to nq, each with its coefficient.
#[tactic(auto, using(loops::proofs::For::turns), unfolding(crate::specs::Columns::correct_columns_of))]
pub fn correct_columns(s: Settings, c: Common, work: &mut [f64])
    requires step_in_range { StepInRange s c }
    requires n_in_bounds { matrix_at s.n ≤ length work.old }
    ensures { work.new ≡ correct_columns_of s c work.old }
{
    let n = s.n;
    for j in 0..c.nq + 1 {
        add_scaled(work, n, j, c.el(s, j), common::ACOR * n);
    }
}

// The n numbers at `to` become those at `from`, in turn: where the parts overlap, copy_within would do otherwise.
#[tactic(auto, using(loops::proofs::For::turns), unfolding(crate::specs::Columns::copy_of))]
pub fn copy_part(work: &mut [f64], n: usize, to: usize, from: usize)
    requires { (to + n ≤ length work.old) × (from + n ≤ length work.old) }
    ensures { work.new ≡ copy_of n to from work.old }
{
    for i in 0..n {
        work[to + i] = work[from + i];
    }
}

// Column 1 becomes h times the derivative savf.
#[tactic(auto, using(loops::proofs::Split::left_turns), unfolding(crate::specs::Columns::slope_of))]
pub fn set_slope(work: &mut [f64], n: usize, h: f64)
    requires { matrix_at n ≤ length work.old }
    ensures { work.new ≡ slope_of n h work.old }
{
    let (columns, vectors) = work.split_at_mut(common::SAVF * n);
    for (i, x) in columns[n..n + n].iter_mut().enumerate() {
        *x = h * vectors[i];
    }
}

// Each number becomes x.
pub fn fill(v: &mut [f64], x: f64)
    ensures { v.new ≡ replicate (length v.old) x }
{
    v.fill(x);
}

// The least factor that keeps a step at hmin or above.
pub fn least(c: Common) -> f64
    ensures { result ≡ least_of c }
{
    c.hmin / numbers::abs(c.h)
}

// The step times the last estimate of the Jacobian's norm, at least 1e-6.
pub fn pdh(c: Common) -> f64
    ensures { result ≡ pdh_of c }
{
    numbers::max(numbers::abs(c.h) * c.pdlast, 1.0e-6)
}

// The factor of a rescale within its limits: rmax, the largest step, and in the Adams family the stability limit SM1.
#[tactic(auto, unfolding(crate::specs::Steps::limited_of))]
pub fn limited(c: Common, rh: f64) -> f64
    requires { (1 ≤ c.nq) × (c.nq ≤ 12) }
    ensures { result ≡ limited_of c rh }
{
    let rh1 = numbers::min(rh, c.rmax);
    let rh2 = rh1 / numbers::max(1.0, numbers::abs(c.h) * c.hmxi * rh1);
    if c.meth.is_bdf() {
        return rh2;
    }
    let d = pdh(c);
    let sm1 = coefficients::sm1(c.nq);
    if rh2 * d * 1.00001 >= sm1 {
        sm1 / d
    } else {
        rh2
    }
}

#[tactic(auto, unfolding(crate::specs::Steps::adjust_of))]
pub fn stoda_adjust_step_size(s: Settings, c: Common, rh: f64, work: &mut [f64]) -> Common
    requires step_in_range { StepInRange s c }
    requires n_in_bounds { matrix_at s.n ≤ length work.old }
    ensures { (result ≡ adjust_of c rh)
        × (work.new ≡ rescale_columns_of s.n (c.nq + 1) (limited_of c rh) work.old) }
{
    let r = limited(c, rh);
    rescale_columns(work, s.n, c.nq + 1, r);
    Common {
        h: c.h * r,
        rc: c.rc * r,
        ialth: c.nq + 1,
        ..c
    }
}

// Whether a prediction asks for a Jacobian anew: rc has moved, or msbp steps have passed.
#[tactic(auto, unfolding(crate::specs::Steps::stale_of))]
fn is_stale(s: Settings, c: Common) -> bool
    requires { StepInRange s c }
    ensures { result ≡ stale_of s c }
{
    numbers::abs(c.rc - 1.0) > 0.3 || c.nslp + s.msbp() <= c.nst
}

#[tactic(auto, unfolding(crate::specs::Steps::predicted_of))]
pub fn stoda_get_predicted_values(s: Settings, c: Common, work: &mut [f64]) -> Common
    requires step_in_range { StepInRange s c }
    requires n_in_bounds { matrix_at s.n ≤ length work.old }
    ensures { (result ≡ predicted_of s c) × (work.new ≡ predicted_work_of s c work.old) }
{
    predict_columns(work, s.n, c.nq, c.nqnyh);
    Common {
        tn: c.tn + c.h,
        due: if is_stale(s, c) {
            c.meth.is_bdf()
        } else {
            c.due
        },
        ..c
    }
}
