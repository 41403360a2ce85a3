// For comparisons with the reference alone: the functions that a host cannot reach otherwise. crates/probe_c exports
// them by C's rules. Nothing is asked of the host: where a callee's requires is not met, a NaN or the number 2 is
// answered, and what was lent stays as it was. Answers are numbers and not enums, since C reads them. There is one
// function for each exported name, so elco and tesco, cm1 and cm2, max and min, predict and retract stay two each. The
// functions on the history and the record are in steps.rt.
#![tactic(auto)]

ghost use Rattle.std.specs.Prelude.{◌≡◌, ◌≤◌, length};
ghost use Rattle.std.specs.Float.Ieee as Ieee;
ghost use Rattle.std.specs.Float.{binary64};
ghost use Rattle.numbers.specs.Sign.{abs_of, signum_of, copysign_of, refused};
ghost use Rattle.numbers.specs.Order.{max_of, min_of, clamp_of};
ghost use Rattle.sqrt.specs.Sqrt.{sqrt_of};
ghost use Rattle.vectors.specs.Weights.{invert_of, weights_outcome};
ghost use Rattle.probe.specs.Probe.{is_order, elco_or_nan, tesco_or_nan, cm1_or_nan, cm2_or_nan, sm1_or_nan};
ghost use Rattle.probe.specs.Leaves.{is_matrix, is_tolerance_list, is_behind, is_weighed, is_system, are_pivots};
ghost use Rattle.probe.specs.Leaves.{WorkLeft, vmnorm_or_nan, fnorm_or_nan, ewset_left, ewset_like_left, index_of};
ghost use Rattle.probe.specs.Leaves.{initial_step_or_nan, FactorsLeft, factor_left, solve_left};

pub mod steps;

use dense::Singular;
use vectors::NotPositive;

pub fn probe_abs(x: f64) -> f64
    ensures { result ≡ abs_of x }
{
    numbers::abs(x)
}

pub fn probe_max(a: f64, b: f64) -> f64
    ensures { result ≡ max_of a b }
{
    numbers::max(a, b)
}

pub fn probe_min(a: f64, b: f64) -> f64
    ensures { result ≡ min_of a b }
{
    numbers::min(a, b)
}

pub fn probe_clamp(x: f64, low: f64, high: f64) -> f64
    ensures { result ≡ clamp_of x low high }
{
    numbers::clamp(x, low, high)
}

pub fn probe_signum(x: f64) -> f64
    ensures { result ≡ signum_of x }
{
    numbers::signum(x)
}

pub fn probe_copysign(x: f64, s: f64) -> f64
    ensures { result ≡ copysign_of x s }
{
    numbers::copysign(x, s)
}

pub fn probe_is_refused(h: f64, direction: f64) -> bool
    ensures { result ≡ refused h direction }
{
    numbers::is_refused(h, direction)
}

pub fn probe_to_bits(x: f64) -> u64
    ensures { result ≡ Ieee.to_bits binary64 x }
{
    numbers::to_bits(x)
}

pub fn probe_from_bits(b: u64) -> f64
    ensures { result ≡ Ieee.of_bits binary64 b }
{
    numbers::from_bits(b)
}

pub fn probe_sqrt(x: f64) -> f64
    ensures { result ≡ sqrt_of x }
{
    sqrt::sqrt(x)
}

// Whether there is such an order, where the last is given.
#[tactic(auto, unfolding(crate::specs::Probe::is_order))]
fn is_order(order: usize, last: usize) -> bool
    ensures { result ≡ is_order order last }
{
    (1..=last).contains(&order)
}

// Coefficient i of an order in a table: 0 none yet, 1 Adams, 2 BDF.
#[tactic(auto, unfolding(crate::specs::Probe::elco_or_nan, crate::specs::Probe::is_order))]
pub fn probe_elco(table: usize, order: usize, i: usize) -> f64
    ensures { result ≡ elco_or_nan table order i }
{
    if table <= 2 && i <= 12 && is_order(order, 12) {
        coefficients::elco(table, order, i)
    } else {
        numbers::not_a_number()
    }
}

// Error entry i of an order in a table.
#[tactic(auto, unfolding(crate::specs::Probe::tesco_or_nan, crate::specs::Probe::is_order))]
pub fn probe_tesco(table: usize, order: usize, i: usize) -> f64
    ensures { result ≡ tesco_or_nan table order i }
{
    if table <= 2 && i <= 2 && is_order(order, 12) {
        coefficients::tesco(table, order, i)
    } else {
        numbers::not_a_number()
    }
}

#[tactic(auto, unfolding(crate::specs::Probe::cm1_or_nan, crate::specs::Probe::is_order))]
pub fn probe_cm1(table: usize, order: usize) -> f64
    ensures { result ≡ cm1_or_nan table order }
{
    if is_order(order, 12) {
        coefficients::cm1(table, order)
    } else {
        numbers::not_a_number()
    }
}

#[tactic(auto, unfolding(crate::specs::Probe::cm2_or_nan, crate::specs::Probe::is_order))]
pub fn probe_cm2(table: usize, order: usize) -> f64
    ensures { result ≡ cm2_or_nan table order }
{
    if is_order(order, 5) {
        coefficients::cm2(table, order)
    } else {
        numbers::not_a_number()
    }
}

#[tactic(auto, unfolding(crate::specs::Probe::sm1_or_nan, crate::specs::Probe::is_order))]
pub fn probe_sm1(order: usize) -> f64
    ensures { result ≡ sm1_or_nan order }
{
    if is_order(order, 12) {
        coefficients::sm1(order)
    } else {
        numbers::not_a_number()
    }
}

// Whether a matrix of n columns and a vector of n, of these lengths, are there.
#[tactic(auto, unfolding(crate::specs::Leaves::is_matrix))]
fn is_matrix(n: usize, matrix: usize, vector: usize) -> bool
    ensures { result ≡ is_matrix n matrix vector }
{
    n <= common::MAX_STATES && n * n <= matrix && n <= vector
}

// Whether a tolerance list of this length serves n states. (refusals has a test of the length, but lies above probe.)
#[tactic(auto, unfolding(crate::specs::Leaves::is_tolerance_list))]
fn is_list(n: usize, len: usize) -> bool
    ensures { result ≡ is_tolerance_list n len }
{
    1 <= n && (len == 1 || len == n)
}

// Whether n numbers at `at` stand behind the first n of so many.
#[tactic(auto, unfolding(crate::specs::Leaves::is_behind))]
fn is_behind(n: usize, at: usize, len: usize) -> bool
    ensures { result ≡ is_behind n at len }
{
    n <= at && n <= len && at <= len - n
}

// Whether the lists and the places serve for the weights of n states.
#[tactic(auto, unfolding(crate::specs::Leaves::is_weighed))]
fn is_weighed(n: usize, rtol: usize, atol: usize, at: usize, len: usize) -> bool
    ensures { result ≡ is_weighed n rtol atol at len }
{
    is_list(n, rtol) && is_list(n, atol) && is_behind(n, at, len)
}

// Whether a right side at b, a matrix at a behind it, and n pivots are there.
#[tactic(auto, unfolding(crate::specs::Leaves::is_system))]
fn is_system(n: usize, a: usize, b: usize, len: usize, pivots: usize) -> bool
    ensures { result ≡ is_system n a b len pivots }
{
    a <= len && is_matrix(n, len - a, pivots) && n <= a && b <= a - n
}

// Whether each of the first n pivots is below n.
#[tactic(auto, unfolding(crate::specs::Leaves::are_pivots))]
fn are_pivots(n: usize, ipiv: &[usize]) -> bool
    requires { n ≤ length ipiv.now }
    ensures { result ≡ are_pivots n ipiv.now }
{
    ipiv[..n].iter().all(|pivot| *pivot < n)
}

#[tactic(auto, unfolding(crate::specs::Leaves::vmnorm_or_nan))]
pub fn probe_vmnorm(v: &[f64], w: &[f64]) -> f64
    ensures { result ≡ vmnorm_or_nan v.now w.now }
{
    if v.len() <= w.len() {
        vectors::vmnorm(v, w).value
    } else {
        numbers::not_a_number()
    }
}

#[tactic(auto, unfolding(crate::specs::Leaves::fnorm_or_nan, crate::specs::Leaves::is_matrix))]
pub fn probe_fnorm_dense(n: usize, a: &[f64], w: &[f64]) -> f64
    ensures { result ≡ fnorm_or_nan n a.now w.now }
{
    if is_matrix(n, a.len(), w.len()) {
        vectors::fnorm_dense(n, a, w).value
    } else {
        numbers::not_a_number()
    }
}

// The weights of the first n numbers of work, at `at`. 0 done, 2 not.
#[tactic(auto, using(crate::proofs::Sizes::weighed), unfolding(crate::specs::Leaves::ewset_left))]
pub fn probe_ewset(rtol: &[f64], atol: &[f64], work: &mut [f64], n: usize, at: usize) -> usize
    ensures { ◌≡◌ {A = WorkLeft} (record { number = result; work = work.new })
        (ewset_left rtol.now atol.now n at work.old) }
{
    if is_weighed(n, rtol.len(), atol.len(), at, work.len()) {
        vectors::ewset(rtol, atol, work, n, at);
        0
    } else {
        2
    }
}

#[tactic(auto, unfolding(crate::specs::Leaves::ewset_like_left, crate::specs::Leaves::is_behind))]
pub fn probe_ewset_scalar_like(work: &mut [f64], n: usize, at: usize) -> usize
    ensures { ◌≡◌ {A = WorkLeft} (record { number = result; work = work.new })
        (ewset_like_left n at work.old) }
{
    if is_behind(n, at, work.len()) {
        vectors::ewset_scalar_like(work, n, at);
        0
    } else {
        2
    }
}

// The index of the weight that is refused, or the number of weights where none is.
pub fn probe_invert_weights(ewt: &mut [f64]) -> usize
    ensures { (ewt.new ≡ (invert_of ewt.old).ewt)
        × (result ≡ index_of (length ewt.old) (weights_outcome (invert_of ewt.old))) }
{
    let n = ewt.len();
    match vectors::invert_weights(ewt) {
        Ok(()) => n,
        Err(NotPositive { index }) => index,
    }
}

#[tactic(auto, unfolding(crate::specs::Leaves::initial_step_or_nan, crate::specs::Leaves::is_tolerance_list))]
pub fn probe_initial_step_size(
    t: f64,
    tout: f64,
    y: &[f64],
    f0: &[f64],
    w: &[f64],
    rtol: &[f64],
    atol: &[f64],
) -> f64
    ensures { result ≡ initial_step_or_nan t tout y.now f0.now w.now
        rtol.now atol.now }
{
    if f0.len() <= w.len() && is_list(y.len(), rtol.len()) && is_list(y.len(), atol.len()) {
        vectors::initial_step_size(t, tout, y, f0, w, rtol, atol)
    } else {
        numbers::not_a_number()
    }
}

// 0 done, 1 singular, 2 nothing done.
#[tactic(auto, unfolding(crate::specs::Leaves::factor_left, crate::specs::Leaves::is_matrix))]
pub fn probe_dense_lu_factor(a: &mut [f64], n: usize, ipiv: &mut [usize]) -> usize
    ensures { ◌≡◌ {A = FactorsLeft} (record { number = result; a = a.new; ipiv = ipiv.new })
        (factor_left n a.old ipiv.old) }
{
    if !is_matrix(n, a.len(), ipiv.len()) {
        return 2;
    }
    match dense::dense_lu_factor(a, n, ipiv) {
        Ok(()) => 0,
        Err(Singular) => 1,
    }
}

// The right side is the n numbers of work at b, the matrix stands at a. 0 done, 1 singular, 2 nothing done.
#[tactic(auto, using(crate::proofs::Sizes::system), unfolding(crate::specs::Leaves::solve_left))]
pub fn probe_dense_lu_solve(work: &mut [f64], n: usize, a: usize, ipiv: &[usize], b: usize) -> usize
    ensures { ◌≡◌ {A = WorkLeft} (record { number = result; work = work.new })
        (solve_left n a ipiv.now b work.old) }
{
    if !is_system(n, a, b, work.len(), ipiv.len()) || !are_pivots(n, ipiv) {
        return 2;
    }
    match dense::dense_lu_solve(work, n, a, ipiv, b) {
        Ok(()) => 0,
        Err(Singular) => 1,
    }
}
