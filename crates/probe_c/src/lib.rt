// The leaves for oracle/, by C's rules: over the crate probe, whose functions these call and whose clauses they state
// again. The functions on the history and the record are in steps.rt.
#![tactic(auto)]

ghost use Rattle.std.specs.Prelude.{◌≡◌, length};
ghost use Rattle.std.specs.Float.Ieee as Ieee;
ghost use Rattle.std.specs.Float.{binary64};
ghost use Rattle.numbers.specs.Sign.{abs_of, signum_of, copysign_of, refused};
ghost use Rattle.numbers.specs.Order.{max_of, min_of, clamp_of};
ghost use Rattle.sqrt.specs.Sqrt.{sqrt_of};
ghost use Rattle.vectors.specs.Weights.{invert_of, weights_outcome};
ghost use Rattle.probe.specs.Probe.{elco_or_nan, tesco_or_nan, cm1_or_nan, cm2_or_nan, sm1_or_nan};
ghost use Rattle.probe.specs.Leaves.{WorkLeft, vmnorm_or_nan, fnorm_or_nan, ewset_left, ewset_like_left, index_of};
ghost use Rattle.probe.specs.Leaves.{initial_step_or_nan, FactorsLeft, factor_left, solve_left};

pub mod steps;

#[unsafe(no_mangle)]
pub extern "C" fn probe_abs(x: f64) -> f64
    ensures { result ≡ abs_of x }
{
    probe::probe_abs(x)
}

#[unsafe(no_mangle)]
pub extern "C" fn probe_max(a: f64, b: f64) -> f64
    ensures { result ≡ max_of a b }
{
    probe::probe_max(a, b)
}

#[unsafe(no_mangle)]
pub extern "C" fn probe_min(a: f64, b: f64) -> f64
    ensures { result ≡ min_of a b }
{
    probe::probe_min(a, b)
}

#[unsafe(no_mangle)]
pub extern "C" fn probe_clamp(x: f64, low: f64, high: f64) -> f64
    ensures { result ≡ clamp_of x low high }
{
    probe::probe_clamp(x, low, high)
}

#[unsafe(no_mangle)]
pub extern "C" fn probe_signum(x: f64) -> f64
    ensures { result ≡ signum_of x }
{
    probe::probe_signum(x)
}

#[unsafe(no_mangle)]
pub extern "C" fn probe_copysign(x: f64, s: f64) -> f64
    ensures { result ≡ copysign_of x s }
{
    probe::probe_copysign(x, s)
}

#[unsafe(no_mangle)]
pub extern "C" fn probe_is_refused(h: f64, direction: f64) -> bool
    ensures { result ≡ refused h direction }
{
    probe::probe_is_refused(h, direction)
}

#[unsafe(no_mangle)]
pub extern "C" fn probe_to_bits(x: f64) -> u64
    ensures { result ≡ Ieee.to_bits binary64 x }
{
    probe::probe_to_bits(x)
}

#[unsafe(no_mangle)]
pub extern "C" fn probe_from_bits(b: u64) -> f64
    ensures { result ≡ Ieee.of_bits binary64 b }
{
    probe::probe_from_bits(b)
}

#[unsafe(no_mangle)]
pub extern "C" fn probe_sqrt(x: f64) -> f64
    ensures { result ≡ sqrt_of x }
{
    probe::probe_sqrt(x)
}

// Coefficient i of an order in a table: 0 none yet, 1 Adams, 2 BDF.
#[unsafe(no_mangle)]
pub extern "C" fn probe_elco(table: usize, order: usize, i: usize) -> f64
    ensures { result ≡ elco_or_nan table order i }
{
    probe::probe_elco(table, order, i)
}

// Error entry i of an order in a table.
#[unsafe(no_mangle)]
pub extern "C" fn probe_tesco(table: usize, order: usize, i: usize) -> f64
    ensures { result ≡ tesco_or_nan table order i }
{
    probe::probe_tesco(table, order, i)
}

#[unsafe(no_mangle)]
pub extern "C" fn probe_cm1(table: usize, order: usize) -> f64
    ensures { result ≡ cm1_or_nan table order }
{
    probe::probe_cm1(table, order)
}

#[unsafe(no_mangle)]
pub extern "C" fn probe_cm2(table: usize, order: usize) -> f64
    ensures { result ≡ cm2_or_nan table order }
{
    probe::probe_cm2(table, order)
}

#[unsafe(no_mangle)]
pub extern "C" fn probe_sm1(order: usize) -> f64
    ensures { result ≡ sm1_or_nan order }
{
    probe::probe_sm1(order)
}

#[unsafe(no_mangle)]
pub extern "C" fn probe_vmnorm(v: &[f64], w: &[f64]) -> f64
    ensures { result ≡ vmnorm_or_nan v.now w.now }
{
    probe::probe_vmnorm(v, w)
}

#[unsafe(no_mangle)]
pub extern "C" fn probe_fnorm_dense(n: usize, a: &[f64], w: &[f64]) -> f64
    ensures { result ≡ fnorm_or_nan n a.now w.now }
{
    probe::probe_fnorm_dense(n, a, w)
}

// The weights of the first n numbers of work, at `at`. 0 done, 2 not.
#[unsafe(no_mangle)]
pub extern "C" fn probe_ewset(
    rtol: &[f64],
    atol: &[f64],
    work: &mut [f64],
    n: usize,
    at: usize,
) -> usize
    ensures { ◌≡◌ {A = WorkLeft} (record { number = result; work = work.new })
        (ewset_left rtol.now atol.now n at work.old) }
{
    probe::probe_ewset(rtol, atol, work, n, at)
}

#[unsafe(no_mangle)]
pub extern "C" fn probe_ewset_scalar_like(work: &mut [f64], n: usize, at: usize) -> usize
    ensures { ◌≡◌ {A = WorkLeft} (record { number = result; work = work.new })
        (ewset_like_left n at work.old) }
{
    probe::probe_ewset_scalar_like(work, n, at)
}

// The index of the weight that is refused, or the number of weights where none is.
#[unsafe(no_mangle)]
pub extern "C" fn probe_invert_weights(ewt: &mut [f64]) -> usize
    ensures { (ewt.new ≡ (invert_of ewt.old).ewt)
        × (result ≡ index_of (length ewt.old) (weights_outcome (invert_of ewt.old))) }
{
    probe::probe_invert_weights(ewt)
}

#[unsafe(no_mangle)]
pub extern "C" fn probe_initial_step_size(
    t: f64,
    tout: f64,
    y: &[f64],
    f0: &[f64],
    w: &[f64],
    rtol: &[f64],
    atol: &[f64],
) -> f64
    ensures { result ≡ initial_step_or_nan t tout y.now f0.now w.now
        rtol.now atol.now }
{
    probe::probe_initial_step_size(t, tout, y, f0, w, rtol, atol)
}

// 0 done, 1 singular, 2 nothing done.
#[unsafe(no_mangle)]
pub extern "C" fn probe_dense_lu_factor(a: &mut [f64], n: usize, ipiv: &mut [usize]) -> usize
    ensures { ◌≡◌ {A = FactorsLeft} (record { number = result; a = a.new; ipiv = ipiv.new })
        (factor_left n a.old ipiv.old) }
{
    probe::probe_dense_lu_factor(a, n, ipiv)
}

// The right side is the n numbers of work at b, the matrix stands at a. 0 done, 1 singular, 2 nothing done.
#[unsafe(no_mangle)]
pub extern "C" fn probe_dense_lu_solve(
    work: &mut [f64],
    n: usize,
    a: usize,
    ipiv: &[usize],
    b: usize,
) -> usize
    ensures { ◌≡◌ {A = WorkLeft} (record { number = result; work = work.new })
        (solve_left n a ipiv.now b work.old) }
{
    probe::probe_dense_lu_solve(work, n, a, ipiv, b)
}
