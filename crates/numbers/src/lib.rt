// Sign, order and bit pattern of a 64-bit float, each for every float: NaN, infinities and both zeros included.
// Names and behaviour are those of Rust's f64 methods.
#![tactic(auto)]

ghost use Rattle.std.specs.Prelude.{◌≡◌, Bool};
ghost use Rattle.std.specs.Float.Ieee as Ieee;
ghost use Rattle.std.specs.Float.{nan, binary64};
ghost use Rattle.numbers.specs.Sign.{abs_of, negative, signum_of, copysign_of, refused};
ghost use Rattle.numbers.specs.Order.{max_of, min_of, clamp_of};

use std::num::{f64_from_bits_with_nan, f64_to_bits_with_nan};

// x with its sign cleared: -0.0 gives +0.0, and a NaN stays a NaN. std's has two tests: the norms took 6 to 10 percent
// more instructions with it.
#[tactic(auto, using(crate::proofs::Sign::abs_positive, crate::proofs::Sign::abs_other))]
pub fn abs(x: f64) -> f64
    ensures { result ≡ abs_of x }
{
    if x > 0.0 { x } else { 0.0 - x }
}

// The larger of the two; a NaN is ignored. Of +0 and -0 the first is taken, here and in `min`: std's leave that open.
// The two stay two: one with the comparison as its parameter is no plainer.
#[tactic(auto, unfolding(crate::specs::Order::max_of), using(crate::proofs::Bits::nan_test))]
pub fn max(a: f64, b: f64) -> f64
    ensures { result ≡ max_of a b }
{
    if a < b || a.is_nan() { b } else { a }
}

// The smaller of the two; a NaN is ignored.
#[tactic(auto, unfolding(crate::specs::Order::min_of), using(crate::proofs::Bits::nan_test))]
pub fn min(a: f64, b: f64) -> f64
    ensures { result ≡ min_of a b }
{
    if b < a || a.is_nan() { b } else { a }
}

// x moved into low to high; a NaN stays a NaN. std's asks that low is at most high; here high counts where it is not.
#[tactic(auto, unfolding(crate::specs::Order::clamp_of))]
pub fn clamp(x: f64, low: f64, high: f64) -> f64
    ensures { result ≡ clamp_of x low high }
{
    if x < low {
        if high < low { high } else { low }
    } else if high < x {
        high
    } else {
        x
    }
}

#[tactic(auto, using(crate::proofs::Bits::nan_literal))]
pub fn not_a_number() -> f64
    ensures { result ≡ nan }
{
    f64::NAN
}

// The pattern of any float; every NaN has the same one.
pub fn to_bits(x: f64) -> u64
    ensures { result ≡ Ieee.to_bits binary64 x }
{
    f64_to_bits_with_nan(x)
}

// The float of any pattern; every pattern of a NaN gives a NaN.
pub fn from_bits(b: u64) -> f64
    ensures { result ≡ Ieee.of_bits binary64 b }
{
    f64_from_bits_with_nan(b)
}

// Whether the sign is set: of -0.0 too, and of no NaN.
#[tactic(auto, using(crate::proofs::Sign::negative_is, crate::proofs::Sign::nan_positive))]
pub fn is_sign_negative(x: f64) -> bool
    ensures { result ≡ negative x }
{
    !x.is_nan() && x.is_sign_negative()
}

// 1.0 with the sign of x, zeros included, or a NaN. By tests: std's goes by `copysign`, which takes twice as many
// instructions.
#[tactic(auto, using(crate::proofs::Sign::signums))]
pub fn signum(x: f64) -> f64
    ensures { result ≡ signum_of x }
{
    if x.is_nan() {
        x
    } else if is_sign_negative(x) {
        -1.0
    } else {
        1.0
    }
}

// x with the sign of s, where a NaN counts as positive: std's asks that s is none. An x that is a NaN stays one.
#[tactic(auto, using(crate::proofs::Sign::copysign_negative, crate::proofs::Sign::copysign_positive))]
pub fn copysign(x: f64, s: f64) -> f64
    ensures { result ≡ copysign_of x s }
{
    if is_sign_negative(s) { -abs(x) } else { abs(x) }
}

// Condition 11: a step size that is zero, a NaN, or of another sign than the direction, which may be a NaN.
#[tactic(auto, unfolding(crate::specs::Sign::refused))]
pub fn is_refused(h: f64, direction: f64) -> bool
    ensures { result ≡ refused h direction }
{
    h == 0.0 || signum(h) != direction
}
