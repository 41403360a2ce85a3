// The square root, correctly rounded, by integer digits.
#![tactic(auto)]

ghost use Rattle.std.specs.Prelude.{◌≡◌, ◌+◌, ◌*◌, ◌^◌, ◌≤◌, ◌<◌};
ghost use Rattle.sqrt.specs.Sqrt.{normal_of, even_of, digit_of, digits_of, sqrt_bits, sqrt_of};

// A number above 0 as digits · 2^(exponent - 1127), the leading one of its 53 digits in place 52.
#[derive(Clone, Copy)]
pub struct Normal {
    pub digits: u64,
    pub exponent: u64,
}

impl Normal {
    // The number of a pattern that is above 0 and finite. A subnormal's fraction is moved up by its leading zeros.
    #[tactic(auto, using(crate::proofs::Pattern::high_is, crate::proofs::Bounds::leading))]
    fn of_bits(bits: u64) -> Normal
        requires { (0 < bits) × (bits < 0x7ff0_0000_0000_0000) }
        ensures { result ≡ normal_of bits }
    {
        let field = bits / 0x10_0000_0000_0000;
        let fraction = bits % 0x10_0000_0000_0000;
        if field == 0 {
            let shift = fraction.leading_zeros() - 11;
            Normal {
                digits: fraction << shift,
                exponent: 53 - u64::from(shift),
            }
        } else {
            Normal {
                digits: fraction + 0x10_0000_0000_0000,
                exponent: field + 52,
            }
        }
    }

    // The same number with an odd exponent, so that exponent - 1127 can be halved: at most 54 digits.
    #[tactic(auto, unfolding(crate::specs::Sqrt::even_of))]
    fn even(self) -> Normal
        requires { (self.digits < 2 ^ 53) × (1 ≤ self.exponent) }
        ensures { result ≡ even_of self }
    {
        if self.exponent % 2 == 0 {
            Normal {
                digits: 2 * self.digits,
                exponent: self.exponent - 1,
            }
        } else {
            self
        }
    }
}

// What is left of the number's digits, the remainder so far and the root so far.
#[derive(Clone, Copy)]
pub struct Digits {
    pub rest: u64,
    pub remainder: u64,
    pub root: u64,
}

impl Digits {
    // One digit of the root: the next two digits of the number come down, and 1 is tried.
    #[tactic(auto, unfolding(crate::specs::Sqrt::digit_of))]
    fn next(self) -> Digits
        requires { (self.rest < 2 ^ 54) × (self.remainder < 2 ^ 56) × (self.root < 2 ^ 54) }
        ensures { result ≡ digit_of self }
    {
        let remainder = 4 * self.remainder + self.rest / 0x10_0000_0000_0000;
        let rest = 4 * (self.rest % 0x10_0000_0000_0000);
        let trial = 4 * self.root + 1;
        if trial <= remainder {
            Digits {
                rest,
                remainder: remainder - trial,
                root: 2 * self.root + 1,
            }
        } else {
            Digits {
                rest,
                remainder,
                root: 2 * self.root,
            }
        }
    }
}

// The 54 digits of the root of n · 2^54.
fn root_digits(n: u64) -> u64
    requires { n < 2 ^ 54 }
    ensures { result ≡ digits_of n }
{
    let mut s = Digits {
        rest: n,
        remainder: 0,
        root: 0,
    };
    for _ in 0..54usize {
        s = s.next();
    }
    s.root
}

// The pattern of the root of a pattern above 0 and finite: 53 digits, the 54th rounds.
#[tactic(auto, using(crate::proofs::Bounds::bounds))]
fn root_bits(bits: u64) -> u64
    requires { (0 < bits) × (bits < 0x7ff0_0000_0000_0000) }
    ensures { result ≡ sqrt_bits bits }
{
    let x = Normal::of_bits(bits).even();
    let q = root_digits(x.digits);
    let field = (x.exponent + 971) / 2;
    (field - 1) * 0x10_0000_0000_0000 + (q / 2 + q % 2)
}

// Both zeros and +infinity give themselves; a NaN and every number below 0 a NaN.
#[tactic(auto, using(crate::proofs::Cases::tests))]
pub fn sqrt(x: f64) -> f64
    ensures { result ≡ sqrt_of x }
{
    if x == 0.0 || x == f64::INFINITY {
        x
    } else if x > 0.0 {
        numbers::from_bits(root_bits(numbers::to_bits(x)))
    } else {
        f64::NAN
    }
}
