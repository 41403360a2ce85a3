// The root of order k: bits 62 down to 0 of its pattern, each kept if the k-fold product is at most x.
// So it is the largest float whose product is at most x. Each of the 63 candidates costs k - 1 multiplications.
#![tactic(auto)]

ghost use Rattle.std.specs.Prelude.{◌≡◌, ◌+◌, ◌≤◌, T};
ghost use Rattle.std.specs.Float.Ieee.Positive.{positive};
ghost use Rattle.root.specs.Root.{power_of, keep_of, root_bits, root_of};

#[derive(Clone, Copy)]
pub struct Answer {
    pub value: f64,
}

// k factors y, multiplied from the left, each product rounded.
#[tactic(auto, using(loops::proofs::For::turns), unfolding(crate::specs::Root::power_of))]
fn power(y: f64, k: usize) -> f64
    ensures { result ≡ power_of k y }
{
    let mut p = y;
    for _ in 1..k {
        p *= y;
    }
    p
}

// The pattern with one bit more, if its product is still at most x. None is past infinity's, where the NaNs' lie.
#[tactic(auto, unfolding(crate::specs::Root::keep_of), using(std::proofs::lemmas::Float::not_nan_f64_bits))]
fn keep(x: f64, k: usize, bits: u64, bit: u64) -> u64
    requires { bits + bit ≤ 0x7ff0_0000_0000_0000 }
    ensures { result ≡ keep_of x k bits bit }
{
    let candidate = bits + bit;
    if power(f64::from_bits(candidate), k) <= x {
        candidate
    } else {
        bits
    }
}

// The bit is halved from turn to turn: `1 << place` over `(0..63).rev()` takes 5 percent more instructions a root.
fn root_bits(x: f64, k: usize) -> u64
    requires { T (positive x) }
    ensures { result ≡ root_bits x k }
{
    let mut bits = 0;
    let mut bit = 0x4000_0000_0000_0000;
    #[tactic(auto, using(loops::proofs::For::turns, crate::proofs::Room::next))]
    for _ in 0..63usize {
        #[tactic(auto, using(crate::proofs::Room::candidate))]
        bits = keep(x, k, bits, bit);
        bit /= 2;
    }
    bits
}

// Both zeros give +0, infinity itself, a NaN or a number below 0 a NaN.
// An order outside 2 to 13 gives a NaN whatever x is.
#[tactic(auto, using(crate::proofs::Monotone::tests))]
pub fn root(x: f64, k: usize) -> Answer
    ensures { result ≡ root_of x k }
{
    let value = if !(2..=13).contains(&k) {
        f64::NAN
    } else if x == 0.0 {
        0.0
    } else if x == f64::INFINITY {
        x
    } else if x > 0.0 {
        f64::from_bits(root_bits(x, k))
    } else {
        f64::NAN
    };
    Answer { value }
}
