// A stored number: a case of five words, which are a kind, three arguments and the answer's pattern.
ghost use Rattle.std.specs.Prelude.{◌≡◌, ◌+◌, ◌*◌, ◌≤◌, length};
ghost use Rattle.replay.specs.Number.{case_number, is_stored, cases_differ};

// The kinds, as oracle/ numbers them in the stored table. Any other is SM1.
const ROOT: u64 = 0;

const SQUARE_ROOT: u64 = 1;

const ELCO: u64 = 2;

const TESCO: u64 = 3;

const CM1: u64 = 4;

const CM2: u64 = 5;

// What our function of that kind answers: the root of order b of the pattern a, its square root,
// elco and tesco of table a, order b and index c, cm1 and cm2 of table a and order b, SM1 of order b.
#[tactic(auto, unfolding(crate::specs::Number::case_number))]
fn number(kind: u64, a: u64, b: u64, c: u64) -> f64
    ensures { result ≡ case_number kind a b c }
{
    match kind {
        ROOT => root::root(numbers::from_bits(a), b as usize).value,
        SQUARE_ROOT => sqrt::sqrt(numbers::from_bits(a)),
        ELCO => probe::probe_elco(a as usize, b as usize, c as usize),
        TESCO => probe::probe_tesco(a as usize, b as usize, c as usize),
        CM1 => probe::probe_cm1(a as usize, b as usize),
        CM2 => probe::probe_cm2(a as usize, b as usize),
        _ => probe::probe_sm1(b as usize),
    }
}

// Whether our answer to case i has the stored pattern.
fn is_stored(cases: &[u64], i: usize) -> bool
    requires { 5 * i + 5 ≤ length cases.now }
    ensures { result ≡ is_stored cases.now i }
{
    let at = 5 * i;
    let ours = number(cases[at], cases[at + 1], cases[at + 2], cases[at + 3]);
    numbers::to_bits(ours) == cases[at + 4]
}

// How many of the cases our functions answer otherwise.
pub fn differ(cases: &[u64]) -> usize
    ensures { result ≡ cases_differ cases.now }
{
    (0..cases.len() / 5)
        .filter(|i| !is_stored(cases, *i))
        .count()
}
