// A stored call of a leaf, made again: one of the functions of probe on the lists a, b and m that are
// lent to it, and whether it answers and leaves what the reference did. A place stands beside the stored words: a
// part cut out for each list would be cut anew at each call, and a struct of both made anew for each of the six lists.
// a, b and m stay three: probe's functions read or write other ones of them each. The bounds on a call's
// place and on the lengths stay clauses: the definitions make a `Call` of any eleven numbers.
ghost use Rattle.std.specs.Prelude.{◌≡◌, ◌+◌, ◌*◌, ◌≤◌, length, get_or};
ghost use Rattle.replay.specs.Leaf.{LeafAfter, leaf_norms, leaf_first_step, leaf_lists, leaf_records, leaf_of};
ghost use Rattle.replay.specs.Leaf.{leaf_weights, leaf_snapshot, leaf_list, are_left};
ghost use Rattle.replay.specs.Leaf.{called_of, is_left, is_again, call_of, length_of, is_same, calls_differ};
ghost use Rattle.probe.specs.Leaves.{WorkLeft};
ghost use Rattle.probe.specs.Left.{Columns};

use words::Word;

// The kinds, as oracle/ numbers them in the stored table: up to 2 on lists that are read, up to 9 on one that is
// written, and the others on a record. Any other below 3 is initial_step_size, below 10 retract_columns, and from there
// on interpolate.
const VMNORM: u64 = 0;

const FNORM_DENSE: u64 = 1;

const EWSET: u64 = 3;

const EWSET_SCALAR_LIKE: u64 = 4;

const INVERT_WEIGHTS: u64 = 5;

const DENSE_LU_FACTOR: u64 = 6;

const DENSE_LU_SOLVE: u64 = 7;

const PREDICT_COLUMNS: u64 = 8;

const CORRECT_COLUMNS: u64 = 10;

const STODA_ADJUST_STEP_SIZE: u64 = 11;

const STODA_GET_PREDICTED_VALUES: u64 = 12;

const STODA_FIRST_CALL_INIT: u64 = 13;

const STODA_RESET: u64 = 14;

const SNAPSHOT_STEP: u64 = 15;

// first_step, weights and snapshot answer 2 where a list is too short: the stored table's number, so no Result.

// The lists behind the first stand one behind the other in b: f0, the weights, rtol and atol.
#[tactic(auto, unfolding(crate::specs::Leaf::leaf_first_step))]
fn first_step(t: f64, tout: f64, y: &[f64], b: &[f64], n: usize, nrtol: usize) -> u64
    ensures { result ≡ leaf_first_step t tout y.now b.now n nrtol }
{
    if n > common::MAX_STATES || nrtol > common::MAX_STATES {
        return 2;
    }
    let rtol = 2 * n;
    let atol = rtol + nrtol;
    if b.len() < atol {
        return 2;
    }
    numbers::to_bits(probe::probe_initial_step_size(
        t,
        tout,
        y,
        &b[0..n],
        &b[n..rtol],
        &b[rtol..atol],
        &b[atol..],
    ))
}

// rtol and atol stand one behind the other in b.
#[tactic(auto, unfolding(crate::specs::Leaf::leaf_weights))]
fn weights(b: &[f64], nrtol: usize, a: &mut [f64], n: usize, at: usize) -> usize
    ensures { ◌≡◌ {A = WorkLeft} (record { number = result; work = a.new })
        (leaf_weights b.now nrtol n at a.old) }
{
    if b.len() < nrtol {
        return 2;
    }
    probe::probe_ewset(&b[0..nrtol], &b[nrtol..], a, n, at)
}

// The record's floats and the work stand one behind the other in b.
#[tactic(auto, unfolding(crate::specs::Leaf::leaf_snapshot))]
fn snapshot(b: &[f64], m: &[usize], a: &mut [f64]) -> usize
    ensures { ◌≡◌ {A = Columns} (record { number = result; yh = a.new })
        (leaf_snapshot b.now m.now a.old) }
{
    if b.len() < 11 {
        return 2;
    }
    probe::steps::probe_snapshot_step(&b[0..11], m, &b[11..], a)
}

#[tactic(auto, unfolding(crate::specs::Leaf::leaf_norms))]
fn of_norms(kind: u64, p: usize, q: usize, x: f64, y: f64, a: &[f64], b: &[f64]) -> u64
    ensures { result ≡ leaf_norms kind p q x y a.now b.now }
{
    match kind {
        VMNORM => numbers::to_bits(probe::probe_vmnorm(a, b)),
        FNORM_DENSE => numbers::to_bits(probe::probe_fnorm_dense(p, a, b)),
        _ => first_step(x, y, a, b, p, q),
    }
}

#[tactic(auto, unfolding(crate::specs::Leaf::leaf_lists))]
fn of_lists(
    kind: u64,
    p: usize,
    q: usize,
    r: usize,
    a: &mut [f64],
    b: &[f64],
    m: &mut [usize],
) -> usize
    ensures { ◌≡◌ {A = LeafAfter}
        (record { number = result; a = a.new; b = b.now; m = m.new })
        (leaf_lists kind p q r a.old b.now m.old) }
{
    match kind {
        EWSET => weights(b, r, a, p, q),
        EWSET_SCALAR_LIKE => probe::probe_ewset_scalar_like(a, p, q),
        INVERT_WEIGHTS => probe::probe_invert_weights(a),
        DENSE_LU_FACTOR => probe::probe_dense_lu_factor(a, p, m),
        DENSE_LU_SOLVE => probe::probe_dense_lu_solve(a, p, q, m, r),
        PREDICT_COLUMNS => probe::steps::probe_predict_columns(a, p, q, r),
        _ => probe::steps::probe_retract_columns(a, p, q, r),
    }
}

#[tactic(auto, unfolding(crate::specs::Leaf::leaf_records))]
fn of_records(kind: u64, x: f64, a: &mut [f64], b: &mut [f64], m: &mut [usize]) -> usize
    ensures { ◌≡◌ {A = LeafAfter}
        (record { number = result; a = a.new; b = b.new; m = m.new })
        (leaf_records kind x a.old b.old m.old) }
{
    match kind {
        CORRECT_COLUMNS => probe::steps::probe_correct_columns(b, m, a),
        STODA_ADJUST_STEP_SIZE => probe::steps::probe_stoda_adjust_step_size(b, m, x, a),
        STODA_GET_PREDICTED_VALUES => probe::steps::probe_stoda_get_predicted_values(b, m, a),
        STODA_FIRST_CALL_INIT => probe::steps::probe_stoda_first_call_init(b, m),
        STODA_RESET => probe::steps::probe_stoda_reset(b, m),
        SNAPSHOT_STEP => snapshot(b, m, a),
        _ => probe::steps::probe_interpolate(x, a, b),
    }
}

// What the function of that kind answers; a float's pattern where it answers a float.
#[tactic(auto, unfolding(crate::specs::Leaf::leaf_of))]
fn leaf(h: Call, a: &mut [f64], b: &mut [f64], m: &mut [usize]) -> u64
    ensures { ◌≡◌ {A = LeafAfter}
        (record { number = result; a = a.new; b = b.new; m = m.new })
        (leaf_of h a.old b.old m.old) }
{
    if h.kind < EWSET {
        of_norms(h.kind, h.p, h.q, h.x, h.y, a, b)
    } else if h.kind < CORRECT_COLUMNS {
        of_lists(h.kind, h.p, h.q, h.r, a, b, m) as u64
    } else {
        of_records(h.kind, h.x, a, b, m) as u64
    }
}

// Number i, and 0 behind the list's end. replay_runs has its own, and its own limited counts and floats: a library of
// functions of one line each would be no plainer.
fn word(list: &[u64], i: usize) -> u64
    ensures { result ≡ get_or list.now i 0 }
{
    list.get(i).copied().unwrap_or(0)
}

#[derive(Clone, Copy)]
struct Call {
    kind: u64,
    p: usize,
    q: usize,
    r: usize,
    x: f64,
    y: f64,
    at: usize,
    number: u64,
}

// A head is 11 numbers: the kind, p, q, r, the patterns of x and y, where the call's numbers begin, the answer, and the
// lengths of a, b and m.
#[tactic(auto, unfolding(crate::specs::Leaf::call_of))]
fn head(heads: &[u64], i: usize) -> Call
    requires { i ≤ 1000000 }
    ensures { result ≡ call_of heads.now i }
{
    let at = 11 * i;
    Call {
        kind: word(heads, at),
        p: word(heads, at + 1) as usize,
        q: word(heads, at + 2) as usize,
        r: word(heads, at + 3) as usize,
        x: numbers::from_bits(word(heads, at + 4)),
        y: numbers::from_bits(word(heads, at + 5)),
        at: word(heads, at + 6) as usize,
        number: word(heads, at + 7),
    }
}

// A length of head i, at most the limit.
#[tactic(auto, unfolding(crate::specs::Leaf::length_of))]
fn length_of(heads: &[u64], k: usize, limit: usize) -> usize
    ensures { (result ≡ length_of heads.now k limit) × (result ≤ limit) }
{
    (word(heads, k) as usize).min(limit)
}

// The list becomes what is stored from `at` on.
#[tactic(auto, using(loops::proofs::For::turns), unfolding(crate::specs::Leaf::leaf_list))]
fn get<T: Word>(stored: &[u64], at: usize, list: &mut [T])
    requires { at + length list.old ≤ 1000000 }
    ensures { list.new ≡ leaf_list T.read stored.now at list.old }
{
    for (i, x) in list.iter_mut().enumerate() {
        *x = T::from_word(word(stored, at + i));
    }
}

// Whether the list is what is stored from `at` on; floats by their patterns.
#[tactic(auto, unfolding(crate::specs::Leaf::are_left))]
fn are_left<T: Word>(list: &[T], stored: &[u64], at: usize) -> bool
    requires { at + length list.now ≤ 1000000 }
    ensures { result ≡ are_left T.written list.now stored.now at }
{
    list.iter()
        .enumerate()
        .all(|(i, x)| x.to_word() == word(stored, at + i))
}

// The call's lists, taken from the numbers stored from `at` on, and the answer.
#[tactic(auto, unfolding(crate::specs::Leaf::called_of))]
fn called(h: Call, stored: &[u64], a: &mut [f64], b: &mut [f64], m: &mut [usize]) -> u64
    requires { (h.at ≤ 900000) × (length a.old ≤ 64) × (length b.old ≤ 80) × (length m.old ≤ 16) }
    ensures { ◌≡◌ {A = LeafAfter}
        (record { number = result; a = a.new; b = b.new; m = m.new })
        (called_of h stored.now a.old b.old m.old) }
{
    let at_b = h.at + a.len();
    let at_m = at_b + b.len();
    get(stored, h.at, a);
    get(stored, at_b, b);
    get(stored, at_m, m);
    leaf(h, a, b, m)
}

// Whether the lists are as the reference left them: stored behind the call's own.
#[tactic(auto, unfolding(crate::specs::Leaf::is_left))]
fn is_left(h: Call, stored: &[u64], a: &[f64], b: &[f64], m: &[usize]) -> bool
    requires { (h.at ≤ 900000) × (length a.now ≤ 64) × (length b.now ≤ 80) × (length m.now ≤ 16) }
    ensures { result ≡ is_left h stored.now a.now b.now m.now }
{
    let at_a = h.at + a.len() + b.len() + m.len();
    let at_b = at_a + a.len();
    let at_m = at_b + b.len();
    are_left(a, stored, at_a) && are_left(b, stored, at_b) && are_left(m, stored, at_m)
}

// Whether the call answers and leaves what is stored, in lists of its lengths.
#[tactic(auto, unfolding(crate::specs::Leaf::is_again))]
fn is_again(h: Call, stored: &[u64], a: &mut [f64], b: &mut [f64], m: &mut [usize]) -> bool
    requires { (h.at ≤ 900000) × (length a.old ≤ 64) × (length b.old ≤ 80) × (length m.old ≤ 16) }
    ensures { result ≡ is_again h stored.now a.old b.old m.old }
{
    called(h, stored, a, b, m) == h.number && is_left(h, stored, a, b, m)
}

// The same for call i.
#[tactic(auto, unfolding(crate::specs::Leaf::is_same))]
fn is_same(heads: &[u64], i: usize, stored: &[u64]) -> bool
    requires { i ≤ 1000000 }
    ensures { result ≡ is_same heads.now stored.now i }
{
    let h = head(heads, i);
    if h.at > 900000 {
        return false;
    }
    let la = length_of(heads, 11 * i + 8, 64);
    let lb = length_of(heads, 11 * i + 9, 80);
    let lm = length_of(heads, 11 * i + 10, 16);
    let mut a = [0.0; 64];
    let mut b = [0.0; 80];
    let mut m = [0usize; 16];
    is_again(h, stored, &mut a[0..la], &mut b[0..lb], &mut m[0..lm])
}

// How many of the calls are not the same.
pub fn differ(heads: &[u64], stored: &[u64]) -> usize
    requires { length heads.now ≤ 1000000 }
    ensures { result ≡ calls_differ heads.now stored.now }
{
    (0..heads.len() / 11)
        .filter(|i| !is_same(heads, *i, stored))
        .count()
}
