// The ranges of 13: each word by itself, fields against each other, tolerances, pivots.
ghost use Rattle.std.specs.Prelude.{◌≡◌, Bool, true, ◌+◌, ◌*◌, ◌≤◌, ◌<◌, [], length, map};
ghost use Rattle.loops.specs.For.{for};
ghost use Rattle.common.specs.Limits.{max_states};
ghost use Rattle.common.specs.SessionWords.{count_words, session_length};
ghost use Rattle.session.specs.Fields.{lowest, highest, settings_of, common_of};
ghost use Rattle.session.specs.Session.{every, and_at, word_in_range, lists_in_range, orders_in_range};
ghost use Rattle.session.specs.Session.{counters_in_range, fields_in_range};
ghost use Rattle.session.specs.Session.{not_negative, tolerances_in_range, pivot_below, pivots_below};

use crate::fields::Range;
use common::{Common, Settings};

const HALF: usize = common::COUNT_WORDS / 2;

// Whether each count from a to e is between its least and its greatest value.
fn run(
    u: &[usize; common::COUNT_WORDS],
    r: &[Range; common::COUNT_WORDS],
    a: usize,
    e: usize,
) -> bool
    requires { (map (λ x. x.low) r.now ≡ lowest) × (map (λ x. x.high) r.now ≡ highest)
        × (a ≤ e) × (e ≤ count_words) }
    ensures { result ≡ for a e (and_at (word_in_range u.now)) true }
{
    (a..e).all(|i| r[i].low <= u[i] && u[i] <= r[i].high)
}

// Whether each of all counts is. Two runs, each short enough to be unrolled, so that the tables become constants.
#[tactic(auto, using(crate::proofs::Steps::words_halves))]
fn words(u: &[usize; common::COUNT_WORDS]) -> bool
    ensures { result ≡ every (word_in_range u.now) count_words }
{
    let r = crate::fields::ranges();
    run(u, &r, 0, HALF) && run(u, &r, HALF, common::COUNT_WORDS)
}

// The lengths of the tolerance lists.
#[tactic(auto, using(crate::proofs::Steps::tests), unfolding(crate::specs::Session::lists_in_range))]
fn lists(s: Settings) -> bool
    ensures { result ≡ lists_in_range s }
{
    refusals::is_list(s.nrtol, s.n) && refusals::is_list(s.natol, s.n)
}

// The order against the columns in use and against the order at the last reset.
#[tactic(auto, using(crate::proofs::Steps::tests), unfolding(crate::specs::Session::orders_in_range))]
fn orders(s: Settings, c: Common) -> bool
    requires { (1 ≤ s.n) × (s.n ≤ max_states) × (c.nq ≤ 12) }
    ensures { result ≡ orders_in_range s c }
{
    c.nq < c.lmax && c.nqnyh % s.n == 0 && c.nq * s.n <= c.nqnyh && c.nqnyh <= 12 * s.n
}

// The counters of a step and of a pass against their limits.
#[tactic(auto, using(crate::proofs::Steps::tests), unfolding(crate::specs::Session::counters_in_range))]
fn counters(s: Settings, c: Common) -> bool
    ensures { result ≡ counters_in_range s c }
{
    c.ncf < s.mxncf() && c.m < s.maxcor && c.column < s.n
}

// All fields but the floats, of a record whose n and nq are those of the counts u: first word by word, so that n is not
// 0 where it divides.
#[tactic(auto, using(crate::proofs::Steps::tests), unfolding(crate::specs::Session::fields_in_range))]
pub fn fields(u: &[usize; common::COUNT_WORDS], s: Settings, c: Common) -> bool
    requires { (s.n ≡ (settings_of u.now []).n) × (c.nq ≡ (common_of u.now []).nq) }
    ensures { result ≡ fields_in_range u.now s c }
{
    words(u) && lists(s) && orders(s, c) && counters(s, c)
}

// Whether none of the k tolerances from word `at` on is below 0; a NaN passes. They are words of a stored session, and
// no list of floats until they are read: so a place and a count.
fn not_negative(bytes: &[u8], at: usize, k: usize) -> bool
    requires { 8 * (at + k) ≤ length bytes.now }
    ensures { result ≡ not_negative bytes.now at k }
{
    (0..k).all(|i| !(words::number::<f64>(bytes, at + i) < 0.0))
}

// Whether no entry of the two tolerance lists is below 0.
#[tactic(auto, using(crate::proofs::Steps::tests), unfolding(crate::specs::Session::tolerances_in_range))]
pub fn tolerances(bytes: &[u8], s: Settings) -> bool
    requires { (session_length ≤ length bytes.now) × (s.nrtol ≤ max_states) × (s.natol ≤ max_states) }
    ensures { result ≡ tolerances_in_range bytes.now s }
{
    not_negative(bytes, common::RTOL_AT, s.nrtol) && not_negative(bytes, common::ATOL_AT, s.natol)
}

// Whether the four pivots from index i on are below n. One by one is slower, by 15 percent of a run (docs/SPEED.md).
#[tactic(auto, using(crate::proofs::Steps::four_tests))]
fn four_below(ipiv: &[usize], i: usize, n: usize) -> bool
    requires { i + 4 ≤ length ipiv.now }
    ensures { result ≡ for i (i + 4) (and_at (pivot_below ipiv.now n)) true }
{
    ipiv[i] < n && ipiv[i + 1] < n && ipiv[i + 2] < n && ipiv[i + 3] < n
}

// Whether each pivot is below n, a bound here and no length: four at a time, then those that are left.
pub fn pivots_below(ipiv: &[usize], n: usize) -> bool
    ensures { result ≡ pivots_below ipiv.now n }
{
    let len = ipiv.len();
    (0..len / 4).all(|k| four_below(ipiv, 4 * k, n)) && (len / 4 * 4..len).all(|i| ipiv[i] < n)
}
