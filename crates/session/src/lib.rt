// A session's bytes: its record and its tolerances written and read, and the ranges of 13. docs/SESSION.md has the
// layout; fields.rt, which names every field, is made by tools/record.py.
// What a reply needs of a stored session stands here in the order in which it is tested.
// The bytes stay a slice with a clause on its length: an array, or a struct of it, would ask more of callers. The
// counts, the record and the bytes of one session are three parameters: each is read once and used by itself.
#![tactic(auto)]

ghost use Rattle.std.specs.Prelude.{◌≡◌, Bool, ◌≤◌, length};
ghost use Rattle.common.specs.Limits.{max_states};
ghost use Rattle.common.specs.SessionWords.{session_length};
ghost use Rattle.session.specs.Session.{encode_counts_of, encode_floats_of};
ghost use Rattle.session.specs.Session.{stored_counts, decode_of, put_tolerances_of};
ghost use Rattle.session.specs.Session.{rtol_first, atol_first, stored_n, finished_in, in_range_of};

mod fields;
mod ranges;
mod states;

use questions::{Phase, Session};

// The record's counts, flags and states among them, written to the first words.
pub fn encode_counts(x: Session, bytes: &mut [u8])
    requires { session_length ≤ length bytes.old }
    ensures { bytes.new ≡ encode_counts_of x bytes.old }
{
    let u = crate::fields::counts(x);
    words::put_row(bytes, 0, common::COUNT_WORDS, &u);
}

// Its floats, written behind them. Both stand apart because each is short enough to be compiled in place.
pub fn encode_floats(x: Session, bytes: &mut [u8])
    requires { session_length ≤ length bytes.old }
    ensures { bytes.new ≡ encode_floats_of x bytes.old }
{
    let f = crate::fields::floats(x);
    words::put_row(bytes, common::COUNT_WORDS, common::FLOAT_WORDS, &f);
}

// The counts, read once for the record and for the ranges.
#[tactic(auto, unfolding(words::specs::Words::counts_over))]
pub fn counts(bytes: &[u8]) -> [usize; common::COUNT_WORDS]
    requires { session_length ≤ length bytes.now }
    ensures { result ≡ stored_counts bytes.now }
{
    let mut u = [0usize; common::COUNT_WORDS];
    words::get_row(bytes, 0, &mut u);
    u
}

// The record of the bytes, u being their counts.
#[tactic(auto, unfolding(crate::specs::Session::decode_of, words::specs::Words::floats_over))]
pub fn decode(u: &[usize; common::COUNT_WORDS], bytes: &[u8]) -> Session
    requires { (session_length ≤ length bytes.now) × (u.now ≡ stored_counts bytes.now) }
    ensures { result ≡ decode_of bytes.now }
{
    let mut f = [0.0; common::FLOAT_WORDS];
    words::get_row(bytes, common::COUNT_WORDS, &mut f);
    crate::fields::session(u, &f)
}

// The tolerance lists, written to their slots; slots beyond a list's end become 0.
#[tactic(auto, using(crate::proofs::Steps::floats_row), unfolding(crate::specs::Session::put_tolerances_of))]
pub fn put_tolerances(rtol: &[f64], atol: &[f64], bytes: &mut [u8])
    requires { session_length ≤ length bytes.old }
    ensures { bytes.new
        ≡ put_tolerances_of rtol.now atol.now bytes.old }
{
    words::put_row(bytes, common::RTOL_AT, common::MAX_STATES, rtol);
    words::put_row(bytes, common::ATOL_AT, common::MAX_STATES, atol);
}

// As many relative tolerances as the list is long. This and the next call one function at two places, which callers
// need not know.
#[tactic(auto, unfolding(words::specs::Words::floats_over))]
pub fn rtol(bytes: &[u8], list: &mut [f64])
    requires { (session_length ≤ length bytes.now) × (length list.old ≤ max_states) }
    ensures { list.new ≡ rtol_first bytes.now (length list.old) list.old }
{
    words::get_row(bytes, common::RTOL_AT, list);
}

// The absolute tolerances.
#[tactic(auto, unfolding(words::specs::Words::floats_over))]
pub fn atol(bytes: &[u8], list: &mut [f64])
    requires { (session_length ≤ length bytes.now) × (length list.old ≤ max_states) }
    ensures { list.new ≡ atol_first bytes.now (length list.old) list.old }
{
    words::get_row(bytes, common::ATOL_AT, list);
}

// The stored n, whatever it is.
pub fn stored_n(bytes: &[u8]) -> usize
    requires { session_length ≤ length bytes.now }
    ensures { result ≡ stored_n bytes.now }
{
    words::number(bytes, 1)
}

// Whether the phase is Finished: then the other values are not looked at.
pub fn is_finished(bytes: &[u8]) -> bool
    requires { session_length ≤ length bytes.now }
    ensures { result ≡ finished_in bytes.now }
{
    words::number::<usize>(bytes, 0) == Phase::Finished as usize
}

// Whether every value of a session that is not finished is in its range, and every lent pivot below n; u and x as they
// were read from the bytes.
pub fn in_range(u: &[usize; common::COUNT_WORDS], x: Session, bytes: &[u8], ipiv: &[usize]) -> bool
    requires session_length_in_bounds { session_length ≤ length bytes.now }
    requires u_value { (u.now ≡ stored_counts bytes.now) × (x ≡ decode_of bytes.now) }
    ensures { result ≡ in_range_of bytes.now ipiv.now }
{
    let s = x.settings;
    ranges::fields(u, s, x.common)
        && ranges::tolerances(bytes, s)
        && ranges::pivots_below(ipiv, s.n)
}
