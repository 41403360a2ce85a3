// Words of eight bytes, little-endian, in a slice of bytes: one by one at any byte, and rows of counts and of floats.
// Word k of a slice stands at byte 8·k; a row elsewhere is a row of a part of the slice. A place stands beside the
// bytes, since a part cut out for each word would be cut anew at each call.
#![tactic(auto)]

ghost use Rattle.std.specs.Prelude.{◌≡◌, ℕ, ◌+◌, ◌*◌, ◌≤◌, length, map};
ghost use Rattle.std.specs.Float.{binary64};
ghost use Rattle.std.specs.Float.Ieee.{to_bits, of_bits};
ghost use Rattle.words.specs.Words.{word_at, put_word, word, row_over, put_row_of};

// A number that is kept as a word.
pub trait Word: Copy {
    ghost read: { ℕ → Self };

    ghost written: { Self → ℕ };

    fn from_word(w: u64) -> Self
        ensures { result ≡ read w };

    fn to_word(self) -> u64
        ensures { result ≡ written self };
}

impl Word for usize {
    ghost read = { λ w. w };

    ghost written = { λ n. n };

    fn from_word(w: u64) -> usize {
        w as usize
    }

    fn to_word(self) -> u64 {
        self as u64
    }
}

impl Word for f64 {
    ghost read = { of_bits binary64 };

    ghost written = { to_bits binary64 };

    fn from_word(w: u64) -> f64 {
        numbers::from_bits(w)
    }

    fn to_word(self) -> u64 {
        numbers::to_bits(self)
    }
}

// The word at byte `at`. Its bytes stand one by one: an array that is filled by `copy_from_slice` is tested for overlap
// at each word, and to read and test a session then takes 1100 instructions, not 448.
#[tactic(auto, unfolding(crate::specs::Words::word_at))]
pub fn get(bytes: &[u8], at: usize) -> u64
    requires { at + 8 ≤ length bytes.now }
    ensures { result ≡ word_at bytes.now at }
{
    u64::from_le_bytes([
        bytes[at],
        bytes[at + 1],
        bytes[at + 2],
        bytes[at + 3],
        bytes[at + 4],
        bytes[at + 5],
        bytes[at + 6],
        bytes[at + 7],
    ])
}

// Puts it there.
#[tactic(auto, using(crate::proofs::Eight::eight_put))]
pub fn put(bytes: &mut [u8], at: usize, w: u64)
    requires { at + 8 ≤ length bytes.old }
    ensures { bytes.new ≡ put_word bytes.old at w }
{
    bytes[at..at + 8].copy_from_slice(&w.to_le_bytes());
}

// Word k as a number.
pub fn number<T: Word>(bytes: &[u8], k: usize) -> T
    requires { 8 * k + 8 ≤ length bytes.now }
    ensures { result ≡ T.read (word bytes.now k) }
{
    T::from_word(get(bytes, 8 * k))
}

// The words from word `at` on, one for each entry of the list.
#[tactic(auto, using(loops::proofs::For::turns))]
pub fn get_row<T: Word>(bytes: &[u8], at: usize, list: &mut [T])
    requires { 8 * (at + length list.old) ≤ length bytes.now }
    ensures { list.new ≡ row_over T.read bytes.now at (length list.old) list.old }
{
    for (i, x) in list.iter_mut().enumerate() {
        *x = number(bytes, at + i);
    }
}

// k words from word `at` on: the list, then 0. Each word is put at its place: of slices that chunks_exact_mut lends
// nothing says what the bytes end as.
#[tactic(auto, using(loops::proofs::For::turns))]
pub fn put_row<T: Word>(bytes: &mut [u8], at: usize, k: usize, list: &[T])
    requires { 8 * (at + k) ≤ length bytes.old }
    ensures { bytes.new ≡ put_row_of at k (map T.written list.now) bytes.old }
{
    let m = list.len().min(k);
    for (i, x) in list[..m].iter().enumerate() {
        put(bytes, 8 * (at + i), x.to_word());
    }
    bytes[8 * (at + m)..8 * (at + k)].fill(0);
}
