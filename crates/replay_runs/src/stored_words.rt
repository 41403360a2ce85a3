// The stored words: counts, and floats by their patterns. Behind the end every word is 0.
ghost use Rattle.std.specs.Prelude.{◌+◌, ◌≤◌, ◌≡◌, leb, length};
ghost use Rattle.replay_runs.specs.Words.{word_of, limited_word, float_of, is_stored_count, is_stored_float};
ghost use Rattle.replay_runs.specs.Words.{are_stored_three, are_stored_floats, most_numbers};

// As many as a reply can have: those of a Jacobian.
const MOST_NUMBERS: usize = common::MAX_STATES * common::MAX_STATES;

// Where reading stands among the words. Each method reads so many words behind. It is the whole slice with a number,
// since the definitions count from the slice's beginning.
#[derive(Clone, Copy)]
pub struct Place<'a> {
    pub words: &'a [u64],
    pub at: usize,
}

impl<'a> Place<'a> {
    pub fn first(words: &'a [u64]) -> Place<'a>
        ensures { (result.words.now ≡ words.now) × (result.at ≡ 0) }
    {
        Place { words, at: 0 }
    }

    // So many words further. `moved` reaches beyond the end of any table here: `run` takes a million words.
    pub fn after(&self, k: usize) -> Place<'a>
        ensures words { result.words.now ≡ self.now.words.now }
        ensures moved { self.now.at + k ≤ 2000000 → result.at ≡ self.now.at + k }
    {
        Place {
            words: self.words,
            at: self.at.saturating_add(k),
        }
    }

    pub fn is_end(&self) -> bool
        ensures { result ≡ leb (length self.now.words.now) self.now.at }
    {
        self.at >= self.words.len()
    }

    pub fn word(&self, k: usize) -> u64
        ensures { result ≡ word_of self.now.words.now (self.now.at + k) }
    {
        self.words
            .get(self.at.saturating_add(k))
            .copied()
            .unwrap_or(0)
    }

    pub fn count(&self, k: usize) -> usize
        ensures { result ≡ word_of self.now.words.now (self.now.at + k) }
    {
        self.word(k) as usize
    }

    // A count that is at most so much.
    #[tactic(auto, unfolding(crate::specs::Words::limited_word))]
    pub fn limited(&self, k: usize, most: usize) -> usize
        ensures { (result ≡ limited_word self.now.words.now (self.now.at + k) most) × (result ≤ most) }
    {
        self.count(k).min(most)
    }

    pub fn float(&self, k: usize) -> f64
        ensures { result ≡ float_of self.now.words.now (self.now.at + k) }
    {
        numbers::from_bits(self.word(k))
    }

    // The floats from there on, as many as a reply can have.
    pub fn floats(&self, k: usize) -> [f64; MOST_NUMBERS]
        requires { k ≤ 1000 }
        ensures { length result ≡ most_numbers }
    {
        let mut out = [0.0; MOST_NUMBERS];
        for (i, x) in out.iter_mut().enumerate() {
            *x = self.float(k + i);
        }
        out
    }

    #[tactic(auto, unfolding(crate::specs::Words::is_stored_count))]
    pub fn is_count(&self, k: usize, n: usize) -> bool
        ensures { result ≡ is_stored_count self.now.words.now (self.now.at + k) n }
    {
        self.word(k) == n as u64
    }

    #[tactic(auto, unfolding(crate::specs::Words::is_stored_float))]
    pub fn is_float(&self, k: usize, x: f64) -> bool
        ensures { result ≡ is_stored_float self.now.words.now (self.now.at + k) x }
    {
        self.word(k) == numbers::to_bits(x)
    }

    // Three counts in a row.
    #[tactic(auto, unfolding(crate::specs::Words::are_stored_three))]
    pub fn are_three(&self, k: usize, a: usize, b: usize, c: usize) -> bool
        requires { k ≤ 1000 }
        ensures { result ≡ are_stored_three self.now.words.now (self.now.at + k) a b c }
    {
        self.is_count(k, a) && self.is_count(k + 1, b) && self.is_count(k + 2, c)
    }

    #[tactic(auto, unfolding(crate::specs::Words::are_stored_floats))]
    pub fn are_floats(&self, k: usize, list: &[f64]) -> bool
        requires { (k ≤ 1000) × (length list.now ≤ 5000) }
        ensures { result ≡ are_stored_floats self.now.words.now (self.now.at + k) list.now }
    {
        list.iter()
            .enumerate()
            .all(|(i, x)| self.is_float(k + i, *x))
    }
}
