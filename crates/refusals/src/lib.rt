// What a start is refused for, in one order, and the settings of an accepted one.
// The order and the numbers are those of the scope's table: 1 to 8, then 9 and 10 index by index, then 11.
#![tactic(auto)]

ghost use Rattle.std.specs.Prelude.{◌≡◌, Bool, ℕ, ◌≤◌, ◌<◌, length};
ghost use Rattle.common.specs.Limits.{max_states};
ghost use Rattle.refusals.specs.Start.{is_list, are_lent, size_refusal, limit_refusal};
ghost use Rattle.refusals.specs.Start.{is_negative, tolerance_refusal, step_refusal, start_refusal_of};
ghost use Rattle.refusals.specs.Start.{largest_of, smallest_of, inverse_of, inverse_largest_of, given_step_of};
ghost use Rattle.refusals.specs.Start.{accepted_settings, accepted_of};
ghost use Rattle.refusals.specs.Refusal.{entry_of};

use common::Settings;

// What the host chooses, beside the problem. The names are those of the Rust's `LSODA`.
// C lends it, so a choice that may be left out is a flag beside a number, and no `Option`.
#[repr(C)]
#[derive(Clone, Copy)]
pub struct Options {
    pub max_steps: usize, // largest number of accepted steps
    pub mxordn: usize, // largest Adams order; above 12 acts as 12
    pub mxords: usize, // largest BDF order; above 5 acts as 5
    pub maxcor: usize, // largest number of corrector iterations
    pub msbp: usize, // steps between Jacobian checks; 0 acts as 1
    pub mxncf: usize, // convergence failures in a step that end it; 0 acts as 1
    pub banded: usize, // 0: a full matrix; any other number: banded storage, which is refused
    pub supplied: usize, // 0: the Jacobian by differences; any other number: the host supplies it
    pub has_max_step: usize, // 0: no largest step; any other number: max_step
    pub has_min_step: usize, // 0: no smallest step; any other number: min_step
    pub has_first_step: usize, // 0: the first step is computed; any other number: first_step
    pub max_step: f64,
    pub min_step: f64,
    pub first_step: f64,
}

// The lengths of what a start is given: states, tolerance lists, lent slices.
#[derive(Clone, Copy)]
pub struct Lengths {
    pub n: usize,
    pub rtol: usize,
    pub atol: usize,
    pub work: usize,
    pub pivots: usize,
    pub session: usize,
    pub question: usize,
}

// A refusal: a row of the scope's table, its number beside it.
#[derive(Clone, Copy)]
pub enum Refusal {
    TooManyStates, // 1
    ToleranceLength, // 2
    LentLength, // 3
    LargeSetting, // 4
    NoSteps, // 5
    NoIterations, // 6
    NoOrder, // 7
    Banded, // 8
    RelativeTolerance(usize), // 9, the index
    AbsoluteTolerance(usize), // 10, the index
    FirstStep(f64), // 11, the first step
    Weight(usize), // 12, the index
    SessionRange, // 13
    Unasked, // 14
}

// What an accepted start begins with.
#[derive(Clone, Copy)]
pub struct Start {
    pub settings: Settings,
    pub x0: f64,
    pub h: f64, // the first step, 0 where none is given
    pub hmin: f64,
    pub hmxi: f64,
}

// ---- lengths

// 1 or n long.
pub fn is_list(len: usize, n: usize) -> bool
    ensures { result ≡ is_list len n }
{
    len == 1 || len == n
}

// Work, pivots and question have the lengths of n states.
pub fn are_lent(n: usize, work: usize, pivots: usize, question: usize) -> bool
    requires { n ≤ max_states }
    ensures { result ≡ are_lent n work pivots question }
{
    work == common::work_length(n) && pivots == n && question == common::question_length(n)
}

impl Lengths {
    // 1, 2, 3.
    #[tactic(auto, unfolding(crate::specs::Start::size_refusal, crate::specs::Refusal::also_of))]
    fn sizes(self) -> Result<(), Refusal>
        ensures { entry_of result ≡ size_refusal self }
    {
        if self.n > common::MAX_STATES {
            return Err(Refusal::TooManyStates);
        }
        if !is_list(self.rtol, self.n) || !is_list(self.atol, self.n) {
            return Err(Refusal::ToleranceLength);
        }
        if self.session != common::SESSION_LENGTH
            || !are_lent(self.n, self.work, self.pivots, self.question)
        {
            return Err(Refusal::LentLength);
        }
        Ok(())
    }
}

impl Options {
    // 4 to 8.
    #[tactic(auto, unfolding(crate::specs::Start::limit_refusal, crate::specs::Refusal::also_of))]
    fn limits(self) -> Result<(), Refusal>
        ensures { entry_of result ≡ limit_refusal self }
    {
        if self.max_steps > 1000000
            || self.mxordn > 1000000
            || self.mxords > 1000000
            || self.maxcor > 1000000
            || self.msbp > 1000000
            || self.mxncf > 1000000
        {
            return Err(Refusal::LargeSetting);
        }
        if self.max_steps == 0 {
            return Err(Refusal::NoSteps);
        }
        if self.maxcor == 0 {
            return Err(Refusal::NoIterations);
        }
        if self.mxordn == 0 || self.mxords == 0 {
            return Err(Refusal::NoOrder);
        }
        if self.banded != 0 {
            return Err(Refusal::Banded);
        }
        Ok(())
    }

    // 11: a first step that is given, and zero, a NaN or of another sign.
    #[tactic(auto, unfolding(crate::specs::Start::step_refusal))]
    fn step(self, x0: f64, xend: f64) -> Result<(), Refusal>
        ensures { entry_of result ≡ step_refusal x0 xend self }
    {
        if self.has_first_step != 0
            && numbers::is_refused(self.first_step, numbers::signum(xend - x0))
        {
            return Err(Refusal::FirstStep(self.first_step));
        }
        Ok(())
    }

    // The largest step, the interval where none is given.
    #[tactic(auto, unfolding(crate::specs::Start::largest_of))]
    fn largest(self, difference: f64) -> f64
        ensures { result ≡ largest_of self difference }
    {
        if self.has_max_step == 0 {
            numbers::abs(difference)
        } else {
            numbers::abs(self.max_step)
        }
    }

    // hmin: the smallest step, 0 where none is given.
    #[tactic(auto, unfolding(crate::specs::Start::smallest_of))]
    fn smallest(self) -> f64
        ensures { result ≡ smallest_of self }
    {
        if self.has_min_step == 0 {
            0.0
        } else {
            numbers::abs(self.min_step)
        }
    }

    // hmxi.
    #[tactic(auto, unfolding(crate::specs::Start::inverse_largest_of))]
    fn inverse_largest(self, x0: f64, xend: f64) -> f64
        ensures { result ≡ inverse_largest_of x0 xend self }
    {
        inverse(self.largest(xend - x0))
    }

    // The first step where it is given.
    #[tactic(auto, unfolding(crate::specs::Start::given_step_of))]
    fn given_step(self) -> f64
        ensures { result ≡ given_step_of self }
    {
        if self.has_first_step == 0 {
            0.0
        } else {
            self.first_step
        }
    }

    #[tactic(auto, unfolding(crate::specs::Start::accepted_settings))]
    fn settings(self, x0: f64, xend: f64, l: Lengths) -> Settings
        ensures { result ≡ accepted_settings x0 xend self l }
    {
        Settings {
            n: l.n,
            xend,
            direction: numbers::signum(xend - x0),
            maxsteps: self.max_steps,
            mxordn: self.mxordn,
            mxords: self.mxords,
            maxcor: self.maxcor,
            msbp: self.msbp,
            mxncf: self.mxncf,
            supplied: self.supplied != 0,
            given: self.has_first_step != 0,
            nrtol: l.rtol,
            natol: l.atol,
        }
    }
}

// 1 / the largest step, 0 where that is not above 0.
#[tactic(auto, unfolding(crate::specs::Start::inverse_of))]
fn inverse(hmax: f64) -> f64
    ensures { result ≡ inverse_of hmax }
{
    if hmax > 0.0 { 1.0 / hmax } else { 0.0 }
}

// ---- tolerances

// Entry i is below 0; a list that is shorter has none there.
pub fn is_negative(list: &[f64], i: usize) -> bool
    ensures { result ≡ is_negative list.now i }
{
    list.get(i).is_some_and(|x| *x < 0.0)
}

// 9 and 10: the first index at which a tolerance is below 0. By index: each list is 1 or n long.
#[tactic(auto, using(crate::proofs::Steps::tolerated), unfolding(crate::specs::Refusal::or_else))]
fn tolerances(n: usize, rtol: &[f64], atol: &[f64]) -> Result<(), Refusal>
    ensures { entry_of result ≡ tolerance_refusal n rtol.now atol.now }
{
    for i in 0..n {
        if is_negative(rtol, i) {
            return Err(Refusal::RelativeTolerance(i));
        }
        if is_negative(atol, i) {
            return Err(Refusal::AbsoluteTolerance(i));
        }
    }
    Ok(())
}

// ---- a start

// The first refusal that applies to a start, 1 to 11.
#[tactic(auto, unfolding(crate::specs::Start::start_refusal_of, crate::specs::Refusal::or_else))]
pub fn start_refusal(
    x0: f64,
    xend: f64,
    o: Options,
    l: Lengths,
    rtol: &[f64],
    atol: &[f64],
) -> Result<(), Refusal>
    ensures { entry_of result ≡ start_refusal_of x0 xend o l rtol.now atol.now }
{
    l.sizes()?;
    o.limits()?;
    tolerances(l.n, rtol, atol)?;
    o.step(x0, xend)
}

impl Start {
    // Of a start that is not refused.
    #[tactic(auto, unfolding(crate::specs::Start::accepted_of))]
    pub fn new(x0: f64, xend: f64, o: Options, l: Lengths) -> Start
        ensures { result ≡ accepted_of x0 xend o l }
    {
        Start {
            settings: o.settings(x0, xend, l),
            x0,
            h: o.given_step(),
            hmin: o.smallest(),
            hmxi: o.inverse_largest(x0, xend),
        }
    }
}
