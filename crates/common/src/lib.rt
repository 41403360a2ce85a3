// The record of a run: what a start fixes (Settings), and what the steps go by and change (Common: hmin and hmxi are
// the start's, no step changes them), both passed by value, with the rules that touch the record alone: the limits in
// force, first-call setup, reset. What names every field is made by tools/record.py, which has the recipe of a new one.
// The comment behind a field is its line in docs/SESSION.md.
#![tactic(auto)]

ghost use Rattle.std.specs.Prelude.{◌≡◌, Bool, ◌+◌, ◌*◌, ◌≤◌, ◌<◌, length};
ghost use Rattle.common.specs.Record.{is_bdf};
ghost use Rattle.common.specs.Layout.{work_length, question_length};
ghost use Rattle.common.specs.Limits.{max_states, mxordn_of, mxords_of, msbp_of, mxncf_of, maxord_of};
ghost use Rattle.coefficients.specs.Table.{tesco_of};
ghost use Rattle.common.specs.Rules.{first_call_init_of, reset_of, tiny_of, order_in_force_of, el_of};
ghost use Rattle.common.specs.Initial.{initial_of};

mod given;

pub use given::Problem;

// The largest number of states.
pub const MAX_STATES: usize = 64;

// Where each part of the work begins, in columns of n numbers; columns 0 to 12 are the history.
pub const EWT: usize = 13;

pub const SAVF: usize = 14;

pub const FTEM: usize = 15;

pub const ACOR: usize = 16;

pub const Y: usize = 17;

pub const Y_FD: usize = 18;

pub const MATRIX: usize = 19;

// The question: y and the 13 columns of a snapshot, so many numbers of n, and the snapshot's header between them.
pub const QUESTION: usize = 14;

pub const HEADER: usize = 6;

// Work and question of the most states.
pub const WORK_LENGTH: usize = MAX_STATES * MAX_STATES + MATRIX * MAX_STATES;

pub const QUESTION_LENGTH: usize = QUESTION * MAX_STATES + HEADER;

// How many numbers the work of n states has.
pub fn work_length(n: usize) -> usize
    requires { n ≤ max_states }
    ensures { result ≡ work_length n }
{
    n * n + MATRIX * n
}

// How many numbers the question of n states has.
pub fn question_length(n: usize) -> usize
    requires { n ≤ max_states }
    ensures { result ≡ question_length n }
{
    QUESTION * n + HEADER
}

// A part of what is lent becomes another. By index: std's `copy_from_slice` asks C's memmove of whoever links the
// static library, and of what `iter_mut().zip(from)` leaves a proof knows the length alone.
#[tactic(auto, using(crate::proofs::Copy::copy_turns))]
pub fn copy_from(to: &mut [f64], from: &[f64])
    requires { length to.old ≡ length from.now }
    ensures { to.new ≡ from.now }
{
    for (i, x) in to.iter_mut().enumerate() {
        *x = from[i];
    }
}

// made by tools/record.py: the words of a session
// A session is a row of words of eight bytes: counts, flags and states, then floats, then MAX_STATES slots for each of
// the two tolerance lists.
pub const COUNT_WORDS: usize = 34;

pub const FLOAT_WORDS: usize = 19;

pub const RTOL_AT: usize = COUNT_WORDS + FLOAT_WORDS;

pub const ATOL_AT: usize = RTOL_AT + MAX_STATES;

pub const SESSION_WORDS: usize = ATOL_AT + MAX_STATES;

pub const SESSION_LENGTH: usize = 8 * SESSION_WORDS;
// end of the words of a session

#[derive(Clone, Copy, PartialEq, Eq)]
pub enum MethodFamily {
    Adams = 1,
    Bdf = 2,
}

// `given` is a flag: h beside it is the running step, with or without it. The record's `table` is a number, as
// coefficients, where `MethodFamily` is not known, has its tables.
#[derive(Clone, Copy)]
pub struct Settings {
    pub n: usize, // states, 1 to 64
    pub xend: f64, // end of the interval
    pub direction: f64, // signum of end minus start
    pub maxsteps: usize, // largest number of accepted steps, 1 to 1,000,000
    pub mxordn: usize, // largest Adams order, 1 to 1,000,000; above 12 acts as 12
    pub mxords: usize, // largest BDF order, 1 to 1,000,000; above 5 acts as 5
    pub maxcor: usize, // largest number of corrector iterations, 1 to 1,000,000
    pub msbp: usize, // steps between Jacobian checks, 0 to 1,000,000; 0 acts as 1
    pub mxncf: usize, // convergence failures in a step that end it, 0 to 1,000,000; 0 acts as 1
    pub supplied: bool, // 1: the host supplies the Jacobian; 0: by differences
    pub given: bool, // 1: the first step was given; 0: it is computed
    pub nrtol: usize, // length of the relative tolerance list, 1 or n
    pub natol: usize, // length of the absolute tolerance list, 1 or n
}

#[derive(Clone, Copy)]
pub struct Common {
    pub hmin: f64, // smallest step, 0 if none is given
    pub hmxi: f64, // 1 / largest step, 0 if there is none
    pub tn: f64, // time
    pub h: f64, // step size
    pub hu: f64, // size of the last accepted step
    pub told: f64, // time before the step
    pub rc: f64, // ratio of h·el0 to that of the last Jacobian
    pub el0: f64, // leading coefficient at the last reset
    pub conit: f64, // 0.5 / (order at the last reset + 2)
    pub rmax: f64, // largest factor of a rescale
    pub pdest: f64, // estimate of the Jacobian's norm from the corrector
    pub pdlast: f64, // the last such estimate that was not 0
    pub pdnorm: f64, // norm of the last Jacobian
    pub convrate: f64, // convergence rate of the corrector
    pub pnorm: f64, // norm of the prediction that opened the step
    pub rate: f64, // largest rate in this corrector pass
    pub delp: f64, // size of the corrector's last correction
    pub nq: usize, // order, 1 to 12
    pub lmax: usize, // largest number of columns in use, 2 to 13
    pub nqnyh: usize, // order at the last reset, times n
    pub ialth: usize, // accepted steps until the next order choice, at least 1
    pub icount: usize, // accepted steps until the next family test, plus 1,000,000
    pub table: usize, // coefficients in force: 0 none yet, 1 Adams
    pub nslp: usize, // accepted steps at the last Jacobian
    pub nst: usize, // accepted steps
    pub nfe: usize, // derivatives requested
    pub nje: usize, // Jacobians begun
    pub nlu: usize, // factorings
    pub rejected: usize, // rejected attempts
    pub total: usize, // accepted and rejected at the last accepted step
    pub count: usize, // derivatives requested in this step
    pub kflag: usize, // error failures in this step, 0 to 9
    pub ncf: usize, // convergence failures in this step, below mxncf
    pub m: usize, // corrector iterations done in this pass, below maxcor
    pub column: usize, // column of a running difference Jacobian, below n
    pub meth: MethodFamily, // family: 1 Adams, 2 BDF
    pub due: bool, // 1: a Jacobian is due
    pub jcur: bool, // 1: the Jacobian was made in this pass
    pub setup: bool, // 1: first-call setup is due
}

impl MethodFamily {
    pub fn is_bdf(self) -> bool
        ensures { result ≡ is_bdf self }
    {
        self == MethodFamily::Bdf
    }
}

impl Settings {
    // The largest Adams order in force.
    pub fn mxordn(self) -> usize
        ensures { result ≡ mxordn_of self }
    {
        self.mxordn.min(12)
    }

    // The largest BDF order in force.
    pub fn mxords(self) -> usize
        ensures { result ≡ mxords_of self }
    {
        self.mxords.min(5)
    }

    pub fn msbp(self) -> usize
        ensures { result ≡ msbp_of self }
    {
        self.msbp.max(1)
    }

    pub fn mxncf(self) -> usize
        ensures { result ≡ mxncf_of self }
    {
        self.mxncf.max(1)
    }

    // The largest order of a family in force.
    pub fn maxord(self, meth: MethodFamily) -> usize
        ensures { result ≡ maxord_of self meth }
    {
        match meth {
            MethodFamily::Adams => self.mxordn(),
            MethodFamily::Bdf => self.mxords(),
        }
    }
}

// What needs the settings too is passed them. Bounds on one count or order stay clauses: the head of crate history says
// why.
impl Common {
    #[tactic(auto, unfolding(crate::specs::Rules::first_call_init_of))]
    pub fn stoda_first_call_init(self, s: Settings) -> Common
        requires { (s.mxordn ≤ 1000000) × (s.mxords ≤ 1000000) }
        ensures { result ≡ first_call_init_of s self }
    {
        Common {
            lmax: s.maxord(self.meth) + 1,
            nq: 1,
            ialth: 2,
            rmax: 10000.0,
            rc: 0.0,
            el0: 1.0,
            convrate: 0.7,
            nslp: 0,
            due: self.meth.is_bdf(),
            icount: 1000020,
            pdest: 0.0,
            pdlast: 0.0,
            table: 1,
            ..self
        }
    }

    // The order whose coefficients el, el0 and conit are in force: that of the last reset.
    pub fn order_in_force(self, s: Settings) -> usize
        requires { 1 ≤ s.n }
        ensures { result ≡ order_in_force_of s self }
    {
        self.nqnyh / s.n
    }

    // Coefficient j of the order in force.
    pub fn el(self, s: Settings, j: usize) -> f64
        requires { (1 ≤ s.n) × (self.table ≤ 2) × (s.n ≤ self.nqnyh) × (self.nqnyh ≤ 12 * s.n) × (j ≤ 12) }
        ensures { result ≡ el_of s self j }
    {
        coefficients::elco(self.table, self.order_in_force(s), j)
    }

    // Error entry i of the order itself.
    pub fn tesco(self, i: usize) -> f64
        requires { (self.table ≤ 2) × (1 ≤ self.nq) × (self.nq ≤ 12) × (i ≤ 2) }
        ensures { result ≡ tesco_of self.table self.nq i }
    {
        coefficients::tesco(self.table, self.nq, i)
    }

    #[tactic(auto, unfolding(crate::specs::Rules::reset_of))]
    pub fn stoda_reset(self, s: Settings) -> Common
        requires { (s.n ≤ max_states) × (self.table ≤ 2) × (1 ≤ self.nq) × (self.nq ≤ 12) }
        ensures { result ≡ reset_of s self }
    {
        let el0 = coefficients::elco(self.table, self.nq, 0);
        Common {
            nqnyh: self.nq * s.n,
            rc: self.rc * el0 / self.el0,
            el0,
            conit: 0.5 / (self.nq as u32 as f64 + 2.0),
            ..self
        }
    }

    // Whether the step is as small as it may be: |h| ≤ hmin·1.00001.
    pub fn is_tiny(self) -> bool
        ensures { result ≡ tiny_of self }
    {
        numbers::abs(self.h) <= self.hmin * 1.00001
    }
}

// made by tools/record.py: the record at the start
impl Common {
    // The record at the start, with the first step where it is given; the first derivative is asked for.
    #[tactic(auto, unfolding(crate::specs::Initial::initial_of))]
    pub fn initial(s: Settings, x0: f64, h: f64, hmin: f64, hmxi: f64) -> Common
        ensures { result ≡ initial_of s x0 h hmin hmxi }
    {
        Common {
            hmin,
            hmxi,
            tn: x0,
            h,
            hu: 0.0,
            told: x0,
            rc: 0.0,
            el0: 1.0,
            conit: 0.0,
            rmax: 0.0,
            pdest: 0.0,
            pdlast: 0.0,
            pdnorm: 0.0,
            convrate: 0.7,
            pnorm: 0.0,
            rate: 0.0,
            delp: 0.0,
            nq: 1,
            lmax: s.mxordn().max(s.mxords()) + 1,
            nqnyh: s.n,
            ialth: 2,
            icount: 1000020,
            table: 0,
            nslp: 0,
            nst: 0,
            nfe: 1,
            nje: 0,
            nlu: 0,
            rejected: 0,
            total: 0,
            count: 0,
            kflag: 0,
            ncf: 0,
            m: 0,
            column: 0,
            meth: MethodFamily::Adams,
            due: false,
            jcur: false,
            setup: true,
        }
    }
}
// end of the record at the start
