// For comparisons with the reference alone: the functions on the history, the record and the snapshot.
// Nothing is asked of the host: where a callee's requires is not met, the number 2 is answered, and what was lent stays
// as it was. A record is lent as its 11 floats and 14 counts, in the order of specs/Lent.antt. All this is C's form.
ghost use Rattle.std.specs.Prelude.{◌≡◌, true, false, [], length};
ghost use Rattle.common.specs.declared.Common.{Common};
ghost use Rattle.interpolation.specs.Evaluate.{Interpolated, interpolate_of};
ghost use Rattle.probe.specs.Lent.{lent_family, lent_settings, lent_common, written_floats, written_counts};
ghost use Rattle.probe.specs.Lent.{are_columns, in_range, are_limits, is_usable};
ghost use Rattle.probe.specs.Left.{Columns, predict_left, retract_left, RecordLeft, correct_left, adjust_left};
ghost use Rattle.probe.specs.Left.{predicted_left, init_left, reset_left, snapshot_left};

use common::{Common, MethodFamily, Settings};

// The work up to the matrix for the largest number of states: enough where none is needed.
const ENOUGH_WORK: usize = common::MATRIX * common::MAX_STATES;

// Whether nq passes over the columns up to nqnyh, and the column behind it, lie within so many numbers.
#[tactic(auto, unfolding(crate::specs::Lent::are_columns))]
fn are_columns(n: usize, nq: usize, nqnyh: usize, len: usize) -> bool
    ensures { result ≡ are_columns n nq nqnyh len }
{
    n <= common::MAX_STATES && nq <= 12 && nq * n <= nqnyh && n <= len && nqnyh <= len - n
}

// 0 done, 2 not.
#[tactic(auto, unfolding(crate::specs::Left::predict_left, crate::specs::Lent::are_columns))]
pub fn probe_predict_columns(yh: &mut [f64], n: usize, nq: usize, nqnyh: usize) -> usize
    ensures { ◌≡◌ {A = Columns} (record { number = result; yh = yh.new })
        (predict_left n nq nqnyh yh.old) }
{
    if are_columns(n, nq, nqnyh, yh.len()) {
        history::predict_columns(yh, n, nq, nqnyh);
        0
    } else {
        2
    }
}

#[tactic(auto, unfolding(crate::specs::Left::retract_left, crate::specs::Lent::are_columns))]
pub fn probe_retract_columns(yh: &mut [f64], n: usize, nq: usize, nqnyh: usize) -> usize
    ensures { ◌≡◌ {A = Columns} (record { number = result; yh = yh.new })
        (retract_left n nq nqnyh yh.old) }
{
    if are_columns(n, nq, nqnyh, yh.len()) {
        history::retract_columns(yh, n, nq, nqnyh);
        0
    } else {
        2
    }
}

// 2 is BDF, and any other number Adams.
#[tactic(auto, unfolding(crate::specs::Lent::lent_family))]
fn family(number: usize) -> MethodFamily
    ensures { result ≡ lent_family number }
{
    if number == 2 {
        MethodFamily::Bdf
    } else {
        MethodFamily::Adams
    }
}

// made by tools/record.py: the record from the numbers that are lent
#[tactic(auto, unfolding(crate::specs::Lent::lent_settings))]
fn settings(floats: &[f64], counts: &[usize]) -> Settings
    requires { (length floats.now ≡ 11) × (length counts.now ≡ 14) }
    ensures { result ≡ lent_settings floats.now counts.now }
{
    Settings {
        n: counts[0],
        xend: 0.0,
        direction: 0.0,
        maxsteps: 0,
        mxordn: counts[1],
        mxords: counts[2],
        maxcor: 0,
        msbp: counts[3],
        mxncf: 0,
        supplied: false,
        given: false,
        nrtol: 0,
        natol: 0,
    }
}

#[tactic(auto, unfolding(crate::specs::Lent::lent_common))]
fn common(floats: &[f64], counts: &[usize]) -> Common
    requires { (length floats.now ≡ 11) × (length counts.now ≡ 14) }
    ensures { result ≡ lent_common floats.now counts.now }
{
    Common {
        hmin: 0.0,
        hmxi: floats[0],
        tn: floats[1],
        h: floats[2],
        hu: floats[3],
        told: 0.0,
        rc: floats[4],
        el0: floats[5],
        conit: floats[6],
        rmax: floats[7],
        pdest: floats[8],
        pdlast: floats[9],
        pdnorm: 0.0,
        convrate: floats[10],
        pnorm: 0.0,
        rate: 0.0,
        delp: 0.0,
        meth: family(counts[4]),
        nq: counts[5],
        lmax: counts[6],
        nqnyh: counts[7],
        ialth: counts[8],
        icount: counts[9],
        table: counts[10],
        nslp: counts[11],
        nst: counts[12],
        nfe: 0,
        nje: 0,
        nlu: 0,
        rejected: 0,
        total: 0,
        count: 0,
        kflag: 0,
        ncf: 0,
        m: 0,
        column: 0,
        due: counts[13] == 1,
        jcur: false,
        setup: false,
    }
}
// end of the record from the numbers that are lent

#[tactic(auto, unfolding(crate::specs::Lent::written_floats))]
fn put_floats(c: Common, floats: &mut [f64])
    requires { length floats.old ≡ 11 }
    ensures { floats.new ≡ written_floats c floats.old }
{
    floats[1] = c.tn;
    floats[2] = c.h;
    floats[3] = c.hu;
    floats[4] = c.rc;
    floats[5] = c.el0;
    floats[6] = c.conit;
    floats[7] = c.rmax;
    floats[8] = c.pdest;
    floats[9] = c.pdlast;
    floats[10] = c.convrate;
}

#[tactic(auto, unfolding(crate::specs::Lent::written_counts))]
fn put_counts(c: Common, counts: &mut [usize])
    requires { length counts.old ≡ 14 }
    ensures { counts.new ≡ written_counts c counts.old }
{
    counts[5] = c.nq;
    counts[6] = c.lmax;
    counts[7] = c.nqnyh;
    counts[8] = c.ialth;
    counts[9] = c.icount;
    counts[10] = c.table;
    counts[11] = c.nslp;
    counts[12] = c.nst;
    counts[13] = usize::from(c.due);
}

// Whether the sizes and the order are in the ranges that a step's functions ask for, and so is the work's length.
#[tactic(auto, unfolding(crate::specs::Lent::in_range))]
fn in_range(n: usize, nq: usize, nqnyh: usize, table: usize, work: usize) -> bool
    ensures { result ≡ in_range n nq nqnyh table work }
{
    (1..=common::MAX_STATES).contains(&n)
        && 1 <= nq
        && table <= 2
        && common::MATRIX * n <= work
        && are_columns(n, nq, nqnyh, common::EWT * n)
}

// Whether the limits are, and the number of steps at the last Jacobian.
#[tactic(auto, unfolding(crate::specs::Lent::are_limits))]
fn are_limits(mxordn: usize, mxords: usize, msbp: usize, nslp: usize) -> bool
    ensures { result ≡ are_limits mxordn mxords msbp nslp }
{
    mxordn <= 1000000 && mxords <= 1000000 && msbp <= 1000000 && nslp < 1 << 62
}

// Whether a record is lent that the functions below take, beside so much work.
#[tactic(auto, unfolding(crate::specs::Lent::is_usable))]
fn is_usable(floats: &[f64], counts: &[usize], work: usize) -> bool
    ensures { result ≡ is_usable floats.now counts.now work }
{
    floats.len() == 11
        && counts.len() == 14
        && are_limits(counts[1], counts[2], counts[3], counts[11])
        && in_range(counts[0], counts[5], counts[7], counts[10], work)
}

#[tactic(auto, using(crate::proofs::Usable::taken), unfolding(crate::specs::Left::correct_left))]
pub fn probe_correct_columns(floats: &[f64], counts: &[usize], work: &mut [f64]) -> usize
    ensures { ◌≡◌ {A = Columns} (record { number = result; yh = work.new })
        (correct_left floats.now counts.now work.old) }
{
    if is_usable(floats, counts, work.len()) {
        history::correct_columns(settings(floats, counts), common(floats, counts), work);
        0
    } else {
        2
    }
}

// One of the step's functions on the lent record, which is then written back. `long` is the length of work that the
// test is told of: the two functions that need none are lent none.
#[tactic(auto, using(crate::proofs::Usable::taken))]
fn on_record<F: FnOnce(Settings, Common, &mut [f64]) -> Common>(
    floats: &mut [f64],
    counts: &mut [usize],
    long: usize,
    work: &mut [f64],
    f: F,
) -> usize
    requires { is_usable floats.old counts.old long ≡ true → (p : _) → p.now ≡ work.old
        → F.pre f (lent_settings floats.old counts.old) (lent_common floats.old counts.old) p }
    ensures taken { is_usable floats.old counts.old long ≡ true → (d : Common) × (p : _) × (q : _) × (p.now ≡ work.old)
        × F.post f (lent_settings floats.old counts.old) (lent_common floats.old counts.old) p d q
        × (q.now ≡ work.new) × (result ≡ 0) × (floats.new ≡ written_floats d floats.old)
        × (counts.new ≡ written_counts d counts.old) }
    ensures refused { is_usable floats.old counts.old long ≡ false → (result ≡ 2) × (floats.new ≡ floats.old)
        × (counts.new ≡ counts.old) × (work.new ≡ work.old) }
{
    if is_usable(floats, counts, long) {
        let s = settings(floats, counts);
        let c = common(floats, counts);
        let d = f(s, c, work);
        put_floats(d, floats);
        put_counts(d, counts);
        0
    } else {
        2
    }
}

#[tactic(auto, using(crate::proofs::Usable::lent), unfolding(crate::specs::Left::adjust_left))]
pub fn probe_stoda_adjust_step_size(
    floats: &mut [f64],
    counts: &mut [usize],
    rh: f64,
    work: &mut [f64],
) -> usize
    ensures { ◌≡◌ {A = RecordLeft}
        (record { number = result; floats = floats.new; counts = counts.new; work = work.new })
        (adjust_left floats.old counts.old rh work.old) }
{
    let long = work.len();
    on_record(
        floats,
        counts,
        long,
        work,
        |s, c, work| history::stoda_adjust_step_size(s, c, rh, work),
    )
}

#[tactic(auto, using(crate::proofs::Usable::lent), unfolding(crate::specs::Left::predicted_left))]
pub fn probe_stoda_get_predicted_values(
    floats: &mut [f64],
    counts: &mut [usize],
    work: &mut [f64],
) -> usize
    ensures { ◌≡◌ {A = RecordLeft}
        (record { number = result; floats = floats.new; counts = counts.new; work = work.new })
        (predicted_left floats.old counts.old work.old) }
{
    let long = work.len();
    on_record(
        floats,
        counts,
        long,
        work,
        history::stoda_get_predicted_values,
    )
}

#[tactic(auto, using(crate::proofs::Usable::lent), unfolding(crate::specs::Left::init_left))]
pub fn probe_stoda_first_call_init(floats: &mut [f64], counts: &mut [usize]) -> usize
    ensures { ◌≡◌ {A = RecordLeft}
        (record { number = result; floats = floats.new; counts = counts.new; work = [] })
        (init_left floats.old counts.old) }
{
    on_record(
        floats,
        counts,
        ENOUGH_WORK,
        &mut [],
        |s, c, _| c.stoda_first_call_init(s),
    )
}

#[tactic(auto, using(crate::proofs::Usable::lent), unfolding(crate::specs::Left::reset_left))]
pub fn probe_stoda_reset(floats: &mut [f64], counts: &mut [usize]) -> usize
    ensures { ◌≡◌ {A = RecordLeft}
        (record { number = result; floats = floats.new; counts = counts.new; work = [] })
        (reset_left floats.old counts.old) }
{
    on_record(
        floats,
        counts,
        ENOUGH_WORK,
        &mut [],
        |s, c, _| c.stoda_reset(s),
    )
}

// The snapshot stands in the question from n on.
#[tactic(auto, using(crate::proofs::Usable::taken), unfolding(crate::specs::Left::snapshot_left))]
pub fn probe_snapshot_step(
    floats: &[f64],
    counts: &[usize],
    work: &[f64],
    question: &mut [f64],
) -> usize
    ensures { ◌≡◌ {A = Columns} (record { number = result; yh = question.new })
        (snapshot_left floats.now counts.now work.now question.old) }
{
    if !is_usable(floats, counts, work.len()) {
        return 2;
    }
    let s = settings(floats, counts);
    if question.len() < common::question_length(s.n) {
        return 2;
    }
    interpolation::snapshot_step(s, common(floats, counts), work, question);
    0
}

// Beside `raimsklo_interpolate`, which is in a crate above: the comparison links this one's library alone.
pub fn probe_interpolate(xi: f64, yi: &mut [f64], cont: &[f64]) -> usize
    ensures { ◌≡◌ {A = Interpolated} (record { number = result; output = yi.new })
        (interpolate_of xi cont.now yi.old) }
{
    match interpolation::interpolate(xi, yi, cont) {
        Ok(()) => 0,
        Err(why) => usize::from(why),
    }
}
