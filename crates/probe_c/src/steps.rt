// The functions on the history, the record and the snapshot, by C's rules. A record is lent as its 11 floats and 14
// counts, in the order of crates/probe/specs/Lent.antt.
ghost use Rattle.std.specs.Prelude.{◌≡◌, []};
ghost use Rattle.interpolation.specs.Evaluate.{Interpolated, interpolate_of};
ghost use Rattle.probe.specs.Left.{Columns, predict_left, retract_left, RecordLeft, correct_left, adjust_left};
ghost use Rattle.probe.specs.Left.{predicted_left, init_left, reset_left, snapshot_left};

// 0 done, 2 not.
#[unsafe(no_mangle)]
pub extern "C" fn probe_predict_columns(yh: &mut [f64], n: usize, nq: usize, nqnyh: usize) -> usize
    ensures { ◌≡◌ {A = Columns} (record { number = result; yh = yh.new })
        (predict_left n nq nqnyh yh.old) }
{
    probe::steps::probe_predict_columns(yh, n, nq, nqnyh)
}

#[unsafe(no_mangle)]
pub extern "C" fn probe_retract_columns(yh: &mut [f64], n: usize, nq: usize, nqnyh: usize) -> usize
    ensures { ◌≡◌ {A = Columns} (record { number = result; yh = yh.new })
        (retract_left n nq nqnyh yh.old) }
{
    probe::steps::probe_retract_columns(yh, n, nq, nqnyh)
}

#[unsafe(no_mangle)]
pub extern "C" fn probe_correct_columns(floats: &[f64], counts: &[usize], work: &mut [f64]) -> usize
    ensures { ◌≡◌ {A = Columns} (record { number = result; yh = work.new })
        (correct_left floats.now counts.now work.old) }
{
    probe::steps::probe_correct_columns(floats, counts, work)
}

#[unsafe(no_mangle)]
pub extern "C" fn probe_stoda_adjust_step_size(
    floats: &mut [f64],
    counts: &mut [usize],
    rh: f64,
    work: &mut [f64],
) -> usize
    ensures { ◌≡◌ {A = RecordLeft}
        (record { number = result; floats = floats.new; counts = counts.new; work = work.new })
        (adjust_left floats.old counts.old rh work.old) }
{
    probe::steps::probe_stoda_adjust_step_size(floats, counts, rh, work)
}

#[unsafe(no_mangle)]
pub extern "C" fn probe_stoda_get_predicted_values(
    floats: &mut [f64],
    counts: &mut [usize],
    work: &mut [f64],
) -> usize
    ensures { ◌≡◌ {A = RecordLeft}
        (record { number = result; floats = floats.new; counts = counts.new; work = work.new })
        (predicted_left floats.old counts.old work.old) }
{
    probe::steps::probe_stoda_get_predicted_values(floats, counts, work)
}

#[unsafe(no_mangle)]
pub extern "C" fn probe_stoda_first_call_init(floats: &mut [f64], counts: &mut [usize]) -> usize
    ensures { ◌≡◌ {A = RecordLeft}
        (record { number = result; floats = floats.new; counts = counts.new; work = [] })
        (init_left floats.old counts.old) }
{
    probe::steps::probe_stoda_first_call_init(floats, counts)
}

#[unsafe(no_mangle)]
pub extern "C" fn probe_stoda_reset(floats: &mut [f64], counts: &mut [usize]) -> usize
    ensures { ◌≡◌ {A = RecordLeft}
        (record { number = result; floats = floats.new; counts = counts.new; work = [] })
        (reset_left floats.old counts.old) }
{
    probe::steps::probe_stoda_reset(floats, counts)
}

// The snapshot stands in the question from n on.
#[unsafe(no_mangle)]
pub extern "C" fn probe_snapshot_step(
    floats: &[f64],
    counts: &[usize],
    work: &[f64],
    question: &mut [f64],
) -> usize
    ensures { ◌≡◌ {A = Columns} (record { number = result; yh = question.new })
        (snapshot_left floats.now counts.now work.now question.old) }
{
    probe::steps::probe_snapshot_step(floats, counts, work, question)
}

#[unsafe(no_mangle)]
pub extern "C" fn probe_interpolate(xi: f64, yi: &mut [f64], cont: &[f64]) -> usize
    ensures { ◌≡◌ {A = Interpolated} (record { number = result; output = yi.new })
        (interpolate_of xi cont.now yi.old) }
{
    probe::steps::probe_interpolate(xi, yi, cont)
}
