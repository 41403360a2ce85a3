// What was seen of a run: its requests one by one, and each report held to them. A report's count is that of the
// derivatives asked for since the one before, and within the cap of a step with as many Jacobians as were begun in it;
// a report that is not so is counted as wrong. A pose is a slice with a clause on its length, as chain.rt says.
ghost use Rattle.std.specs.Prelude.{◌≤◌, length};
ghost use Rattle.common.specs.Limits.{max_states};

use crate::chain::STATES;
use raimsklo::Reply;

// The most derivatives that a step asks for with mxncf 10 and maxcor 3, beside the columns of its Jacobians:
// (mxncf + 9)·maxcor + 7 where it begins in Adams, (mxncf + 12)·maxcor + 7 in the other family.
const ADAMS: usize = 64;

const BDF: usize = 73;

// mxncf + 9.
const JACOBIANS: usize = 19;

// What was seen of a run.
#[derive(Clone, Copy)]
pub struct Watch {
    // The reports, how many of them were wrong, the largest count with its cap, and the last one's time.
    pub reports: usize,
    pub wrong: usize,
    pub most: usize,
    pub capped: usize,
    time: f64,
    // Since the last report: the derivatives asked for, the Jacobians begun, and how many columns these have by
    // differences. `adams`: the family in force there was Adams.
    asked: usize,
    begun: usize,
    columns: usize,
    adams: bool,
    // In all, and the last request: the time of its derivative, and its pose.
    pub derivatives: usize,
    pub jacobians: usize,
    at: f64,
    pose: [f64; STATES],
}

impl Watch {
    pub fn new() -> Watch {
        Watch {
            reports: 0,
            wrong: 0,
            most: 0,
            capped: 0,
            time: 0.0,
            asked: 0,
            begun: 0,
            columns: 0,
            adams: false,
            derivatives: 0,
            jacobians: 0,
            at: 0.0,
            pose: [0.0; STATES],
        }
    }

    // A derivative is asked for at y. It may be for the first column of a Jacobian by differences.
    pub fn derivative(&mut self, r: &Reply, y: &[f64])
        requires { max_states ≤ length y.now }
    {
        if self.is_first_column(r, y) {
            self.begin_jacobian();
            self.columns = self.columns.saturating_add(STATES);
        }
        self.asked = self.asked.saturating_add(1);
        self.derivatives = self.derivatives.saturating_add(1);
        self.at = r.time;
        self.pose.copy_from_slice(&y[..STATES]);
    }

    // The Jacobian is asked for at y.
    pub fn jacobian(&mut self, y: &[f64])
        requires { max_states ≤ length y.now }
    {
        self.begin_jacobian();
        self.pose.copy_from_slice(&y[..STATES]);
    }

    // The first report has no count, and the one derivative seen was the start's.
    pub fn first_report(&mut self, r: &Reply, adams: bool) {
        let right = r.previous == self.time && r.count == 0 && self.asked == 1;
        self.report(r, adams, right);
    }

    // Any other begins where the last one ended, goes forward, has the count of the derivatives seen since, and keeps
    // to both caps.
    pub fn step_report(&mut self, r: &Reply, adams: bool) {
        let right = r.previous == self.time
            && r.time > r.previous
            && r.count == self.asked
            && self.begun <= JACOBIANS
            && r.count <= self.cap();
        self.report(r, adams, right);
    }

    fn begin_jacobian(&mut self) {
        self.begun = self.begun.saturating_add(1);
        self.jacobians = self.jacobians.saturating_add(1);
    }

    // At the time of the last derivative, and at the pose that it asked for but for the first state.
    fn is_first_column(&self, r: &Reply, y: &[f64]) -> bool
        requires { max_states ≤ length y.now }
    {
        r.time == self.at && y[0] != self.pose[0] && y[1..STATES] == self.pose[1..]
    }

    fn cap(&self) -> usize {
        self.columns
            .saturating_add(if self.adams { ADAMS } else { BDF })
    }

    fn report(&mut self, r: &Reply, adams: bool, right: bool) {
        self.reports = self.reports.saturating_add(1);
        if !right {
            self.wrong = self.wrong.saturating_add(1);
        }
        if r.count > self.most {
            self.most = r.count;
            self.capped = self.cap();
        }
        self.time = r.time;
        self.asked = 0;
        self.begun = 0;
        self.columns = 0;
        self.adams = adams;
    }
}
