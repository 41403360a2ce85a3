// The rig: a chain of 32 links, whose angles are the states 0 to 31 and whose speeds are 32 to 63. A spring holds each
// link to both its neighbours, the first one to a root that is turned by 1.2·t/(1 + t²). Each has drag, and gravity by
// the first two terms of the sine.
// A pose comes as a slice with a clause on its length: an array of STATES would ask more of callers. A link's number
// comes with a clause on its bound: a type for it would be unwrapped at each index.
ghost use Rattle.std.specs.Prelude.{◌*◌, ◌<◌, ◌≤◌, length};
ghost use Rattle.common.specs.Limits.{max_states};

pub const LINKS: usize = 32;

// As many states as the library takes at most.
pub const STATES: usize = common::MAX_STATES;

const SPRING: f64 = 80.0;

const DRAG: f64 = 40.0;

const GRAVITY: f64 = 9.81;

// Every link is held aside, at rest.
pub fn first_pose() -> [f64; STATES] {
    let mut y = [0.0; STATES];
    y[..LINKS].fill(0.5);
    y
}

// The angle of the neighbour towards the root.
fn above(t: f64, y: &[f64], i: usize) -> f64
    requires { (i < 32) × (max_states ≤ length y.now) }
{
    if i == 0 {
        1.2 * t / (1.0 + t * t)
    } else {
        y[i - 1]
    }
}

// The angle of the other neighbour; the last link has none.
fn below(y: &[f64], i: usize) -> f64
    requires { (i < 32) × (max_states ≤ length y.now) }
{
    if i == LINKS - 1 { y[i] } else { y[i + 1] }
}

fn acceleration(t: f64, y: &[f64], i: usize) -> f64
    requires { (i < 32) × (max_states ≤ length y.now) }
{
    let a = y[i];
    let pull = SPRING * (above(t, y, i) - a + (below(y, i) - a));
    pull - DRAG * y[LINKS + i] - GRAVITY * (a - a * a * a / 6.0)
}

// The angles change by the speeds, the speeds by the accelerations.
pub fn derivative(t: f64, y: &[f64]) -> [f64; STATES]
    requires { max_states ≤ length y.now }
{
    let mut f = [0.0; STATES];
    f[..LINKS].copy_from_slice(&y[LINKS..STATES]);
    for (i, speed) in f[LINKS..].iter_mut().enumerate() {
        *speed = acceleration(t, y, i);
    }
    f
}

// ---- the Jacobian, column by column

fn put(j: &mut [f64], row: usize, column: usize, x: f64)
    requires { (row < max_states) × (column < max_states) × (max_states * max_states ≤ length j.old) }
{
    j[row + STATES * column] = x;
}

// What the angle a of link i does to its own acceleration.
fn own(i: usize, a: f64) -> f64 {
    let gravity = GRAVITY * (1.0 - a * a / 2.0);
    if i == LINKS - 1 {
        -SPRING - gravity
    } else {
        -SPRING * 2.0 - gravity
    }
}

fn link(i: usize, a: f64, j: &mut [f64])
    requires { (i < 32) × (max_states * max_states ≤ length j.old) }
{
    let speed = LINKS + i;
    put(j, i, speed, 1.0);
    put(j, speed, speed, -DRAG);
    put(j, speed, i, own(i, a));
    if i > 0 {
        put(j, speed, i - 1, SPRING);
    }
    if i + 1 < LINKS {
        put(j, speed, i + 1, SPRING);
    }
}

pub fn jacobian(y: &[f64]) -> [f64; STATES * STATES]
    requires { max_states ≤ length y.now }
{
    let mut j = [0.0; STATES * STATES];
    // By `split_at`: of `y[..LINKS]` the length stays unproved, and with it the bound of i.
    let (angles, _) = y.split_at(LINKS);
    for (i, a) in angles.iter().enumerate() {
        link(i, *a, &mut j);
    }
    j
}
