// What the program prints: times and angles in millionths, and a pose bit by bit. A pose is a slice, as chain.rt says;
// `frame` has the clause on its length.
ghost use Rattle.std.specs.Prelude.{◌≤◌, length};
ghost use Rattle.common.specs.Limits.{max_states};

use std::io;

// A number in millionths, without its fraction.
fn millionths(x: f64) -> i64 {
    std::num::saturating_f64_to_i64(x * 1000000.0)
}

// The angles of the links 1, 16 and 32 at time t.
pub fn frame(rt: &impl Print, t: f64, y: &[f64]) -> io::Result<()>
    requires { max_states ≤ length y.now }
{
    let [first, middle, last] = [y[0], y[15], y[31]].map(millionths);
    println!(rt; "at {}: {first} {middle} {last}", millionths(t))
}

// No pose at time t, but the number of a refusal.
pub fn refused(rt: &impl Print, t: f64, number: usize) -> io::Result<()> {
    println!(rt; "at {} refused by {number}", millionths(t))
}

// Four patterns to a line.
pub fn pose(rt: &impl Print, y: &[f64]) -> io::Result<()> {
    for row in y.chunks(4) {
        for x in row {
            print!(rt; " {:016x}", numbers::to_bits(*x))?;
        }
        println!(rt; "")?;
    }
    Ok(())
}
