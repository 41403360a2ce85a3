// Compares our numbers and leaves with a stored sample of the reference's, and writes how many were compared and how
// many differ: of the leaves, how many answer or leave something else.
#![tactic(auto)]

ghost use Rattle.std.specs.Prelude.{◌≤◌, length};

mod leaf;
mod leaves;
mod number;
mod table;

use std::io;

fn line(rt: &impl Print, name: &str, compared: usize, differ: usize) -> io::Result<()> {
    println!(rt; "{name}: {compared} compared, {differ} differ")
}

fn cases(rt: &impl Print, name: &str, stored: &[u64]) -> io::Result<()> {
    line(rt, name, stored.len() / 5, number::differ(stored))
}

fn calls(rt: &impl Print, name: &str, heads: &[u64], stored: &[u64]) -> io::Result<()>
    requires { length heads.now ≤ 1000000 }
{
    line(rt, name, heads.len() / 11, leaf::differ(heads, stored))
}

// A function for each table: its numbers are carried through everything that follows its loan.
fn roots(rt: &impl Print) -> io::Result<()> {
    cases(rt, "root", &table::ROOTS)
}

fn square_roots(rt: &impl Print) -> io::Result<()> {
    cases(rt, "sqrt", &table::SQUARE_ROOTS)
}

fn coefficients(rt: &impl Print) -> io::Result<()> {
    cases(rt, "coefficients", &table::COEFFICIENTS)
}

fn on_lists(rt: &impl Print) -> io::Result<()> {
    calls(rt, "leaves on lists", &leaves::LISTS_HEADS, &leaves::LISTS)
}

fn on_a_record(rt: &impl Print) -> io::Result<()> {
    calls(
        rt,
        "leaves on a record",
        &leaves::RECORDS_HEADS,
        &leaves::RECORDS,
    )
}

fn main(rt: HostRuntime) -> io::Result<()> {
    roots(&rt)?;
    square_roots(&rt)?;
    coefficients(&rt)?;
    on_lists(&rt)?;
    on_a_record(&rt)
}
