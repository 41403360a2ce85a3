// The family and the phase of a stored number. An unknown number, which 13 refuses, is read as the last: a `TryFrom`
// would have an error that no caller wants.
ghost use Rattle.std.specs.Prelude.{◌≡◌};
ghost use Rattle.session.specs.States.{family_of, phase_of};

use common::MethodFamily;
use questions::Phase;

#[tactic(auto, unfolding(crate::specs::States::family_of))]
pub fn family(w: usize) -> MethodFamily
    ensures { result ≡ family_of w }
{
    match w {
        1 => MethodFamily::Adams,
        _ => MethodFamily::Bdf,
    }
}

#[tactic(auto, unfolding(crate::specs::States::phase_of))]
pub fn phase(w: usize) -> Phase
    ensures { result ≡ phase_of w }
{
    match w {
        0 => Phase::FirstDerivative,
        1 => Phase::FirstReport,
        2 => Phase::FirstModified,
        3 => Phase::Opened,
        4 => Phase::JacobianAsked,
        5 => Phase::DifferenceColumn,
        6 => Phase::FurtherDerivative,
        7 => Phase::Restep,
        8 => Phase::Report,
        9 => Phase::Modified,
        _ => Phase::Finished,
    }
}
