// What a start fixes: the settings, and the tolerance lists, which stand in the session's bytes and are lent to each
// reply. Each list has 1 number for all states or one for each; proofs/Lists.antt has the two ways out of the ghost
// fields.
ghost use Rattle.std.specs.Prelude.{◌-◌};
ghost use Rattle.vectors.specs.Tolerance.{List1OrN};

use crate::Settings;

#[derive(Clone, Copy)]
pub struct Problem<'a> {
    pub settings: Settings,
    pub rtol: &'a [f64],
    pub atol: &'a [f64],
    pub ghost relative: { ∥ List1OrN rtol.now (settings.n - 1) ∥₁ },
    pub ghost absolute: { ∥ List1OrN atol.now (settings.n - 1) ∥₁ },
}
