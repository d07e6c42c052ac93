//! Numbers of FLOAT and DOUBLE.

ghost use Rattle.std.specs.Prelude.{IsTrue};
ghost use Rattle.std.specs.Float.{float_is_finite};

/// A number of a FLOAT or a DOUBLE, which is no infinity.
#[derive(Clone, Copy, Debug)]
pub struct Real {
    pub value: f64,
    pub ghost finite: { IsTrue (float_is_finite value) },
}
