// The measure interface.
ghost use Rattle.std.specs.Prelude.{◌≡◌};
ghost use Rattle.automata.specs.Measure.{Ops, Laws};

// What readings are worth: a commutative semiring with a value for each number of points.
pub trait Measure: Copy {
    ghost NONE: { Self };

    const NONE: Self;

    ghost UNIT: { Self };

    const UNIT: Self;

    ghost ops: { Ops Self };

    fn plus(self, other: Self) -> Self
        ensures { result ≡ ops.plus self other };

    fn times(self, other: Self) -> Self
        ensures { result ≡ ops.times self other };

    // The value of a row's points.
    fn value(points: u16) -> Self
        ensures { result ≡ ops.value points };

    ghost lawful: { Laws ops };

    ghost none_is: { NONE ≡ ops.none };

    ghost unit_is: { UNIT ≡ ops.unit };
}
