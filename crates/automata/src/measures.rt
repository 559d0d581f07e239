// The three measures.
ghost use Rattle.std.specs.Prelude.{◌≡◌, refl};
ghost use Rattle.automata.specs.Measures.{yes_no, reading_count, fewest_points};
ghost use Rattle.automata.specs.Worth.{YesAccepts, CountsReadings, FewestOfReadings};
ghost use Rattle.std.proofs.Common.{rules};
ghost use Rattle.automata.specs.Lawful.{count_laws, points_laws};

use crate::fewest_points::FewestPoints;
use crate::measure::Measure;
use crate::reading_count::ReadingCount;
use crate::yes_no::YesNo;

impl Measure for YesNo {
    ghost NONE = { yes_no.none };

    const NONE: YesNo = YesNo { yes: false };

    ghost UNIT = { yes_no.unit };

    const UNIT: YesNo = YesNo { yes: true };

    ghost ops = { yes_no };

    ghost lawful = { Prim.search rules };

    ghost none_is = { refl };

    ghost unit_is = { refl };

    fn plus(self, other: YesNo) -> YesNo {
        YesNo {
            yes: self.yes || other.yes,
        }
    }

    fn times(self, other: YesNo) -> YesNo {
        YesNo {
            yes: self.yes && other.yes,
        }
    }

    fn value(_points: u16) -> YesNo {
        YesNo { yes: true }
    }
}

impl YesNo {
    // Yes or no. A worth in this measure is yes exactly where the state accepts the ticket.
    pub fn yes(self) -> bool
        ensures value { result ≡ self.yes }
        ensures accepts { YesAccepts }
    {
        self.yes
    }
}

impl Measure for ReadingCount {
    ghost NONE = { reading_count.none };

    const NONE: ReadingCount = ReadingCount { count: 0 };

    ghost UNIT = { reading_count.unit };

    const UNIT: ReadingCount = ReadingCount { count: 1 };

    ghost ops = { reading_count };

    ghost lawful = { count_laws };

    ghost none_is = { refl };

    ghost unit_is = { refl };

    fn plus(self, other: ReadingCount) -> ReadingCount {
        ReadingCount {
            count: self.count.saturating_add(other.count),
        }
    }

    fn times(self, other: ReadingCount) -> ReadingCount {
        ReadingCount {
            count: self.count.saturating_mul(other.count),
        }
    }

    fn value(_points: u16) -> ReadingCount {
        ReadingCount { count: 1 }
    }
}

impl ReadingCount {
    // The number. A worth in this measure is the number of readings, cut at 65,535.
    pub fn count(self) -> u16
        ensures value { result ≡ self.count }
        ensures counts { CountsReadings }
    {
        self.count
    }
}

impl Measure for FewestPoints {
    ghost NONE = { fewest_points.none };

    const NONE: FewestPoints = FewestPoints { points: 65535 };

    ghost UNIT = { fewest_points.unit };

    const UNIT: FewestPoints = FewestPoints { points: 0 };

    ghost ops = { fewest_points };

    ghost lawful = { points_laws };

    ghost none_is = { refl };

    ghost unit_is = { refl };

    fn plus(self, other: FewestPoints) -> FewestPoints {
        FewestPoints {
            points: self.points.min(other.points),
        }
    }

    fn times(self, other: FewestPoints) -> FewestPoints {
        FewestPoints {
            points: self.points.saturating_add(other.points),
        }
    }

    fn value(points: u16) -> FewestPoints {
        FewestPoints { points }
    }
}

impl FewestPoints {
    // The number. A worth in this measure is the fewest points of a reading, or 65,535.
    pub fn points(self) -> u16
        ensures value { result ≡ self.points }
        ensures fewest { FewestOfReadings }
    {
        self.points
    }
}
