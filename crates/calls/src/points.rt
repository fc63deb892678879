// Named points.
ghost use Rattle.std.specs.Prelude.{◌≡◌};
ghost use Rattle.calls.specs.represent.Points.{counts_in, counts_numbers};

/// A point has three numbers.
pub const POINT_WIDTH: usize = 3;

pub const MAX_POINTS: usize = 8;

/// A point: its name, and how many rows and steps were held when it was set.
#[derive(Clone, Copy, Debug, PartialEq, Eq)]
pub struct PointCounts {
    pub name: u16,
    pub rows: u16,
    pub steps: u16,
}

impl From<[u16; POINT_WIDTH]> for PointCounts {
    ghost from_gives = { λ numbers point. point ≡ counts_in numbers };

    fn from([name, rows, steps]: [u16; POINT_WIDTH]) -> PointCounts {
        PointCounts { name, rows, steps }
    }
}

impl From<PointCounts> for [u16; POINT_WIDTH] {
    ghost from_gives = { λ point numbers. numbers ≡ counts_numbers point };

    fn from(point: PointCounts) -> [u16; POINT_WIDTH] {
        [point.name, point.rows, point.steps]
    }
}
