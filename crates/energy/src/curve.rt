// Curves: the share of a service's quantity that a deviation calls for.
ghost use Rattle.std.specs.Prelude.{◌≡◌};
ghost use Rattle.energy.specs.Curve.{points_of, in_range, rises, curve_rule, curves_rule, regulation_curve, containment_curve};

use common::{LinePoint, is_line};
use terms::Services;

#[derive(Clone, Copy, Debug, Default, PartialEq, Eq)]
pub struct Point {
    pub deviation: u16,
    pub share: u16,
}

impl LinePoint for Point {
    ghost in_range = { in_range };

    ghost rises = { rises };

    fn is_in_range(self) -> bool {
        (self.deviation <= 3000) & (self.share <= 1000)
    }

    fn rises_to(self, next: Point) -> bool {
        (self.deviation < next.deviation) & (self.share <= next.share)
    }
}

// Points past the count are ignored.
#[derive(Clone, Copy, Default)]
pub struct Curve {
    pub count: u8,
    pub points: [Point; 5],
}

impl Curve {
    // The points that are counted.
    pub fn points(&self) -> &[Point]
        ensures { result.now ≡ points_of self.now }
    {
        &self.points[..usize::from(self.count).min(5)]
    }
}

// One curve for each service, for both directions.
pub type Curves = Services<Curve>;

const UNUSED: Point = Point {
    deviation: 0,
    share: 0,
};

// The stock curves; they are not official bounds.
pub const REGULATION: Curve = Curve {
    count: 2,
    points: [
        Point {
            deviation: 15,
            share: 0,
        },
        Point {
            deviation: 200,
            share: 1000,
        },
        UNUSED,
        UNUSED,
        UNUSED,
    ],
};

pub const CONTAINMENT: Curve = Curve {
    count: 3,
    points: [
        Point {
            deviation: 15,
            share: 0,
        },
        Point {
            deviation: 200,
            share: 50,
        },
        Point {
            deviation: 500,
            share: 1000,
        },
        UNUSED,
        UNUSED,
    ],
};

pub fn regulation_curve() -> Curve
    ensures { result ≡ regulation_curve }
{
    REGULATION
}

pub fn containment_curve() -> Curve
    ensures { result ≡ containment_curve }
{
    CONTAINMENT
}

// Whether a curve keeps its rule, for any bits.
pub fn curve_holds(curve: Curve) -> bool
    ensures { result ≡ curve_rule curve }
{
    let count = curve.count;
    if count < 2 || 5 < count {
        return false;
    }
    let points = curve.points();
    (points[0].share == 0) & is_line(points[0], &points[1..])
}

pub fn curves_hold(curves: Curves) -> bool
    ensures { result ≡ curves_rule curves }
{
    curve_holds(curves.dc) & curve_holds(curves.dm) & curve_holds(curves.dr)
}
