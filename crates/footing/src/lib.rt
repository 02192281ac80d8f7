// How far out the ways of an accepted answer stay filled from its start.
#![tactic(auto)]

ghost use Rattle.std.specs.Prelude.{◌≡◌, ◌+◌, ◌≤◌};
ghost use Rattle.rules.specs.Walk.{vector_of, way, level};
ghost use Rattle.rules.specs.Firm.{belongs, way_of};
ghost use Rattle.laws.specs.Triples.{All};
ghost use Rattle.laws.specs.Bounds.{Bounded};

use rules::{Axis, Levels, Look, Pair, Triangle, Vector, Way};
use solid::Body;

// What every look of one footing is about: the solid with its lent bytes, the start, and of what the ways are made.
#[derive(Clone, Copy)]
pub struct Ground<'a> {
    pub body: Body<'a>,
    pub start: Vector,
    pub signs: Vector,
    pub triangle: Triangle,
    pub level: Levels,
    ghost started: { Bounded 1023 start },
    ghost signed: { Bounded 1 signs },
    ghost sized: { All (Bounded 2046) triangle },
}

// A way that doesn't stand, after so many looks.
#[derive(Clone, Copy)]
struct Ended {
    looks: u32,
}

// The last power at which all stood, 0 if at none, and the looks so far.
#[derive(Clone, Copy)]
pub struct Footed {
    pub power: u32,
    pub looks: u32,
}

// ---- the ways

// In the order in which they are looked at.
const WAYS: [Way; 12] = [
    Way::Sideways(Pair::P01),
    Way::Sideways(Pair::P02),
    Way::Sideways(Pair::P10),
    Way::Sideways(Pair::P12),
    Way::Sideways(Pair::P20),
    Way::Sideways(Pair::P21),
    Way::Along(Axis::Axis0),
    Way::Against(Axis::Axis0),
    Way::Along(Axis::Axis1),
    Way::Against(Axis::Axis1),
    Way::Along(Axis::Axis2),
    Way::Against(Axis::Axis2),
];

fn vector_of(m: Triangle, axis: Axis) -> Vector
    ensures { result ≡ vector_of m axis }
{
    axis::choose(axis, m.m0, m.m1, m.m2)
}

fn belongs(level: Levels, way: Way) -> bool
    ensures { result ≡ belongs level way }
{
    match way {
        Way::Sideways(pair) => round::takes_part(level, pair),
        Way::Along(axis) | Way::Against(axis) => round::is_level(level, axis),
    }
}

// m_l - m_k of the pair (k, l)
fn pair_way(m: Triangle, pair: Pair) -> Vector
    requires { All (Bounded 2046) m }
    ensures { result ≡ way m pair }
{
    let k = vector_of(m, round::first_of(pair));
    let l = vector_of(m, round::second_of(pair));
    space::subtract(l, k)
}

fn way_of(s: Vector, m: Triangle, way: Way) -> Vector
    requires { Bounded 1 s × All (Bounded 2046) m }
    ensures { result ≡ way_of s m way }
{
    match way {
        Way::Sideways(pair) => pair_way(m, pair),
        Way::Along(axis) => space::lay(s, axis::unit_of(axis)),
        Way::Against(axis) => space::lay(s, space::negate(axis::unit_of(axis))),
    }
}

// ---- the looks

impl Ground<'_> {
    ghost use Rattle.footing.specs.Footing.{Looked, AllLooked, FirmTo};

    // One way at one power. A voxel outside the box doesn't stand, and is not counted.
    fn look_out(&self, way: Way, power: u32, looks: u32) -> Result<u32, Ended>
        requires { (power ≤ 512) × (looks + 1 ≤ 4294967295) }
        ensures { Looked self.now way power looks result }
    {
        let u = way_of(self.signs, self.triangle, way);
        let at = space::add(self.start, space::scale(power, u));
        match self.body.look_at(at) {
            Look::Filled => Ok(looks + 1),
            Look::Empty => Err(Ended { looks: looks + 1 }),
            Look::Outside => Err(Ended { looks }),
        }
    }

    // All ways at one power, up to the first that doesn't stand.
    fn look_around(&self, power: u32, looks: u32) -> Result<u32, Ended>
        requires { (power ≤ 512) × (looks + 12 ≤ 4294967295) }
        ensures { AllLooked self.now power looks result }
    {
        let mut n = looks;
        for way in WAYS {
            if belongs(self.level, way) {
                n = self.look_out(way, power, n)?;
            }
        }
        Ok(n)
    }

    // The powers upward, from 1 to the first that is at least the reach, up to the one at which a way doesn't stand.
    pub fn firm_to(&self, reach: u32, looks: u32) -> Footed
        requires { (reach ≤ 256) × (looks + 6144 ≤ 4294967295) }
        ensures { FirmTo self.now reach looks result }
    {
        let mut last = Footed { power: 0, looks };
        let mut power: u32 = 1;
        loop {
            match self.look_around(power, last.looks) {
                Err(Ended { looks }) => return Footed { looks, ..last },
                Ok(looks) => last = Footed { power, looks },
            }
            if reach <= power {
                return last;
            }
            power *= 2;
        }
    }
}
