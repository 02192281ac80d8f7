// What goes along an axis: one of three by the axis, its unit vector, a vector's part there, and the vector with another part.
#![tactic(auto)]

ghost use Rattle.std.specs.Prelude.{◌≡◌};
ghost use Rattle.rules.specs.Walk.{unit};
ghost use Rattle.laws.specs.Parts.{part};
ghost use Rattle.axis.specs.Axes.{choose, with_part};

use rules::{Axis, Vector};

// The one of the axis, of one each for axis 0, 1, 2.
pub fn choose<T: Copy>(axis: Axis, x: T, y: T, z: T) -> T
    ensures { result ≡ choose axis x y z }
{
    match axis {
        Axis::Axis0 => x,
        Axis::Axis1 => y,
        Axis::Axis2 => z,
    }
}

pub fn unit_of(axis: Axis) -> Vector
    ensures { result ≡ unit axis }
{
    with_part(Vector { x: 0, y: 0, z: 0 }, axis, 1)
}

pub fn part_of(v: Vector, axis: Axis) -> i32
    ensures { result ≡ part axis v }
{
    choose(axis, v.x, v.y, v.z)
}

pub fn with_part(v: Vector, axis: Axis, z: i32) -> Vector
    ensures { result ≡ with_part v axis z }
{
    match axis {
        Axis::Axis0 => Vector { x: z, ..v },
        Axis::Axis1 => Vector { y: z, ..v },
        Axis::Axis2 => Vector { z, ..v },
    }
}
