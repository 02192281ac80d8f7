// What faces the finger: p and q, and of a quick touch the corners.
#![tactic(auto)]

ghost use Rattle.std.specs.Prelude.{◌≡◌};
ghost use Rattle.laws.specs.Bounds.{Bounded};
ghost use Rattle.laws.specs.Frames.{Signs};
ghost use Rattle.laws.specs.Tally.{Countable};
ghost use Rattle.falls.specs.Scene.{probe_of};
ghost use Rattle.facing.specs.Facing.{FacingAsked, CornerAt, CornerAsked, CornersAsked};

use falls::{Probe, Scene};
use rules::{Axis, Look, Refusal, Refused, Vector};

// Here and below no refusal is so many looks.

// Look at p, then, if p is filled, q.
pub fn face(probe: &Probe, p: Vector) -> Result<u32, Refused>
    ensures { FacingAsked (probe_of probe.now.scene probe.now.bytes.now) p result }
{
    let body = probe.body();
    let q = probe.scene.apex;
    match body.look_at(p) {
        Look::Outside => Err(refusals::refuse(Refusal::Edge, p, 0, 0)),
        Look::Empty => Err(refusals::refuse(Refusal::Start, p, 0, 1)),
        Look::Filled => match body.look_ranked(q, probe.scene.here) {
            Look::Outside => Err(refusals::refuse(Refusal::Edge, q, 0, 1)),
            Look::Filled => Err(refusals::refuse(Refusal::Apex, q, 0, 2)),
            Look::Empty => Ok(2),
        },
    }
}

// ---- the corners

// q less the unit vector e, laid in.
pub fn corner(scene: Scene, e: Vector) -> Vector
    requires { Bounded 1000000000 scene.apex × Signs scene.signs × Bounded 1 e }
    ensures { CornerAt scene.apex scene.signs e result }
{
    space::add(scene.apex, space::lay(scene.signs, space::negate(e)))
}

// One corner more, q less the unit vector e: refusal 11 if it isn't filled.
fn ask_corner(probe: &Probe, e: Vector, looks: u32) -> Result<u32, Refused>
    requires { Bounded 1 e × Countable 1 looks }
    ensures { CornerAsked (probe_of probe.now.scene probe.now.bytes.now) e looks result }
{
    let place = corner(probe.scene, e);
    match probe.body().look_at(place) {
        Look::Outside => Err(refusals::refuse(Refusal::Edge, place, 0, looks)),
        Look::Empty => Err(refusals::refuse(Refusal::Corner, place, 0, looks + 1)),
        Look::Filled => Ok(looks + 1),
    }
}

// Lowest first.
pub fn ask_corners(probe: &Probe, looks: u32) -> Result<u32, Refused>
    requires { Countable 3 looks }
    ensures { CornersAsked (probe_of probe.now.scene probe.now.bytes.now) looks result }
{
    let mut n = looks;
    for axis in [Axis::Axis0, Axis::Axis1, Axis::Axis2] {
        n = ask_corner(probe, axis::unit_of(axis), n)?;
    }
    Ok(n)
}
