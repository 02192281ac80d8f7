// The end of a walk: its rounds, and what was found when no pair falls.
#![tactic(auto)]

ghost use Rattle.std.specs.Prelude.{◌≡◌};
ghost use Rattle.rules.specs.Walk.{unless_level, levelled, normal, laid};
ghost use Rattle.laws.specs.Triples.{All};
ghost use Rattle.laws.specs.Bounds.{Bounded};
ghost use Rattle.laws.specs.Tally.{Countable};
ghost use Rattle.falls.specs.Scene.{probe_of};
ghost use Rattle.choice.specs.Sound.{Sound};
ghost use Rattle.walk.specs.Walk.{walk_questions};
ghost use Rattle.end.specs.End.{EndGives, WalkedToEnd};

use falls::Probe;
use rules::{Accepted, Levels, Pick, Refusal, Triangle, Vector};
use start::Begun;
use walk::End;

// The sum of the cross products.
#[tactic(auto, unfolding(rules::specs::Walk::normal))]
fn normal_of(m: Triangle) -> Vector
    requires { Sound m }
    ensures { result ≡ normal m }
{
    let a = space::cross(m.m0, m.m1);
    let b = space::cross(m.m1, m.m2);
    let c = space::cross(m.m2, m.m0);
    space::add(space::add(a, b), c)
}

// Laid into the box, or back out of it.
fn lay_triangle(s: Vector, m: Triangle) -> Triangle
    requires { Bounded 1 s × All (Bounded 1023) m }
    ensures { result ≡ laid s m }
{
    Triangle {
        m0: space::lay(s, m.m0),
        m1: space::lay(s, m.m1),
        m2: space::lay(s, m.m2),
    }
}

fn unless_level(level: bool, z: i32) -> i32
    ensures { result ≡ unless_level level z }
{
    if level { 0 } else { z }
}

// The component of a level axis is 0.
#[tactic(auto, unfolding(rules::specs::Walk::levelled))]
fn level_out(level: Levels, n: Vector) -> Vector
    requires { Bounded 1000000000 n }
    ensures { result ≡ levelled level n }
{
    Vector {
        x: unless_level(level.x, n.x),
        y: unless_level(level.y, n.y),
        z: unless_level(level.z, n.z),
    }
}

// No pair falls. The triangle comes laid in.
fn end_walk(probe: &Probe, level: Levels, end: End) -> Pick
    requires { Sound (laid probe.now.scene.signs end.triangle) }
    ensures { EndGives probe.now.scene level end result }
{
    let scene = probe.scene;
    let frame = lay_triangle(scene.signs, end.triangle);
    let whole = normal_of(frame);
    let n = level_out(level, whole);
    if space::size(n) > scene.reach {
        return Err(refusals::refuse(Refusal::Sum, scene.apex, end.steps, end.looks));
    }
    let laid = space::lay(scene.signs, n);
    Ok(Accepted {
        normal: laid,
        triangle: end.triangle,
        apex: scene.apex,
        steps: end.steps,
        looks: end.looks,
    })
}

// The rounds and the end, with the level axes known.
pub fn walk_to_end(probe: &Probe, begun: Begun) -> Pick
    requires { Countable walk_questions begun.looks }
    ensures { WalkedToEnd (probe_of probe.now.scene probe.now.bytes.now) probe.now.scene.reach begun.level begun.looks result }
{
    let end = walk::walk_on(probe, begun.level, begun.looks)?;
    end_walk(probe, begun.level, end)
}
