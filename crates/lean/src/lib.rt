// Known lean: how far the face can lean from an accepted normal, told by the answer itself.
#![tactic(auto)]

ghost use Rattle.std.specs.Prelude.{◌≡◌, true, ◌≤◌};
ghost use Rattle.rules.specs.Lean.{within, levels_of, measurable, squared, spread, last_power, bound_at, LeanPromise};
ghost use Rattle.laws.specs.Triples.{All};
ghost use Rattle.laws.specs.Bounds.{Bounded};
ghost use Rattle.lean.specs.Sides.{Side};

use rules::{Accepted, Bound, Lean, Levels, Pick, Refusal, RefusedInput, Triangle, Vector};

// ---- what can be measured

#[tactic(auto, unfolding(rules::specs::Lean::within))]
fn is_within(most: u32, v: Vector) -> bool
    ensures { result ≡ within most v }
{
    v.x.unsigned_abs() <= most && v.y.unsigned_abs() <= most && v.z.unsigned_abs() <= most
}

// An axis is level exactly if the normal's part along it is 0.
pub fn levels_of(n: Vector) -> Levels
    ensures { result ≡ levels_of n }
{
    Levels {
        x: n.x == 0,
        y: n.y == 0,
        z: n.z == 0,
    }
}

#[tactic(auto, unfolding(rules::specs::Lean::measurable, rules::specs::Walk::all_level))]
pub fn is_measurable(a: Accepted) -> bool
    ensures { result ≡ measurable a }
{
    let Triangle { m0, m1, m2 } = a.triangle;
    let level = levels_of(a.normal);
    let zeros = level.x && level.y && level.z;
    is_within(256, a.normal)
        && is_within(2046, m0)
        && is_within(2046, m1)
        && is_within(2046, m2)
        && !zeros
}

// ---- the spread S

#[tactic(auto, unfolding(rules::specs::Lean::squared))]
fn squared(v: Vector) -> u32
    requires { Bounded 4092 v }
    ensures { result ≡ squared v }
{
    space::dot(v, v).unsigned_abs()
}

// The squared side from k to l, 0 if it takes no part.
fn side(part: bool, k: Vector, l: Vector) -> u32
    requires { Bounded 2046 k × Bounded 2046 l }
    ensures { Side part k l result }
{
    if part {
        squared(space::subtract(l, k))
    } else {
        0
    }
}

fn spread_of(level: Levels, m: Triangle) -> u32
    requires { All (Bounded 2046) m }
    ensures { result ≡ spread level m }
{
    let Levels { x, y, z } = level;
    let a = side(!x & !y, m.m0, m.m1);
    let b = side(!x & !z, m.m0, m.m2);
    let c = side(!y & !z, m.m1, m.m2);
    let axes = x as u32 + y as u32 + z as u32;
    a.max(b.max(c)) + axes
}

// ---- the last power L

// The powers are 1, 2, 4, .. up to the first that is at least the reach.
fn last_power(reach: u32) -> u32
    requires { reach ≤ 256 }
    ensures { result ≡ last_power reach }
{
    reach.next_power_of_two()
}

// ---- the bound

// The sizes were judged before, so the products fit.
#[tactic(auto, unfolding(rules::specs::Lean::bound_at))]
pub fn bound_at(power: u32, a: Accepted) -> Bound
    requires { (measurable a ≡ true) × (power ≤ 512) }
    ensures { result ≡ bound_at power a }
{
    let spread = spread_of(levels_of(a.normal), a.triangle) as u64;
    let square = squared(a.normal) as u64;
    let power = power as u64;
    Bound {
        part: 3 * spread,
        whole: power * power * square,
    }
}

#[tactic(auto, using(crate::proofs::Knowing::promised))]
pub fn known_lean(answer: Pick, reach: i32) -> Lean
    ensures { LeanPromise answer reach result }
{
    match answer {
        Ok(a) if range::is_between(1, reach, 256) && is_measurable(a) => {
            Ok(bound_at(last_power(reach.unsigned_abs()), a))
        }
        _ => Err(RefusedInput {
            number: Refusal::Measure as u32,
        }),
    }
}
