// How firm the footing of a pick's answer is, on any solid.
#![tactic(auto)]

ghost use Rattle.std.specs.Prelude.{◌≡◌, true, ◌+◌, ◌≤◌, ◌-ℤ◌};
ghost use Rattle.rules.specs.Vectors.{origin};
ghost use Rattle.rules.specs.Solids.{look};
ghost use Rattle.rules.specs.Lean.{measurable};
ghost use Rattle.rules.specs.Refusals.{number_of};
ghost use Rattle.rules.specs.Firm.{held, start_under, FirmPromise};
ghost use Rattle.laws.specs.Bounds.{Bounded};
ghost use Rattle.solid.specs.Asks.{InBoxOf};
ghost use Rattle.refusals.specs.Refusals.{refusal_of};
ghost use Rattle.firm.specs.Firm.{filled_as, StartFaced, StartCleared, StoodOn, FirmFrom, FirmUnder, FirmOf};

use footing::Ground;
use rules::{Accepted, Firm, Footing, Look, Pick, Refusal, Refused, Solid, Vector};
use solid::Body;

// ---- the start

// x - sign, held to 32 bits: any apex may be handed.
#[tactic(auto, using(crate::proofs::Starts::holding))]
fn hold(x: i32, sign: i32) -> i32
    ensures { result ≡ held (x -ℤ sign) }
{
    x.saturating_sub(sign)
}

// p = q - s.
#[tactic(auto, unfolding(rules::specs::Firm::start_under))]
fn start_under(q: Vector, s: Vector) -> Vector
    ensures { result ≡ start_under q s }
{
    Vector {
        x: hold(q.x, s.x),
        y: hold(q.y, s.y),
        z: hold(q.z, s.z),
    }
}

// ---- refusals

// At no place, before any look.
fn refuse(why: Refusal) -> Refused
    ensures { result ≡ refusal_of (number_of why) origin 0 0 }
{
    refusals::refuse(why, Vector { x: 0, y: 0, z: 0 }, 0, 0)
}

fn is_filled(body: &Body, v: Vector) -> bool
    ensures { result ≡ filled_as (look body.now.solid body.now.bytes.now v) }
{
    matches!(body.look_at(v), Look::Filled)
}

// Refusal 5 after a look at p, 6 after one more at q.
fn face(body: &Body, p: Vector, q: Vector) -> Result<u32, Refused>
    requires { InBoxOf body.now.solid p × InBoxOf body.now.solid q }
    ensures { StartFaced body.now.solid body.now.bytes.now p q result }
{
    if !is_filled(body, p) {
        return Err(refusals::refuse(Refusal::Start, p, 0, 1));
    }
    if is_filled(body, q) {
        return Err(refusals::refuse(Refusal::Apex, q, 0, 2));
    }
    Ok(2)
}

// Refusal 4 at p, else at q, before they are looked at.
fn clear(body: &Body, p: Vector, q: Vector) -> Result<u32, Refused>
    ensures { StartCleared body.now.solid body.now.bytes.now p q result }
{
    if !body.is_inside(p) {
        return Err(refusals::refuse(Refusal::Place, p, 0, 0));
    }
    if !body.is_inside(q) {
        return Err(refusals::refuse(Refusal::Place, q, 0, 0));
    }
    face(body, p, q)
}

// ---- the footing

// The last power at which all ways stand, and the bound at it.
fn stand_on(ground: &Ground, a: Accepted, reach: u32, looks: u32) -> Footing
    requires { (measurable a ≡ true) × (reach ≤ 256) × (looks + 6144 ≤ 4294967295) }
    ensures { StoodOn ground.now a reach looks result }
{
    let footed = ground.firm_to(reach, looks);
    Footing {
        power: footed.power,
        looks: footed.looks,
        bound: lean::bound_at(footed.power, a),
    }
}

// Of an accepted answer that can be measured, from the start p.
fn firm_from(body: &Body, a: Accepted, s: Vector, p: Vector, reach: u32) -> Firm
    requires { (measurable a ≡ true) × Bounded 1 s × (reach ≤ 256) }
    ensures { FirmFrom body.now.solid body.now.bytes.now a s p reach result }
{
    let looks = clear(body, p, a.apex)?;
    let ground = Ground {
        body: *body,
        start: p,
        signs: s,
        triangle: a.triangle,
        level: lean::levels_of(a.normal),
    };
    Ok(stand_on(&ground, a, reach, looks))
}

// Of an accepted answer, from the start under its apex.
fn firm_under(body: &Body, a: Accepted, frame: u32, reach: u32) -> Firm
    requires { reach ≤ 256 }
    ensures { FirmUnder body.now.solid body.now.bytes.now a frame reach result }
{
    if !lean::is_measurable(a) {
        return Err(refuse(Refusal::Measure));
    }
    let s = inputs::signs_of(frame);
    firm_from(body, a, s, start_under(a.apex, s), reach)
}

// A refused pick has no footing.
fn firm_of(body: &Body, answer: Pick, frame: u32, reach: u32) -> Firm
    requires { reach ≤ 256 }
    ensures { FirmOf body.now.solid body.now.bytes.now answer frame reach result }
{
    match answer {
        Ok(a) => firm_under(body, a, frame, reach),
        Err(_) => Err(refuse(Refusal::Measure)),
    }
}

// Of any answer: refusals 1, 2 and 3 as a pick's, then 35.
fn firm_on(solid: Solid, bytes: &[u8], answer: Pick, frame: i32, reach: i32) -> Firm
    ensures { FirmPromise solid bytes.now answer frame reach result }
{
    if !range::is_between(1, reach, 256) {
        return Err(refuse(Refusal::Reach));
    }
    if !range::is_between(0, frame, 7) {
        return Err(refuse(Refusal::Frame));
    }
    if !solid::is_permitted(solid, bytes) {
        return Err(refuse(Refusal::Solid));
    }
    let body = solid::body_of(solid, bytes);
    firm_of(&body, answer, frame.unsigned_abs(), reach.unsigned_abs())
}

// Apart from firm_on, so that an edit can be wrong on one solid alone.
pub fn firm_solid(solid: Solid, bytes: &[u8], answer: Pick, frame: i32, reach: i32) -> Firm
    ensures { FirmPromise solid bytes.now answer frame reach result }
{
    firm_on(solid, bytes, answer, frame, reach)
}
