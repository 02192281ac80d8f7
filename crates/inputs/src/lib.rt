// The inputs are judged: refusals 1 to 4.
#![tactic(auto)]

ghost use Rattle.std.specs.Prelude.{◌≡◌, ◌≤◌};
ghost use Rattle.rules.specs.Walk.{sign, signs};
ghost use Rattle.rules.specs.Refusals.{number_of};
ghost use Rattle.laws.specs.Bounds.{Bounded};
ghost use Rattle.inputs.specs.Inputs.{start_of, apex_of, span_of, Ensured, PlacesJudged, InputsJudged};

use falls::{Probe, Scene};
use rules::{ReadyStart, Refusal, Refused, Solid, Vector};
use solid::Body;

// From where the rounds begin: a start p that is asked, quickly or not; or a ready start, which is asked no more.
#[derive(Clone, Copy)]
pub enum Begin {
    Asked(bool, Vector),
    Handed(ReadyStart),
}

// ---- frames

fn sign_of(bit: u32) -> i32
    ensures { result ≡ sign bit }
{
    if bit == 0 { 1 } else { -1 }
}

pub fn signs_of(frame: u32) -> Vector
    ensures { result ≡ signs frame }
{
    Vector {
        x: sign_of(frame % 2),
        y: sign_of(frame / 2 % 2),
        z: sign_of(frame / 4 % 2),
    }
}

// ---- where the rounds begin

fn start_of(begin: Begin) -> Vector
    ensures { result ≡ start_of begin }
{
    match begin {
        Begin::Asked(_, p) => p,
        Begin::Handed(d) => d.start,
    }
}

// q = p + s, or the apex that was handed.
fn apex_of(begin: Begin, s: Vector) -> Vector
    requires { Bounded 1000000000 (start_of begin) × Bounded 1000000000 s }
    ensures { result ≡ apex_of begin s }
{
    match begin {
        Begin::Asked(_, p) => space::add(p, s),
        Begin::Handed(d) => d.apex,
    }
}

// Of a quick touch a direction falls only if power 1 is filled.
fn span_of(begin: Begin, reach: u32) -> u32
    ensures { result ≡ span_of begin reach }
{
    match begin {
        Begin::Asked(quick, _) => { if quick { 1 } else { reach } }
        Begin::Handed(_) => reach,
    }
}

// ---- refusals

// Go on if the test holds; nothing was looked at yet.
fn ensure(test: bool, why: Refusal, place: Vector) -> Result<(), Refused>
    ensures { Ensured test (number_of why) place result }
{
    if test {
        Ok(())
    } else {
        Err(refusals::refuse(why, place, 0, 0))
    }
}

// Refusal 4: the start is judged before the apex is formed.
fn judge_places<'a>(
    begin: Begin,
    body: Body<'a>,
    frame: u32,
    reach: u32,
) -> Result<Probe<'a>, Refused>
    requires { reach ≤ 256 }
    ensures { PlacesJudged begin body.entry.solid body.entry.bytes.now frame reach result }
{
    let p = start_of(begin);
    ensure(body.is_inside(p), Refusal::Place, p)?;
    let signs = signs_of(frame);
    let q = apex_of(begin, signs);
    ensure(body.is_inside(q), Refusal::Place, q)?;
    let scene = Scene {
        solid: body.solid,
        grid: body.grid,
        apex: q,
        here: body.rank_of(q),
        signs,
        span: span_of(begin, reach),
        reach,
    };
    Ok(Probe {
        scene,
        bytes: body.bytes,
    })
}

pub fn judge<'a>(
    begin: Begin,
    solid: Solid,
    bytes: &'a [u8],
    frame: i32,
    reach: i32,
) -> Result<Probe<'a>, Refused>
    ensures { InputsJudged begin solid bytes.now frame reach result }
{
    let origin = Vector { x: 0, y: 0, z: 0 };
    ensure(range::is_between(1, reach, 256), Refusal::Reach, origin)?;
    ensure(range::is_between(0, frame, 7), Refusal::Frame, origin)?;
    ensure(solid::is_permitted(solid, bytes), Refusal::Solid, origin)?;
    judge_places(
        begin,
        solid::body_of(solid, bytes),
        frame as u32,
        reach as u32,
    )
}
