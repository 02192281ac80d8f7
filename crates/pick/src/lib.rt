// The pick, the quick touch, the start check and the walk from a ready start, of any solid with its lent bytes; a wedge has none.
#![tactic(auto)]

ghost use Rattle.std.specs.Prelude.{◌≡◌};
ghost use Rattle.rules.specs.Pick.{PickPromise};
ghost use Rattle.rules.specs.Touch.{marked, TouchPromise};
ghost use Rattle.rules.specs.TwoCalls.{CheckPromise, WalkPromise};
ghost use Rattle.call.specs.Calls.{EndsPick, EndsCheck, walked, checked};
ghost use Rattle.pick.specs.Ends.{Picks, picked};

use call::{Call, Found};
use rules::{Check, Guess, Pick, ReadyStart, Refused, Solid, Touch, Vector};

// No pick, touch or walk comes to a ready start.
fn as_pick(found: Result<Found, Refused>) -> Pick
    requires { EndsPick found }
    ensures { found ≡ walked result }
{
    match found? {
        Found::Accepted(a) => Ok(a),
        Found::Ready(_) => unreachable!(),
    }
}

// No check accepts.
fn as_check(found: Result<Found, Refused>) -> Check
    requires { EndsCheck found }
    ensures { found ≡ checked result }
{
    match found? {
        Found::Ready(d) => Ok(d),
        Found::Accepted(_) => unreachable!(),
    }
}

// A call of a pick, a touch or a walk.
fn pick_by(call: Call, solid: Solid, bytes: &[u8], frame: i32, reach: i32) -> Pick
    requires { Picks call }
    ensures { result ≡ picked call solid bytes.now frame reach }
{
    as_pick(call::make_call(call, solid, bytes, frame, reach))
}

pub fn pick_solid(solid: Solid, bytes: &[u8], p: Vector, frame: i32, reach: i32) -> Pick
    ensures { PickPromise solid bytes.now p frame reach result }
{
    pick_by(Call::Pick(p), solid, bytes, frame, reach)
}

// An accepted answer is a guess.
#[tactic(auto, unfolding(rules::specs::Touch::marked))]
fn as_touch(answer: Pick) -> Touch
    ensures { result ≡ marked answer }
{
    let answer = answer?;
    Ok(Guess { answer })
}

#[tactic(auto, unfolding(rules::specs::Touch::touch_of))]
pub fn touch_solid(solid: Solid, bytes: &[u8], p: Vector, frame: i32, reach: i32) -> Touch
    ensures { TouchPromise solid bytes.now p frame reach result }
{
    as_touch(pick_by(Call::Touch(p), solid, bytes, frame, reach))
}

pub fn check_solid(solid: Solid, bytes: &[u8], p: Vector, frame: i32, reach: i32) -> Check
    ensures { CheckPromise solid bytes.now p frame reach result }
{
    as_check(call::make_call(Call::Check(p), solid, bytes, frame, reach))
}

pub fn walk_solid(solid: Solid, bytes: &[u8], d: ReadyStart, frame: i32, reach: i32) -> Pick
    ensures { WalkPromise solid bytes.now d frame reach result }
{
    pick_by(Call::Walk(d), solid, bytes, frame, reach)
}
