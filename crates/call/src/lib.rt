// One call: a pick, a quick touch, a start check or a walk from a ready start. What is refused, in order, and the walk.
#![tactic(auto)]

ghost use Rattle.std.specs.Prelude.{◌≡◌, ◌≤◌};
ghost use Rattle.laws.specs.Tally.{Countable};
ghost use Rattle.falls.specs.Scene.{probe_of};
ghost use Rattle.walk.specs.Walk.{walk_questions};
ghost use Rattle.call.specs.Numbers.{is_stack, numbers_of, height_of, solid_of};
ghost use Rattle.call.specs.Calls.{begin_of, readied_as, RoundsBegun, end_of, CallMade};

use falls::Probe;
use inputs::Begin;
use rules::{Accepted, ReadyStart, Refusal, Refused, Solid, Stack, Vector, Wedge};
use start::Begun;

// What is asked: a pick, a quick touch or a check of a start, or a walk from a ready start.
#[derive(Clone, Copy)]
pub enum Call {
    Pick(Vector),
    Touch(Vector),
    Check(Vector),
    Walk(ReadyStart),
}

// What a call finds. Only a check finds a ready start.
#[derive(Clone, Copy)]
pub enum Found {
    Ready(ReadyStart),
    Accepted(Accepted),
}

impl From<Call> for Begin {
    ghost from_gives = { λ call begin. begin ≡ begin_of call };

    fn from(call: Call) -> Begin {
        match call {
            Call::Pick(p) => Begin::Asked(false, p),
            Call::Touch(p) => Begin::Asked(true, p),
            Call::Check(p) => Begin::Asked(false, p),
            Call::Walk(d) => Begin::Handed(d),
        }
    }
}

// Refusal 13.
fn judge_ready(d: ReadyStart, reach: u32) -> Result<Begun, Refused>
    requires { reach ≤ 256 }
    ensures { result ≡ readied_as reach d }
{
    if ready::is_ready(d, reach) {
        return Ok(Begun {
            level: d.level,
            looks: d.looks,
        });
    }
    let origin = Vector { x: 0, y: 0, z: 0 };
    Err(refusals::refuse(Refusal::Ready, origin, 0, 0))
}

// A start is asked; a ready start is judged, and asked no more.
fn begin_rounds(begin: Begin, probe: &Probe) -> Result<Begun, Refused>
    ensures { RoundsBegun begin (probe_of probe.now.scene probe.now.bytes.now) probe.now.scene.reach result }
{
    match begin {
        Begin::Asked(quick, p) => start::start_at(quick, probe, p),
        Begin::Handed(d) => judge_ready(d, probe.scene.reach),
    }
}

// A check ends with its ready start, the others walk to the end.
fn end_call(call: Call, probe: &Probe, begun: Begun) -> Result<Found, Refused>
    requires { Countable walk_questions begun.looks }
    ensures { result ≡ end_of call probe.now.scene probe.now.bytes.now begun }
{
    if let Call::Check(p) = call {
        return Ok(Found::Ready(ReadyStart {
            start: p,
            apex: probe.scene.apex,
            level: begun.level,
            looks: begun.looks,
        }));
    }
    let accepted = end::walk_to_end(probe, begun)?;
    Ok(Found::Accepted(accepted))
}

// ---- a solid's numbers, the same for both kinds

fn is_stack(solid: Solid) -> bool
    ensures { result ≡ is_stack solid }
{
    matches!(solid, Solid::Stack(_))
}

// A wedge's a, b and c, or a stack's sizes.
fn numbers_of(solid: Solid) -> Vector
    ensures { result ≡ numbers_of solid }
{
    match solid {
        Solid::Wedge(w) => Vector {
            x: w.a,
            y: w.b,
            z: w.c,
        },
        Solid::Stack(k) => Vector {
            x: k.width,
            y: k.height,
            z: k.depth,
        },
    }
}

// A wedge's h; a stack has none.
fn height_of(solid: Solid) -> i32
    ensures { result ≡ height_of solid }
{
    match solid {
        Solid::Wedge(w) => w.h,
        Solid::Stack(_) => 0,
    }
}

fn solid_of(stack: bool, n: Vector, h: i32) -> Solid
    ensures { result ≡ solid_of stack n h }
{
    if stack {
        return Solid::Stack(Stack {
            width: n.x,
            height: n.y,
            depth: n.z,
        });
    }
    Solid::Wedge(Wedge {
        a: n.x,
        b: n.y,
        c: n.z,
        h,
    })
}

// ---- the call

// The inputs are judged, then the start, the rounds and the end. A quick touch is the same from another start, at power 1 alone; a check ends before the rounds, and a walk from a ready start begins with them.
fn answer(call: Call, solid: Solid, bytes: &[u8], frame: i32, reach: i32) -> Result<Found, Refused>
    ensures { CallMade call solid bytes.now frame reach result }
{
    let begin = Begin::from(call);
    let probe = inputs::judge(begin, solid, bytes, frame, reach)?;
    let begun = begin_rounds(begin, &probe)?;
    end_call(call, &probe, begun)
}

// One function for all four: of two each part is compiled as a function of its own, and a pick takes 65 ns longer. The solid is made anew of its numbers, each read as it was written: copied whole it is read in larger pieces, which wait.
pub fn make_call(
    call: Call,
    solid: Solid,
    bytes: &[u8],
    frame: i32,
    reach: i32,
) -> Result<Found, Refused>
    ensures { CallMade call solid bytes.now frame reach result }
{
    let stack = is_stack(solid);
    let n = numbers_of(solid);
    let h = height_of(solid);
    answer(call, solid_of(stack, n, h), bytes, frame, reach)
}
