// The start: p, q and the axes, or the corners.
#![tactic(auto)]

ghost use Rattle.std.specs.Prelude.{◌≡◌};
ghost use Rattle.rules.specs.Walk.{unit};
ghost use Rattle.laws.specs.Tally.{Countable};
ghost use Rattle.refusals.specs.Refusals.{refusal_of};
ghost use Rattle.falls.specs.Scene.{probe_of};
ghost use Rattle.falls.specs.Falls.{falls_looks};
ghost use Rattle.along.specs.Lines.{LineIn};
ghost use Rattle.start.specs.Start.{Opposed, MinusAsked, OppositeAsked, AxisJudged, LevelsJudged, with_level, AxesAsked, quickly, Started};

use along::Line;
use falls::{Falls, Outside, Probe};
use rules::{Axis, Levels, Refusal, Refused, Vector};

// Whether an axis is level, after so many looks.
#[derive(Clone, Copy)]
struct AxisTold {
    level: bool,
    looks: u32,
}

// p is filled, q is not and some axis is not level: which are level, after so many looks.
#[derive(Clone, Copy)]
pub struct Begun {
    pub level: Levels,
    pub looks: u32,
}

const NONE: Levels = Levels {
    x: false,
    y: false,
    z: false,
};

// ---- one axis

// Refusal 7: q less an axis's unit vector, laid in.
fn refuse_axis(probe: &Probe, axis: Axis, looks: u32) -> Refused
    ensures { Opposed probe.now.scene.apex probe.now.scene.signs (unit axis) looks result }
{
    let place = facing::corner(probe.scene, axis::unit_of(axis));
    refusals::refuse(Refusal::Axis, place, 0, looks)
}

fn refuse_edge(outside: Outside) -> Refused
    ensures { result ≡ refusal_of 8 outside.place 0 outside.looks }
{
    refusals::refuse(Refusal::Edge, outside.place, 0, outside.looks)
}

// Whether minus the unit vector of a line's axis falls.
fn ask_minus(probe: &Probe, line: Line, looks: u32) -> Falls
    requires { LineIn probe.now.scene line × Countable 1 looks }
    ensures { MinusAsked (probe_of probe.now.scene probe.now.bytes.now) (unit line.axis) looks result }
{
    along::ask_along(probe, along::turn(line), looks)
}

// Minus the unit vector doesn't fall, so its opposite is asked too: refusal 7 if that falls, else the axis is level.
fn ask_opposite(probe: &Probe, line: Line, looks: u32) -> Result<AxisTold, Refused>
    requires { LineIn probe.now.scene line × Countable 1 looks }
    ensures { OppositeAsked (probe_of probe.now.scene probe.now.bytes.now) (unit line.axis) looks result }
{
    match along::ask_along(probe, line, looks) {
        Falls::Fell(looks) => Err(refuse_axis(probe, line.axis, looks)),
        Falls::Kept(looks) => Ok(AxisTold { level: true, looks }),
        Falls::Stopped(outside) => Err(refuse_edge(outside)),
    }
}

// Whether the axis of a line is level, once minus its unit vector was asked.
fn judge_axis(probe: &Probe, line: Line, asked: Falls) -> Result<AxisTold, Refused>
    requires { LineIn probe.now.scene line × Countable 1 (falls_looks asked) }
    ensures { AxisJudged (probe_of probe.now.scene probe.now.bytes.now) (unit line.axis) asked result }
{
    match asked {
        Falls::Fell(looks) => Ok(AxisTold {
            level: false,
            looks,
        }),
        Falls::Kept(looks) => ask_opposite(probe, line, looks),
        Falls::Stopped(outside) => Err(refuse_edge(outside)),
    }
}

// ---- the three axes

// The levels with one axis told.
fn with_level(level: Levels, axis: Axis, is: bool) -> Levels
    ensures { result ≡ with_level level axis is }
{
    match axis {
        Axis::Axis0 => Levels { x: is, ..level },
        Axis::Axis1 => Levels { y: is, ..level },
        Axis::Axis2 => Levels { z: is, ..level },
    }
}

// Refusal 7, with the place as for axis 0, if all three are level.
fn judge_levels(probe: &Probe, begun: Begun) -> Result<Begun, Refused>
    ensures { LevelsJudged probe.now.scene.apex probe.now.scene.signs begun.level begun.looks result }
{
    let level = begun.level;
    if level.x & (level.y & level.z) {
        Err(refuse_axis(probe, Axis::Axis0, begun.looks))
    } else {
        Ok(begun)
    }
}

// In a loop and not written out three times: a typical check takes about a quarter less.
fn ask_axes(probe: &Probe, looks: u32) -> Result<Begun, Refused>
    requires { Countable 6 looks }
    ensures { AxesAsked (probe_of probe.now.scene probe.now.bytes.now) looks result }
{
    let mut begun = Begun { level: NONE, looks };
    for axis in [Axis::Axis0, Axis::Axis1, Axis::Axis2] {
        let line = along::line_of(probe.scene, axis);
        let asked = ask_minus(probe, line, begun.looks);
        let told = judge_axis(probe, line, asked)?;
        begun = Begun {
            level: with_level(begun.level, axis, told.level),
            looks: told.looks,
        };
    }
    judge_levels(probe, begun)
}

// ---- the start

// The corners are filled: no axis is level.
fn start_quickly(cleared: Result<u32, Refused>) -> Result<Begun, Refused>
    ensures { result ≡ quickly cleared }
{
    let looks = cleared?;
    Ok(Begun { level: NONE, looks })
}

// p and q, then the axes; of a quick touch the corners instead.
pub fn start_at(quick: bool, probe: &Probe, p: Vector) -> Result<Begun, Refused>
    ensures { Started quick (probe_of probe.now.scene probe.now.bytes.now) p result }
{
    let looks = facing::face(probe, p)?;
    if quick {
        start_quickly(facing::ask_corners(probe, looks))
    } else {
        ask_axes(probe, looks)
    }
}
