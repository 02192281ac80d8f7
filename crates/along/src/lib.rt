// Whether a unit vector laid in, or minus it, falls.
#![tactic(auto)]

ghost use Rattle.std.specs.Prelude.{◌≡◌};
ghost use Rattle.integers.specs.Sizes.{Within};
ghost use Rattle.laws.specs.Frames.{Signs};
ghost use Rattle.laws.specs.Tally.{Countable};
ghost use Rattle.solid.specs.Grid.{GridRanks};
ghost use Rattle.falls.specs.Scene.{probe_of};
ghost use Rattle.falls.specs.Falls.{Fallen};
ghost use Rattle.along.specs.Lines.{turned_line, way_along, Along, LineOf};

use falls::{Falls, Outside, Probe, Scene};
use rules::{Axis, Look};

// A unit vector laid in, or minus it: its axis, the side of the box and the apex's part along it, its own part there and its rank.
#[derive(Clone, Copy)]
pub struct Line {
    pub axis: Axis,
    pub side: u16,
    pub from: i32,
    pub step: i32,
    pub rise: i32,
}

// An axis's unit vector.
pub fn line_of(scene: Scene, axis: Axis) -> Line
    requires { GridRanks scene.grid × Signs scene.signs }
    ensures { LineOf scene axis result }
{
    let Scene {
        apex,
        signs,
        grid,
        ..
    } = scene;
    let side = grid.side_of(axis);
    let from = axis::part_of(apex, axis);
    let step = axis::part_of(signs, axis);
    let rise = step * axis::part_of(grid.ranks, axis);
    Line {
        axis,
        side,
        from,
        step,
        rise,
    }
}

// Its opposite.
pub fn turn(line: Line) -> Line
    requires { Within 1000000000 line.step × Within 1000000000 line.rise }
    ensures { result ≡ turned_line line }
{
    Line {
        step: -line.step,
        rise: -line.rise,
        ..line
    }
}

// Whether a line's vector falls. Its points are the apex but for their part along the axis, so that one side of the box is asked.
pub fn ask_along(probe: &Probe<'_>, line: Line, looks: u32) -> Falls
    requires { Along probe.now.scene line × Countable 1 looks }
    ensures { Fallen (probe_of probe.now.scene probe.now.bytes.now) (way_along line) looks result }
{
    let body = probe.body();
    let Scene {
        apex,
        here,
        span,
        ..
    } = probe.scene;
    let Line {
        axis,
        side,
        from,
        ..
    } = line;
    let mut at = from + line.step;
    let mut rank = here + line.rise;
    let mut power: u32 = 1;
    let mut n = looks;
    loop {
        match body.look_along(side, apex, axis, at, rank) {
            Look::Outside => {
                break Falls::Stopped(Outside {
                    place: axis::with_part(apex, axis, at),
                    looks: n,
                });
            }
            Look::Filled => {
                break Falls::Fell(n + 1);
            }
            Look::Empty => {
                n += 1;
                if span <= power {
                    break Falls::Kept(n);
                }
                power += power;
                at += at - from;
                rank += rank - here;
            }
        }
    }
}
