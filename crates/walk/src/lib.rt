// The walk: rounds and steps until no pair falls.
#![tactic(auto)]

ghost use Rattle.std.specs.Prelude.{◌≡◌, length};
ghost use Rattle.rules.specs.Walk.{remaining};
ghost use Rattle.laws.specs.Bounds.{Bounded};
ghost use Rattle.laws.specs.Frames.{Signs};
ghost use Rattle.laws.specs.Tally.{Countable};
ghost use Rattle.falls.specs.Scene.{probe_of};
ghost use Rattle.walk.specs.Walk.{Units, walk_questions, allowed, Walks};

use falls::Probe;
use round::Corner;
use rules::{Levels, Refusal, Refused, Triangle, Vector};

// No pair falls: the triangle laid in, the steps and the looks.
#[derive(Clone, Copy)]
pub struct End {
    pub triangle: Triangle,
    pub steps: u32,
    pub looks: u32,
}

// The unit vectors laid in, with their ranks.
fn unit_vectors(s: Vector, ranks: Vector) -> [Corner; 3]
    requires { Signs s × Bounded 65536 ranks }
    ensures { Units s ranks result }
{
    let a = s.x * ranks.x;
    let b = s.y * ranks.y;
    let c = s.z * ranks.z;
    [
        Corner {
            at: Vector { x: s.x, y: 0, z: 0 },
            rank: a,
        },
        Corner {
            at: Vector { x: 0, y: s.y, z: 0 },
            rank: b,
        },
        Corner {
            at: Vector { x: 0, y: 0, z: s.z },
            rank: c,
        },
    ]
}

fn count_remaining(level: Levels) -> u32
    ensures { result ≡ length (remaining level) }
{
    !level.x as u32 + !level.y as u32 + !level.z as u32
}

// The reach less the number of remaining axes, none if that is below zero.
fn steps_allowed(reach: u32, level: Levels) -> u32
    ensures { result ≡ allowed reach level }
{
    reach.saturating_sub(count_remaining(level))
}

// Begin with the unit vectors and zero steps. The triangle stays laid in, in one array with its ranks.
pub fn walk_on(probe: &Probe, level: Levels, looks: u32) -> Result<End, Refused>
    requires { Countable walk_questions looks }
    ensures { Walks (probe_of probe.now.scene probe.now.bytes.now) probe.now.scene.reach level looks result }
{
    let scene = probe.scene;
    let limit = steps_allowed(scene.reach, level);
    let mut m = unit_vectors(scene.signs, scene.grid.ranks);
    let mut steps: u32 = 0;
    let mut n = looks;
    loop {
        let round = match round::ask_round(probe, level, &m, n) {
            Ok(round) => round,
            Err(outside) => {
                return Err(refusals::refuse(Refusal::Edge, outside.place, steps, outside.looks));
            }
        };
        let Some(best) = round.best else {
            return Ok(End {
                triangle: round::triangle_of(&m),
                steps,
                looks: round.looks,
            });
        };
        if steps == limit {
            return Err(refusals::refuse(Refusal::Steps, scene.apex, steps, round.looks));
        }
        round::step_by(&mut m, best.pair);
        steps += 1;
        n = round.looks;
    }
}
