// Whether a vector falls.
#![tactic(auto)]

ghost use Rattle.std.specs.Prelude.{◌≡◌};
ghost use Rattle.rules.specs.Vectors.{dot};
ghost use Rattle.laws.specs.Bounds.{Bounded};
ghost use Rattle.laws.specs.Tally.{Countable};
ghost use Rattle.solid.specs.Grid.{ranks_of};
ghost use Rattle.falls.specs.Scene.{probe_of, Ready};
ghost use Rattle.falls.specs.Certain.{ready-once};
ghost use Rattle.falls.specs.Falls.{Fallen};

use rules::{Look, Solid, Vector};
use solid::{Body, Grid};

// What every question of one pick or touch is about; the solid's bytes are lent beside it. The solid's grid and the apex's rank, `here`, are made once. Powers go up to the span, steps are allowed by the reach.
#[derive(Clone, Copy)]
pub struct Scene {
    pub solid: Solid,
    pub grid: Grid,
    pub apex: Vector,
    pub here: i32,
    pub signs: Vector,
    pub span: u32,
    pub reach: u32,
}

// A scene whose questions may be asked, with the solid's bytes.
#[derive(Clone, Copy)]
pub struct Probe<'a> {
    pub scene: Scene,
    pub bytes: &'a [u8],
    ghost ready: { Ready scene bytes.now } by { ready-once scene bytes.now },
}

// A point outside the box, which ends a question, with the looks so far.
#[derive(Clone, Copy)]
pub struct Outside {
    pub place: Vector,
    pub looks: u32,
}

// Each with the looks so far.
#[derive(Clone, Copy)]
pub enum Falls {
    Fell(u32),
    Kept(u32),
    Stopped(Outside),
}

impl<'a> Probe<'a> {
    pub fn body(&self) -> Body<'a>
        ensures { (result.solid ≡ self.now.scene.solid) × (result.bytes.now ≡ self.now.bytes.now) }
    {
        Body {
            solid: self.scene.solid,
            bytes: self.bytes,
            grid: self.scene.grid,
        }
    }

    // Whether u, laid in and of the rank `rise`, falls: powers upward from 1 to the first that is at least the span, each point twice as far from the apex as the one before.
    pub fn ask_falls(&self, u: Vector, rise: i32, looks: u32) -> Falls
        requires { Bounded 2046 u × (rise ≡ dot (ranks_of self.now.scene.solid) u) × Countable 1 looks }
        ensures { Fallen (probe_of self.now.scene self.now.bytes.now) u looks result }
    {
        let body = self.body();
        let Scene {
            apex,
            here,
            span,
            ..
        } = self.scene;
        let mut at = space::add(apex, u);
        let mut rank = here + rise;
        let mut power: u32 = 1;
        let mut n = looks;
        loop {
            match body.look_ranked(at, rank) {
                Look::Outside => {
                    break Falls::Stopped(Outside {
                        place: at,
                        looks: n,
                    });
                }
                Look::Filled => {
                    break Falls::Fell(n + 1);
                }
                Look::Empty => {
                    n += 1;
                    if span <= power {
                        break Falls::Kept(n);
                    }
                    power += power;
                    at = space::add(at, space::subtract(at, apex));
                    rank += rank - here;
                }
            }
        }
    }
}
