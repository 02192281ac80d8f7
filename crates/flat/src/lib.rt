// The answers of the core as plain numbers for C, each flattened by a definition of `specs/Flat.antt`, and a ready start and a pick read back.
#![tactic(auto)]

ghost use Rattle.std.specs.Prelude.{◌≡◌};
ghost use Rattle.flat.specs.Flat.{flat_pick, handed_pick, with_guess, flat_touch, mask_of, levels_of, flat_ready, ready_of, flat_check, flat_lean, flat_firm, flat_display, flat_reading, flat_writing};

use rules::{
    Accepted, Check, Display, Firm, Lean, Levels, Pick, Reading, ReadyStart, Refused, Touch,
    Triangle, Vector, Writing,
};

// `ulgenzhir_point` is `rules::Vector`.

#[repr(C)]
#[derive(Clone, Copy)]
pub struct FlatPick {
    pub number: u32,
    pub place: Vector,
    pub steps: u32,
    pub looks: u32,
    pub normal: Vector,
    pub m0: Vector,
    pub m1: Vector,
    pub m2: Vector,
    pub apex: Vector,
}

#[repr(C)]
#[derive(Clone, Copy)]
pub struct FlatTouch {
    pub number: u32,
    pub guess: u32,
    pub place: Vector,
    pub steps: u32,
    pub looks: u32,
    pub normal: Vector,
    pub m0: Vector,
    pub m1: Vector,
    pub m2: Vector,
    pub apex: Vector,
}

#[repr(C)]
#[derive(Clone, Copy)]
pub struct FlatReady {
    pub start: Vector,
    pub apex: Vector,
    pub level: u32,
    pub looks: u32,
}

#[repr(C)]
#[derive(Clone, Copy)]
pub struct FlatCheck {
    pub number: u32,
    pub place: Vector,
    pub looks: u32,
    pub ready: FlatReady,
}

#[repr(C)]
#[derive(Clone, Copy)]
pub struct FlatLean {
    pub number: u32,
    pub part: u64,
    pub whole: u64,
}

#[repr(C)]
#[derive(Clone, Copy)]
pub struct FlatFirm {
    pub number: u32,
    pub place: Vector,
    pub power: u32,
    pub looks: u32,
    pub part: u64,
    pub whole: u64,
}

#[repr(C)]
#[derive(Clone, Copy)]
pub struct FlatReading {
    pub number: u32,
    pub value: u64,
    pub width: u32,
    pub height: u32,
    pub depth: u32,
}

#[repr(C)]
#[derive(Clone, Copy)]
pub struct FlatWriting {
    pub number: u32,
    pub value: u64,
}

#[repr(C)]
#[derive(Clone, Copy)]
pub struct FlatDisplay {
    pub number: u32,
    pub x: f32,
    pub y: f32,
    pub z: f32,
}

// ---- answers as plain numbers

impl From<Pick> for FlatPick {
    ghost from_gives = { λ answer r. r ≡ flat_pick answer };

    fn from(answer: Pick) -> FlatPick {
        let none = Vector { x: 0, y: 0, z: 0 };
        match answer {
            Ok(a) => FlatPick {
                number: 0,
                place: none,
                steps: a.steps,
                looks: a.looks,
                normal: a.normal,
                m0: a.triangle.m0,
                m1: a.triangle.m1,
                m2: a.triangle.m2,
                apex: a.apex,
            },
            Err(r) => FlatPick {
                number: r.number,
                place: r.place,
                steps: r.steps,
                looks: r.looks,
                normal: none,
                m0: none,
                m1: none,
                m2: none,
                apex: none,
            },
        }
    }
}

fn with_guess(guess: u32, answer: FlatPick) -> FlatTouch
    ensures { result ≡ with_guess guess answer }
{
    FlatTouch {
        number: answer.number,
        guess,
        place: answer.place,
        steps: answer.steps,
        looks: answer.looks,
        normal: answer.normal,
        m0: answer.m0,
        m1: answer.m1,
        m2: answer.m2,
        apex: answer.apex,
    }
}

impl From<Touch> for FlatTouch {
    ghost from_gives = { λ answer r. r ≡ flat_touch answer };

    fn from(answer: Touch) -> FlatTouch {
        match answer {
            Ok(g) => with_guess(1, FlatPick::from(Ok(g.answer))),
            Err(r) => with_guess(0, FlatPick::from(Err(r))),
        }
    }
}

// Bit 0, 1, 2: axis 0, 1, 2 is level.
fn mask_of(level: Levels) -> u32
    ensures { result ≡ mask_of level }
{
    let x = level.x as u32;
    let y = level.y as u32;
    let z = level.z as u32;
    x + 2 * y + 4 * z
}

impl From<ReadyStart> for FlatReady {
    ghost from_gives = { λ d r. r ≡ flat_ready d };

    fn from(d: ReadyStart) -> FlatReady {
        FlatReady {
            start: d.start,
            apex: d.apex,
            level: mask_of(d.level),
            looks: d.looks,
        }
    }
}

impl From<Check> for FlatCheck {
    ghost from_gives = { λ answer r. r ≡ flat_check answer };

    fn from(answer: Check) -> FlatCheck {
        let none = Vector { x: 0, y: 0, z: 0 };
        match answer {
            Ok(d) => FlatCheck {
                number: 0,
                place: none,
                looks: d.looks,
                ready: d.into(),
            },
            Err(r) => FlatCheck {
                number: r.number,
                place: r.place,
                looks: r.looks,
                ready: FlatReady {
                    start: none,
                    apex: none,
                    level: 0,
                    looks: 0,
                },
            },
        }
    }
}

impl From<Lean> for FlatLean {
    ghost from_gives = { λ answer r. r ≡ flat_lean answer };

    fn from(answer: Lean) -> FlatLean {
        match answer {
            Ok(b) => FlatLean {
                number: 0,
                part: b.part,
                whole: b.whole,
            },
            Err(unknown) => FlatLean {
                number: unknown.number,
                part: 0,
                whole: 0,
            },
        }
    }
}

impl From<Firm> for FlatFirm {
    ghost from_gives = { λ answer r. r ≡ flat_firm answer };

    fn from(answer: Firm) -> FlatFirm {
        match answer {
            Ok(f) => FlatFirm {
                number: 0,
                place: Vector { x: 0, y: 0, z: 0 },
                power: f.power,
                looks: f.looks,
                part: f.bound.part,
                whole: f.bound.whole,
            },
            Err(r) => FlatFirm {
                number: r.number,
                place: r.place,
                power: 0,
                looks: r.looks,
                part: 0,
                whole: 0,
            },
        }
    }
}

impl From<Reading> for FlatReading {
    ghost from_gives = { λ answer r. r ≡ flat_reading answer };

    fn from(answer: Reading) -> FlatReading {
        match answer {
            Ok(k) => FlatReading {
                number: 0,
                value: 0,
                width: k.width.unsigned_abs(),
                height: k.height.unsigned_abs(),
                depth: k.depth.unsigned_abs(),
            },
            Err(r) => FlatReading {
                number: r.number,
                value: r.value as u64,
                width: 0,
                height: 0,
                depth: 0,
            },
        }
    }
}

impl From<Writing> for FlatWriting {
    ghost from_gives = { λ answer r. r ≡ flat_writing answer };

    fn from(answer: Writing) -> FlatWriting {
        let (number, value) = match answer {
            Ok(bytes) => (0, bytes),
            Err(r) => (r.number, r.value),
        };
        FlatWriting {
            number,
            value: value as u64,
        }
    }
}

impl From<Display> for FlatDisplay {
    ghost from_gives = { λ answer r. r ≡ flat_display answer };

    fn from(answer: Display) -> FlatDisplay {
        match answer {
            Ok(l) => FlatDisplay {
                number: 0,
                x: l.x,
                y: l.y,
                z: l.z,
            },
            Err(unlit) => FlatDisplay {
                number: unlit.number,
                x: 0.0,
                y: 0.0,
                z: 0.0,
            },
        }
    }
}

// ---- what a host hands back

// Higher bits are not looked at.
fn levels_of(mask: u32) -> Levels
    ensures { result ≡ levels_of mask }
{
    Levels {
        x: mask % 2 == 1,
        y: mask / 2 % 2 == 1,
        z: mask / 4 % 2 == 1,
    }
}

impl From<FlatReady> for ReadyStart {
    ghost from_gives = { λ ready d. d ≡ ready_of ready };

    fn from(ready: FlatReady) -> ReadyStart {
        ReadyStart {
            start: ready.start,
            apex: ready.apex,
            level: levels_of(ready.level),
            looks: ready.looks,
        }
    }
}

impl From<FlatPick> for Pick {
    ghost from_gives = { λ pick answer. answer ≡ handed_pick pick };

    #[tactic(auto, unfolding(crate::specs::Flat::handed_pick))]
    fn from(pick: FlatPick) -> Pick {
        if pick.number == 0 {
            return Ok(Accepted {
                normal: pick.normal,
                triangle: Triangle {
                    m0: pick.m0,
                    m1: pick.m1,
                    m2: pick.m2,
                },
                apex: pick.apex,
                steps: pick.steps,
                looks: pick.looks,
            });
        }
        Err(Refused {
            number: pick.number,
            place: pick.place,
            steps: pick.steps,
            looks: pick.looks,
        })
    }
}
