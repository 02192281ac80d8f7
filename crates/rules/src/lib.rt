// The types that document 01's definitions, in `specs/`, and the code above them share. There is no code here.
#![tactic(auto)]

// A vector, a voxel or a place. The panel's C interface has it as it is.
#[repr(C)]
#[derive(Clone, Copy)]
pub struct Vector {
    pub x: i32,
    pub y: i32,
    pub z: i32,
}

// ---- solids

#[derive(Clone, Copy)]
pub struct Wedge {
    pub a: i32,
    pub b: i32,
    pub c: i32,
    pub h: i32,
}

// The bytes of a stack are lent beside it.
#[derive(Clone, Copy)]
pub struct Stack {
    pub width: i32,
    pub height: i32,
    pub depth: i32,
}

#[derive(Clone, Copy)]
pub enum Solid {
    Wedge(Wedge),
    Stack(Stack),
}

#[derive(Clone, Copy)]
pub enum Look {
    Filled,
    Empty,
    Outside,
}

// ---- the walk

// Which of the axes 0, 1, 2 are level.
#[derive(Clone, Copy)]
pub struct Levels {
    pub x: bool,
    pub y: bool,
    pub z: bool,
}

#[derive(Clone, Copy)]
pub struct Triangle {
    pub m0: Vector,
    pub m1: Vector,
    pub m2: Vector,
}

#[derive(Clone, Copy)]
pub enum Axis {
    Axis0,
    Axis1,
    Axis2,
}

// The pair (k, l).
#[derive(Clone, Copy)]
pub enum Pair {
    P01,
    P02,
    P10,
    P12,
    P20,
    P21,
}

pub type Choice = Option<Pair>;

// ---- refusals

// By their numbers.
#[derive(Clone, Copy)]
pub enum Refusal {
    Reach = 1,
    Frame = 2,
    Solid = 3,
    Place = 4,
    Start = 5,
    Apex = 6,
    Axis = 7,
    Edge = 8,
    Steps = 9,
    Sum = 10,
    Corner = 11,
    Ready = 13,
    Magic = 21,
    Header = 22,
    Sides = 23,
    OtherSides = 24,
    Rows = 25,
    Images = 26,
    Room = 27,
    Normal = 30,
    Measure = 35,
}

// ---- the pick's answer

#[derive(Clone, Copy)]
pub struct Accepted {
    pub normal: Vector,
    pub triangle: Triangle,
    pub apex: Vector,
    pub steps: u32,
    pub looks: u32,
}

#[derive(Clone, Copy)]
pub struct Refused {
    pub number: u32,
    pub place: Vector,
    pub steps: u32,
    pub looks: u32,
}

// A refusal of what has no place and no counts.
#[derive(Clone, Copy)]
pub struct RefusedInput {
    pub number: u32,
}

pub type Pick = Result<Accepted, Refused>;

// ---- the start check's answer: a ready start, from which a walk goes on

#[derive(Clone, Copy)]
pub struct ReadyStart {
    pub start: Vector,
    pub apex: Vector,
    pub level: Levels,
    pub looks: u32,
}

pub type Check = Result<ReadyStart, Refused>;

// ---- the quick touch's answer: what it accepts is always a guess

#[derive(Clone, Copy)]
pub struct Guess {
    pub answer: Accepted,
}

pub type Touch = Result<Guess, Refused>;

// ---- how far an accepted normal may lean, and how firm its footing is

// The squared sine of the lean is below part / whole.
#[derive(Clone, Copy)]
pub struct Bound {
    pub part: u64,
    pub whole: u64,
}

pub type Lean = Result<Bound, RefusedInput>;

// What a footing looks along: a pair's way, and along each level axis and against it.
#[derive(Clone, Copy)]
pub enum Way {
    Sideways(Pair),
    Along(Axis),
    Against(Axis),
}

// Firm to the power, 0 if not at all.
#[derive(Clone, Copy)]
pub struct Footing {
    pub power: u32,
    pub looks: u32,
    pub bound: Bound,
}

pub type Firm = Result<Footing, Refused>;

// ---- the display normal's answer

// Three components for the shader.
#[derive(Clone, Copy)]
pub struct Light {
    pub x: f32,
    pub y: f32,
    pub z: f32,
}

pub type Display = Result<Light, RefusedInput>;

// ---- the answers of P4's reader and writer

// A refusal with its number and the number returned.
#[derive(Clone, Copy)]
pub struct RefusedStack {
    pub number: u32,
    pub value: usize,
}

pub type Reading = Result<Stack, RefusedStack>;

pub type Writing = Result<usize, RefusedStack>;

// ---- the session's lines

#[derive(Clone, Copy)]
pub struct Question {
    pub wedge: Wedge,
    pub p: Vector,
    pub frame: i32,
    pub reach: i32,
}
