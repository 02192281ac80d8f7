// Cases of a pick, run through the proved code, a line each, in the form of the wedge program: "N", normal, steps,
// looks; or "R", number, place, steps, looks; and after "T" the triangle, where it is asked.
// The documents give W4, refusals 1, 2 and 4, the normal (2,3,9), and on the large stack refusal 10 after two steps.
// They do not give the looks 59, 178, 95, 35, 29 and 71, the steps to (2,3,9) and (5,2,1), the normal at (5,6,7), nor
// the lines of reach 1 and 2, of level faces (W6 as 2026-01 changes it) and of small stacks. Those are the second
// program's, which was written apart from this library and is held to each of them (tests/second/listed.rs, checks.rs).
#![tactic(auto)]

ghost use Rattle.std.specs.Prelude.{IsOk};

use rules::{Pick, Solid, Stack, Triangle, Vector, Wedge};
use std::fmt;
use std::fmt::Write;

const STDOUT_FILENO: i32 = 1;

// Standard output, by the kit's io. A write that fails is passed over, and the next is made.
#[derive(Drop)]
struct Stdout;

impl Write for Stdout {
    fn write_str(&mut self, s: &str) -> fmt::Result
        ensures { IsOk result }
    {
        io::write_all(STDOUT_FILENO, s.as_bytes());
        Ok(())
    }
}

// What is shown of a number, of a vector and a triangle of such, and of an answer. A number stands behind a blank; the
// blank, a minus and the digits are a write each.
#[derive(Drop)]
struct Signed(i32);

impl fmt::Display for Signed {
    fn fmt<W: fmt::Write>(&self, f: &mut fmt::Formatter<W>) -> fmt::Result {
        write!(f, " ")?;
        if self.0 < 0 {
            write!(f, "-")?;
        }
        write!(f, "{}", self.0.unsigned_abs())
    }
}

#[derive(Drop)]
struct Place(Vector);

impl fmt::Display for Place {
    fn fmt<W: fmt::Write>(&self, f: &mut fmt::Formatter<W>) -> fmt::Result {
        let Vector { x, y, z } = self.0;
        write!(f, "{}{}{}", Signed(x), Signed(y), Signed(z))
    }
}

#[derive(Drop)]
struct Corners(Triangle);

impl fmt::Display for Corners {
    fn fmt<W: fmt::Write>(&self, f: &mut fmt::Formatter<W>) -> fmt::Result {
        let Triangle { m0, m1, m2 } = self.0;
        write!(f, "T{}{}{}", Place(m0), Place(m1), Place(m2))
    }
}

#[derive(Drop)]
struct Shown(Pick);

impl fmt::Display for Shown {
    fn fmt<W: fmt::Write>(&self, f: &mut fmt::Formatter<W>) -> fmt::Result {
        match self.0 {
            Ok(a) => write!(f, "N{} {} {}", Place(a.normal), a.steps, a.looks),
            Err(r) => {
                write!(f, "R")?;
                write!(f, " {}{} {} {}", r.number, Place(r.place), r.steps, r.looks)
            }
        }
    }
}

fn at(n: i32) -> Vector {
    Vector { x: n, y: n, z: n }
}

fn show(answer: Pick) {
    let _ = writeln!(Stdout, "{}", Shown(answer));
}

fn show_at(wedge: Wedge, p: Vector, frame: i32, reach: i32) {
    show(pick::pick_solid(Solid::Wedge(wedge), b"", p, frame, reach));
}

fn show_wedge(a: i32, b: i32, c: i32, h: i32, reach: i32) {
    show_at(Wedge { a, b, c, h }, at(100), 0, reach);
}

// R = 0 and 257 give 1; 1 and 256 pass. Frame 8 gives 2. p = (1023,5,5) in frame 0 gives 4 with (1024,6,6).
fn show_limits() {
    let w = Wedge {
        a: 1,
        b: 1,
        c: 1,
        h: 303,
    };
    show_at(w, at(100), 0, 0);
    show_at(w, at(100), 0, 257);
    show_wedge(0, 0, 1, 101, 1);
    show_at(w, at(100), 0, 2);
    show_at(w, at(100), 0, 3);
    let far = Wedge {
        a: 1,
        b: 1,
        c: 1,
        h: 1536,
    };
    show_at(far, at(511), 0, 256);
    show_at(w, at(100), 8, 8);
    let edge = Vector {
        x: 1023,
        y: 5,
        z: 5,
    };
    show_at(w, edge, 0, 8);
}

// ---- level faces

// One axis is level, or two, or all three; an opposite falls; a point outside; a common divisor; the reach is too small.
fn show_level_wedges() {
    // W6.
    show_wedge(0, 1, 1, 202, 8);
    show_wedge(0, 1, 1, 202, 2);
    show_wedge(0, 1, 1, 202, 1);
    show_wedge(0, 2, 5, 707, 7);
    show_wedge(0, 2, 5, 707, 6);
    // Axis 1's opposite falls.
    show_wedge(0, -1, 2, 101, 8);
    show_wedge(1, 1, 1, 301, 1);
    // As many looks as there can be with two remaining axes.
    show_wedge(0, 1, 1, 201, 2);
    show_wedge(2, 4, 0, 601, 3);
    let w = Wedge {
        a: 0,
        b: 1,
        c: 1,
        h: 202,
    };
    let near = Vector {
        x: 0,
        y: 100,
        z: 100,
    };
    show_at(w, near, 0, 8);
}

fn show_triangle(w: Wedge, frame: i32) {
    let answer = pick::pick_solid(Solid::Wedge(w), b"", at(100), frame, 8);
    show(answer);
    if let Ok(a) = answer {
        let _ = writeln!(Stdout, "{}", Corners(a.triangle));
    }
}

// A level axis's vector stays the unit vector, laid in: it has the frame's sign.
fn show_level_triangles() {
    show_triangle(
        Wedge {
            a: 5,
            b: 0,
            c: 3,
            h: 808,
        },
        0,
    );
    let against = Wedge {
        a: -3,
        b: 0,
        c: 5,
        h: 202,
    };
    show_triangle(against, 1);
    show_triangle(against, 3);
}

// ---- stacks, as wide, high and deep

fn show_stack(side: i32, bytes: &[u8], p: Vector, reach: i32) {
    let k = Stack {
        width: side,
        height: side,
        depth: side,
    };
    show(pick::pick_solid(Solid::Stack(k), bytes, p, 0, reach));
}

// 8 a side, p = (3,3,3). Filled only: p; p and (5,4,4); p, (4,4,3) and (4,3,4).
fn show_small_stacks() {
    let mut bytes = [0u8; 64];
    bytes[3 * 8 + 3] = 16;
    show_stack(8, &bytes, at(3), 1);
    show_stack(8, &bytes, at(3), 2);
    show_stack(8, &bytes, at(3), 3);
    bytes[4 * 8 + 4] = 4;
    show_stack(8, &bytes, at(3), 2);
    bytes[4 * 8 + 4] = 0;
    bytes[3 * 8 + 4] = 8;
    bytes[4 * 8 + 3] = 8;
    show_stack(8, &bytes, at(3), 2);
}

// 64 a side, q = (32,32,32), and filled only: q plus (-1,-1,-1), (-1,0,0), (0,-1,0), (0,0,-1), (-1,1,0), (1,-2,0).
fn show_large_stack() {
    let mut bytes = [0u8; 32768];
    bytes[(31 * 64 + 31) * 8 + 3] = 1;
    bytes[(32 * 64 + 32) * 8 + 3] = 1;
    bytes[(32 * 64 + 31) * 8 + 4] = 128;
    bytes[(31 * 64 + 32) * 8 + 4] = 128;
    bytes[(32 * 64 + 33) * 8 + 3] = 1;
    bytes[(32 * 64 + 30) * 8 + 4] = 64;
    show_stack(64, &bytes, at(31), 5);
}

fn main() {
    show_limits();
    // Power 1 alone would stop at (1,1,4).
    show_wedge(2, 3, 9, 1413, 16);
    // Fewer pairs asked would show in the looks.
    show_wedge(5, 2, 1, 808, 8);
    // The numbers do not add up to the reach, and the walk ends early.
    show_wedge(5, 6, 7, 1801, 8);
    // As many looks as there can be.
    show_wedge(1, 1, 1, 301, 3);
    show_large_stack();
    show_level_wedges();
    show_level_triangles();
    show_small_stacks();
}
