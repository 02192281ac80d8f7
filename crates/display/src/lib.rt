// The display normal: three whole numbers as three floats for the shader.
#![tactic(auto)]

ghost use Rattle.std.specs.Prelude.{◌≡◌, ◌&&◌, ◌*◌, ◌^◌, ◌≤◌, ◌<◌, nat_abs};
ghost use Rattle.rules.specs.Display.{squares, largest, light, DisplayPromise};
ghost use Rattle.display.specs.Parts.{in_range, Square, Sum, Within, From, Part, Size, Whole, Shown, Parts};

use rules::{Display, Light, Refusal, RefusedInput};

fn square(n: i32) -> u64
    ensures { Square n result }
{
    let size = n.unsigned_abs() as u64;
    size * size
}

fn sum_of_squares(x: i32, y: i32, z: i32) -> u64
    ensures { result ≡ squares x y z }
{
    square(x) + square(y) + square(z)
}

fn all_in_range(x: i32, y: i32, z: i32) -> bool
    ensures { result ≡ (in_range x && (in_range y && in_range z)) }
{
    let a = range::is_between(-1023, x, 1023);
    let b = range::is_between(-1023, y, 1023);
    let c = range::is_between(-1023, z, 1023);
    a & (b & c)
}

// 3 in parts of 2^58.
const THREE: u64 = 3 << 58;

// 3 less the product, from parts of 2^58 to parts of 2^30; 0 if there is nothing left.
fn left_of_three(product: u64) -> u32
    ensures { result ≤ 3221225472 }
{
    (THREE.saturating_sub(product) >> 28) as u32
}

// A step of Newton's towards 1/√w, all in parts of 2^30: y·(3 - w·y·y)/2.
fn nearer(w: u32, y: u32) -> u32
    requires { y * 3 < 2 ^ 33 }
    ensures { result * 2 ≤ y * 3 }
{
    let square = ((y as u64) * (y as u64)) >> 32;
    let left = left_of_three(square * (w as u64)) as u64;
    (((y as u64) * left) >> 31) as u32
}

// About 1/√w for w from 1 to 4, in parts of 2^30: a line, which is within 9%, and three steps.
fn over_root(w: u32) -> u32 {
    let line = (39 * (7516192768 - (w as u64))) >> 8;
    nearer(w, nearer(w, nearer(w, line as u32)))
}

// About the size of 1 over s, in parts of 2^30. An even shift brings s to between 2^30 and 2^32, and half of it brings
// the root back; 64 is more than the steps fall short by.
fn size_of_one(s: u32) -> u64
    requires { Sum s }
    ensures { result ≤ 2 ^ 49 }
{
    let half = u32::leading_zeros(s) / 2;
    let root = over_root(s << (half * 2)) as u64;
    (root + 64) << half
}

// A sum of squares that is permitted, and about the size of 1 over it, in parts of 2^30.
#[derive(Clone, Copy)]
struct Scale {
    sum: u32,
    one: u64,
    ghost permitted: { Sum sum },
    ghost one_small: { one ≤ 2 ^ 49 },
}

impl Scale {
    // About the size of n. Nothing is proved of how near it is: a worse guess takes longer.
    fn guess(self, n: i32) -> u32
        requires { Part self.sum n }
        ensures { result ≤ 32768 }
    {
        ((n.unsigned_abs() as u64 * self.one) >> 30).min(32768) as u32
    }

    // m·m times the sum.
    fn square_times(self, m: u32) -> u64
        requires { m ≤ 32769 }
        ensures { result ≡ m * m * self.sum }
    {
        (m * m) as u64 * self.sum as u64
    }

    // A guess that is too large, lowered until it is not.
    fn lowered(self, t: u64, guess: u32) -> u32
        requires { guess ≤ 32769 }
        ensures { Within self.sum t result }
    {
        let mut m = guess;
        while t < self.square_times(m) {
            m -= 1;
        }
        m
    }

    // The largest m with m·m times the sum at most t, from one that is not too large.
    fn root(self, t: u64, from: u32) -> u32
        requires { From self.sum t from }
        ensures { result ≡ largest self.sum t 32768 }
    {
        let mut m = from;
        while self.square_times(m + 1) <= t {
            m += 1;
        }
        m
    }

    fn size_over(self, n: i32) -> u32
        requires { Part self.sum n }
        ensures { Size self.sum n result }
    {
        let t = square(n) * (1 << 30);
        let m = self.lowered(t, self.guess(n));
        self.root(t, m)
    }

    // m/32768, which a float holds exactly, with the sign of n.
    fn shown(self, n: i32) -> f32
        requires { Part self.sum n }
        ensures { Shown self.sum n result }
    {
        let m = whole(self.size_over(n));
        if n < 0 { m / -32768.0 } else { m / 32768.0 }
    }
}

fn whole(m: u32) -> f32
    requires { m ≤ 32768 }
    ensures { Whole m result }
{
    m as f32
}

fn lit(s: u64, x: i32, y: i32, z: i32) -> Light
    requires { Parts s x y z }
    ensures { result ≡ light x y z }
{
    let sum = s as u32;
    let scale = Scale {
        sum,
        one: size_of_one(sum),
    };
    Light {
        x: scale.shown(x),
        y: scale.shown(y),
        z: scale.shown(z),
    }
}

// All three are zero, or one is out of range.
const REFUSED: RefusedInput = RefusedInput {
    number: Refusal::Normal as u32,
};

pub fn display_normal(x: i32, y: i32, z: i32) -> Display
    ensures { DisplayPromise x y z result }
{
    let s = sum_of_squares(x, y, z);
    if s == 0 {
        return Err(REFUSED);
    }
    if all_in_range(x, y, z) {
        return Ok(lit(s, x, y, z));
    }
    Err(REFUSED)
}
