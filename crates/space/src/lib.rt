// Whole vectors in i32, and their products. Each function equals the definition of its name, on vectors small enough.
#![tactic(auto)]

ghost use Rattle.std.specs.Prelude.{◌≡◌, ◌≤◌, pos, ◌-ℤ◌, ◌*ℤ◌};
ghost use Rattle.integers.specs.Sizes.{Within};
ghost use Rattle.rules.specs.Vectors.{◌⊕◌, ◌⊖◌, minus, scale, dot, cross, lay, size};
ghost use Rattle.laws.specs.Bounds.{Bounded};

use rules::Vector;

pub fn add(a: Vector, b: Vector) -> Vector
    requires { Bounded 1000000000 a × Bounded 1000000000 b }
    ensures { result ≡ a ⊕ b }
{
    Vector {
        x: a.x + b.x,
        y: a.y + b.y,
        z: a.z + b.z,
    }
}

pub fn subtract(a: Vector, b: Vector) -> Vector
    requires { Bounded 1000000000 a × Bounded 1000000000 b }
    ensures { result ≡ a ⊖ b }
{
    Vector {
        x: a.x - b.x,
        y: a.y - b.y,
        z: a.z - b.z,
    }
}

pub fn negate(a: Vector) -> Vector
    requires { Bounded 1000000000 a }
    ensures { result ≡ minus a }
{
    Vector {
        x: -a.x,
        y: -a.y,
        z: -a.z,
    }
}

// So many times.
pub fn scale(l: u32, a: Vector) -> Vector
    requires { (l ≤ 512) × Bounded 10000 a }
    ensures { result ≡ scale (pos l) a }
{
    let k = l as i32;
    Vector {
        x: k * a.x,
        y: k * a.y,
        z: k * a.z,
    }
}

// Each part multiplied by its sign.
pub fn lay(s: Vector, a: Vector) -> Vector
    requires { Bounded 1 s × Bounded 1000000000 a }
    ensures { result ≡ lay s a }
{
    Vector {
        x: s.x * a.x,
        y: s.y * a.y,
        z: s.z * a.z,
    }
}

// The sizes of the parts, added up.
pub fn size(a: Vector) -> u32
    requires { Bounded 1000000000 a }
    ensures { result ≡ size a }
{
    a.x.unsigned_abs() + a.y.unsigned_abs() + a.z.unsigned_abs()
}

pub fn dot(a: Vector, b: Vector) -> i32
    requires { Bounded 10000 a × Bounded 10000 b }
    ensures { result ≡ dot a b }
{
    a.x * b.x + a.y * b.y + a.z * b.z
}

// a * d - b * c
fn minor(a: i32, b: i32, c: i32, d: i32) -> i32
    requires { Within 10000 a × Within 10000 b × Within 10000 c × Within 10000 d }
    ensures { result ≡ a *ℤ d -ℤ b *ℤ c }
{
    a * d - b * c
}

pub fn cross(a: Vector, b: Vector) -> Vector
    requires { Bounded 10000 a × Bounded 10000 b }
    ensures { result ≡ cross a b }
{
    Vector {
        x: minor(a.y, a.z, b.y, b.z),
        y: minor(a.z, a.x, b.z, b.x),
        z: minor(a.x, a.y, b.x, b.y),
    }
}
