// The two solids behind one look.
#![tactic(auto)]

ghost use Rattle.std.specs.Prelude.{◌≡◌, pos, true};
ghost use Rattle.rules.specs.Vectors.{dot};
ghost use Rattle.rules.specs.Solids.{permitted_wedge, permitted, box, in_side, in_box, seen_as, look};
ghost use Rattle.laws.specs.Bounds.{Bounded};
ghost use Rattle.axis.specs.Axes.{with_part};
ghost use Rattle.solid.specs.Asks.{PermittedSolid, InBoxOf};
ghost use Rattle.solid.specs.Grid.{grid_of, side_at, ranks_of, filled_at, RankHeld, sides_of, GridRanks};

use rules::{Axis, Look, Solid, Vector, Wedge};

// ---- what is permitted

// Here and below `&` and not `&&`: no branch.
fn is_permitted_wedge(w: Wedge) -> bool
    ensures { result ≡ permitted_wedge w }
{
    let a = range::is_between(-1000, w.a, 1000);
    let b = range::is_between(-1000, w.b, 1000);
    let c = range::is_between(-1000, w.c, 1000);
    let h = range::is_between(-4000000, w.h, 4000000);
    a & (b & (c & h))
}

pub fn is_permitted(s: Solid, bytes: &[u8]) -> bool
    ensures { result ≡ permitted s bytes.now }
{
    match s {
        Solid::Wedge(w) => is_permitted_wedge(w),
        Solid::Stack(k) => stack::is_permitted(k, bytes),
    }
}

// ---- the box

// The sides of the box, and by what voxels are ranked. A side of 16 bits is never negative, so the compiler tests a point by one comparison a side.
#[derive(Clone, Copy)]
pub struct Grid {
    pub width: u16,
    pub height: u16,
    pub depth: u16,
    pub ranks: Vector,
}

impl Grid {
    pub fn side_of(self, axis: Axis) -> u16
        ensures { result ≡ side_at self axis }
    {
        axis::choose(axis, self.width, self.height, self.depth)
    }

    pub fn is_inside(self, p: Vector) -> bool
        ensures { result ≡ in_box (sides_of self) p }
    {
        let x = is_in_side(self.width, p.x);
        let y = is_in_side(self.height, p.y);
        let z = is_in_side(self.depth, p.z);
        x & (y & z)
    }

    // A voxel's rank: n·v of a wedge, the place of its bit in a stack. It is a product, so that along a way it goes in equal steps.
    pub fn rank_of(self, v: Vector) -> i32
        requires { GridRanks self × Bounded 10000 v }
        ensures { result ≡ dot self.ranks v }
    {
        let r = self.ranks;
        r.x * v.x + r.y * v.y + r.z * v.z
    }
}

pub fn grid_of(s: Solid, bytes: &[u8]) -> Grid
    requires { PermittedSolid s bytes.now }
    ensures { result ≡ grid_of s }
{
    match s {
        Solid::Wedge(w) => Grid {
            width: 1024,
            height: 1024,
            depth: 1024,
            ranks: Vector {
                x: w.a,
                y: w.b,
                z: w.c,
            },
        },
        Solid::Stack(k) => Grid {
            width: k.width as u16,
            height: k.height as u16,
            depth: k.depth as u16,
            ranks: stack::ranks_of(k),
        },
    }
}

fn is_in_side(side: u16, x: i32) -> bool
    ensures { result ≡ in_side (pos side) x }
{
    (0 <= x) & (x < side as i32)
}

// ---- a permitted solid

// With its lent bytes. The grid is made once.
#[derive(Clone, Copy)]
pub struct Body<'a> {
    pub solid: Solid,
    pub bytes: &'a [u8],
    pub grid: Grid,
    ghost permitted: { PermittedSolid solid bytes.now },
    ghost gridded: { grid ≡ grid_of solid },
}

pub fn body_of(solid: Solid, bytes: &[u8]) -> Body<'_>
    requires { PermittedSolid solid bytes.now }
    ensures { (result.solid ≡ solid) × (result.bytes.now ≡ bytes.now) }
{
    let grid = grid_of(solid, bytes);
    Body { solid, bytes, grid }
}

impl Body<'_> {
    pub fn is_inside(&self, p: Vector) -> bool
        ensures { result ≡ in_box (box self.now.solid) p }
    {
        self.grid.is_inside(p)
    }

    pub fn rank_of(&self, v: Vector) -> i32
        requires { Bounded 10000 v }
        ensures { result ≡ dot (ranks_of self.now.solid) v }
    {
        self.grid.rank_of(v)
    }

    // Of a voxel in the box, by its rank.
    fn is_filled(&self, rank: i32) -> bool
        requires { RankHeld self.now.solid self.now.bytes.now rank }
        ensures { result ≡ filled_at self.now.solid self.now.bytes.now rank }
    {
        match self.solid {
            Solid::Wedge(w) => rank < w.h,
            Solid::Stack(_) => stack::is_bit(self.bytes, rank as usize),
        }
    }

    fn see(&self, rank: i32) -> Look
        requires { RankHeld self.now.solid self.now.bytes.now rank }
        ensures { result ≡ seen_as true (filled_at self.now.solid self.now.bytes.now rank) }
    {
        if self.is_filled(rank) {
            Look::Filled
        } else {
            Look::Empty
        }
    }

    pub fn look_at(&self, p: Vector) -> Look
        ensures { result ≡ look self.now.solid self.now.bytes.now p }
    {
        if self.is_inside(p) {
            self.see(self.rank_of(p))
        } else {
            Look::Outside
        }
    }

    // The look at a point whose rank is at hand.
    pub fn look_ranked(&self, p: Vector, rank: i32) -> Look
        requires { rank ≡ dot (ranks_of self.now.solid) p }
        ensures { result ≡ look self.now.solid self.now.bytes.now p }
    {
        if !self.is_inside(p) {
            return Look::Outside;
        }
        self.see(rank)
    }

    // The look at the point that has z along an axis and is q, a voxel of the box, along the others: the axis's side alone is asked.
    pub fn look_along(&self, side: u16, q: Vector, axis: Axis, z: i32, rank: i32) -> Look
        requires { InBoxOf self.now.solid q × (side ≡ side_at (grid_of self.now.solid) axis) × (rank ≡ dot (ranks_of self.now.solid) (with_part q axis z)) }
        ensures { result ≡ look self.now.solid self.now.bytes.now (with_part q axis z) }
    {
        if !is_in_side(side, z) {
            return Look::Outside;
        }
        self.see(rank)
    }
}
