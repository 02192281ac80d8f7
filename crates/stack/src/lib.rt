// Stacks: how many bytes they take, which are permitted, and which voxels are filled.
#![tactic(auto)]

ghost use Rattle.std.specs.Prelude.{◌≡◌, nat_abs};
ghost use Rattle.rules.specs.Solids.{stack_bytes, permitted_stack};
ghost use Rattle.stack.specs.Sides.{Side, SidesOf, sizes_permitted};
ghost use Rattle.stack.specs.Bytes.{SliceSides, RowBytes, SliceBytes};
ghost use Rattle.stack.specs.Bits.{stack_ranks, bit_at, BitHeld};

use rules::{Stack, Vector};

// ---- bytes

// The sides of a slice; it may have no row.
#[derive(Clone, Copy)]
pub struct SliceSize {
    pub width: usize,
    pub height: usize,
    ghost permitted: { SliceSides width height },
}

impl SliceSize {
    pub fn row_bytes(self) -> usize
        ensures { RowBytes self.width result }
    {
        self.width.div_ceil(8)
    }

    pub fn bytes(self) -> usize
        ensures { SliceBytes self.width self.height result }
    {
        self.height * self.row_bytes()
    }
}

fn slice_of(k: Stack) -> SliceSize
    requires { SidesOf k }
    ensures { (result.width ≡ nat_abs k.width) × (result.height ≡ nat_abs k.height) }
{
    SliceSize {
        width: k.width as usize,
        height: k.height as usize,
    }
}

fn stack_bytes(k: Stack) -> usize
    requires { SidesOf k }
    ensures { result ≡ stack_bytes k }
{
    let depth = k.depth as usize;
    depth * slice_of(k).bytes()
}

// ---- what is permitted

// Here and below `&` and not `&&`: no branch.
fn has_sizes(k: Stack) -> bool
    ensures { result ≡ sizes_permitted k }
{
    let width = range::is_between(1, k.width, 256);
    let height = range::is_between(1, k.height, 256);
    let depth = range::is_between(1, k.depth, 256);
    width & (height & depth)
}

// The sizes are judged before they are multiplied.
pub fn is_permitted(k: Stack, bytes: &[u8]) -> bool
    ensures { result ≡ permitted_stack k bytes.now }
{
    has_sizes(k) && stack_bytes(k) <= bytes.len()
}

// ---- voxels

// A voxel's bit, counted from the first byte's highest, is its product with this: the bits of a column, of a row and of a slice.
pub fn ranks_of(k: Stack) -> Vector
    requires { SidesOf k }
    ensures { result ≡ stack_ranks k }
{
    let slice = slice_of(k);
    let row = 8 * slice.row_bytes();
    let bits = 8 * slice.bytes();
    Vector {
        x: 1,
        y: row as i32,
        z: bits as i32,
    }
}

// The highest bit of a byte comes first.
pub fn is_bit(bytes: &[u8], place: usize) -> bool
    requires { BitHeld bytes.now place }
    ensures { result ≡ bit_at bytes.now place }
{
    let b = bytes[place / 8];
    (b >> (7 - place % 8)) % 2 == 1
}
