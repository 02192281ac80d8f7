// The panel's functions (include/ulgenzhir.h): thin over the core, each answer flattened (crate `flat`). `panel_c` exports them to C.
#![tactic(auto)]

ghost use Rattle.std.specs.Prelude.{◌≡◌};
ghost use Rattle.rules.specs.Vectors.{vector};
ghost use Rattle.panel.specs.Promises.{wedge, stack, PickedWedge, PickedStack, TouchedWedge, TouchedStack, CheckedWedge, CheckedStack, WalkedWedge, WalkedStack, KnewLean, FirmedWedge, FirmedStack, ReadP4, WroteP4, Displayed};

use flat::{
    FlatCheck, FlatDisplay, FlatFirm, FlatLean, FlatPick, FlatReading, FlatReady, FlatTouch,
    FlatWriting,
};
use rules::{Solid, Stack, Vector, Wedge};

// ---- plain numbers as the core has them

fn wedge_of(a: i32, b: i32, c: i32, h: i32) -> Wedge
    ensures { result ≡ wedge a b c h }
{
    Wedge { a, b, c, h }
}

fn stack_of(width: i32, height: i32, depth: i32) -> Stack
    ensures { result ≡ stack width height depth }
{
    Stack {
        width,
        height,
        depth,
    }
}

fn point(x: i32, y: i32, z: i32) -> Vector
    ensures { result ≡ vector x y z }
{
    Vector { x, y, z }
}

// ---- the interface

pub fn ulgenzhir_pick_wedge(
    a: i32,
    b: i32,
    c: i32,
    h: i32,
    px: i32,
    py: i32,
    pz: i32,
    frame: i32,
    reach: i32,
) -> FlatPick
    ensures { PickedWedge (wedge a b c h) (vector px py pz) frame reach result }
{
    let wedge = Solid::Wedge(wedge_of(a, b, c, h));
    let p = point(px, py, pz);
    pick::pick_solid(wedge, b"", p, frame, reach).into()
}

pub fn ulgenzhir_pick_stack(
    width: i32,
    height: i32,
    depth: i32,
    bytes: &[u8],
    px: i32,
    py: i32,
    pz: i32,
    frame: i32,
    reach: i32,
) -> FlatPick
    ensures { PickedStack (stack width height depth) bytes.now (vector px py pz) frame reach result }
{
    let stack = Solid::Stack(stack_of(width, height, depth));
    let p = point(px, py, pz);
    pick::pick_solid(stack, bytes, p, frame, reach).into()
}

pub fn ulgenzhir_touch_wedge(
    a: i32,
    b: i32,
    c: i32,
    h: i32,
    px: i32,
    py: i32,
    pz: i32,
    frame: i32,
    reach: i32,
) -> FlatTouch
    ensures { TouchedWedge (wedge a b c h) (vector px py pz) frame reach result }
{
    let wedge = Solid::Wedge(wedge_of(a, b, c, h));
    let p = point(px, py, pz);
    pick::touch_solid(wedge, b"", p, frame, reach).into()
}

pub fn ulgenzhir_touch_stack(
    width: i32,
    height: i32,
    depth: i32,
    bytes: &[u8],
    px: i32,
    py: i32,
    pz: i32,
    frame: i32,
    reach: i32,
) -> FlatTouch
    ensures { TouchedStack (stack width height depth) bytes.now (vector px py pz) frame reach result }
{
    let stack = Solid::Stack(stack_of(width, height, depth));
    let p = point(px, py, pz);
    pick::touch_solid(stack, bytes, p, frame, reach).into()
}

pub fn ulgenzhir_check_wedge(
    a: i32,
    b: i32,
    c: i32,
    h: i32,
    px: i32,
    py: i32,
    pz: i32,
    frame: i32,
    reach: i32,
) -> FlatCheck
    ensures { CheckedWedge (wedge a b c h) (vector px py pz) frame reach result }
{
    let wedge = Solid::Wedge(wedge_of(a, b, c, h));
    let p = point(px, py, pz);
    pick::check_solid(wedge, b"", p, frame, reach).into()
}

pub fn ulgenzhir_check_stack(
    width: i32,
    height: i32,
    depth: i32,
    bytes: &[u8],
    px: i32,
    py: i32,
    pz: i32,
    frame: i32,
    reach: i32,
) -> FlatCheck
    ensures { CheckedStack (stack width height depth) bytes.now (vector px py pz) frame reach result }
{
    let stack = Solid::Stack(stack_of(width, height, depth));
    let p = point(px, py, pz);
    pick::check_solid(stack, bytes, p, frame, reach).into()
}

pub fn ulgenzhir_walk_wedge(
    a: i32,
    b: i32,
    c: i32,
    h: i32,
    ready: FlatReady,
    frame: i32,
    reach: i32,
) -> FlatPick
    ensures { WalkedWedge (wedge a b c h) ready frame reach result }
{
    let wedge = Solid::Wedge(wedge_of(a, b, c, h));
    pick::walk_solid(wedge, b"", ready.into(), frame, reach).into()
}

pub fn ulgenzhir_walk_stack(
    width: i32,
    height: i32,
    depth: i32,
    bytes: &[u8],
    ready: FlatReady,
    frame: i32,
    reach: i32,
) -> FlatPick
    ensures { WalkedStack (stack width height depth) bytes.now ready frame reach result }
{
    let stack = Solid::Stack(stack_of(width, height, depth));
    pick::walk_solid(stack, bytes, ready.into(), frame, reach).into()
}

pub fn ulgenzhir_known_lean(pick: FlatPick, reach: i32) -> FlatLean
    ensures { KnewLean pick reach result }
{
    lean::known_lean(pick.into(), reach).into()
}

pub fn ulgenzhir_firm_wedge(
    a: i32,
    b: i32,
    c: i32,
    h: i32,
    pick: FlatPick,
    frame: i32,
    reach: i32,
) -> FlatFirm
    ensures { FirmedWedge (wedge a b c h) pick frame reach result }
{
    let wedge = Solid::Wedge(wedge_of(a, b, c, h));
    firm::firm_solid(wedge, b"", pick.into(), frame, reach).into()
}

pub fn ulgenzhir_firm_stack(
    width: i32,
    height: i32,
    depth: i32,
    bytes: &[u8],
    pick: FlatPick,
    frame: i32,
    reach: i32,
) -> FlatFirm
    ensures { FirmedStack (stack width height depth) bytes.now pick frame reach result }
{
    let stack = Solid::Stack(stack_of(width, height, depth));
    firm::firm_solid(stack, bytes, pick.into(), frame, reach).into()
}

pub fn ulgenzhir_read_p4(src: &[u8], rows: &mut [u8]) -> FlatReading
    ensures { ReadP4 src.now rows.old rows.new result }
{
    p4_read::read(src, rows).into()
}

pub fn ulgenzhir_write_p4(
    width: i32,
    height: i32,
    depth: i32,
    bytes: &[u8],
    out: &mut [u8],
) -> FlatWriting
    ensures { WroteP4 (stack width height depth) bytes.now out.old out.new result }
{
    let stack = stack_of(width, height, depth);
    p4_write::write(stack, bytes, out).into()
}

pub fn ulgenzhir_display(nx: i32, ny: i32, nz: i32) -> FlatDisplay
    ensures { Displayed nx ny nz result }
{
    display::display_normal(nx, ny, nz).into()
}
