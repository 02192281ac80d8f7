// The panel's C interface (include/ulgenzhir.h) as a static library: each export calls the function of crate `panel` that has its name, and states its promise again.
#![tactic(auto)]

ghost use Rattle.rules.specs.Vectors.{vector};
ghost use Rattle.panel.specs.Promises.{wedge, stack, PickedWedge, PickedStack, TouchedWedge, TouchedStack, CheckedWedge, CheckedStack, WalkedWedge, WalkedStack, KnewLean, FirmedWedge, FirmedStack, ReadP4, WroteP4, Displayed};

use flat::{
    FlatCheck, FlatDisplay, FlatFirm, FlatLean, FlatPick, FlatReading, FlatReady, FlatTouch,
    FlatWriting,
};

#[unsafe(no_mangle)]
pub extern "C" fn ulgenzhir_pick_wedge(
    a: i32,
    b: i32,
    c: i32,
    h: i32,
    px: i32,
    py: i32,
    pz: i32,
    frame: i32,
    reach: i32,
) -> FlatPick
    ensures { PickedWedge (wedge a b c h) (vector px py pz) frame reach result }
{
    panel::ulgenzhir_pick_wedge(a, b, c, h, px, py, pz, frame, reach)
}

#[unsafe(no_mangle)]
pub extern "C" fn ulgenzhir_pick_stack(
    width: i32,
    height: i32,
    depth: i32,
    bytes: &[u8],
    px: i32,
    py: i32,
    pz: i32,
    frame: i32,
    reach: i32,
) -> FlatPick
    ensures { PickedStack (stack width height depth) bytes.now (vector px py pz) frame reach result }
{
    panel::ulgenzhir_pick_stack(width, height, depth, bytes, px, py, pz, frame, reach)
}

#[unsafe(no_mangle)]
pub extern "C" fn ulgenzhir_touch_wedge(
    a: i32,
    b: i32,
    c: i32,
    h: i32,
    px: i32,
    py: i32,
    pz: i32,
    frame: i32,
    reach: i32,
) -> FlatTouch
    ensures { TouchedWedge (wedge a b c h) (vector px py pz) frame reach result }
{
    panel::ulgenzhir_touch_wedge(a, b, c, h, px, py, pz, frame, reach)
}

#[unsafe(no_mangle)]
pub extern "C" fn ulgenzhir_touch_stack(
    width: i32,
    height: i32,
    depth: i32,
    bytes: &[u8],
    px: i32,
    py: i32,
    pz: i32,
    frame: i32,
    reach: i32,
) -> FlatTouch
    ensures { TouchedStack (stack width height depth) bytes.now (vector px py pz) frame reach result }
{
    panel::ulgenzhir_touch_stack(width, height, depth, bytes, px, py, pz, frame, reach)
}

#[unsafe(no_mangle)]
pub extern "C" fn ulgenzhir_check_wedge(
    a: i32,
    b: i32,
    c: i32,
    h: i32,
    px: i32,
    py: i32,
    pz: i32,
    frame: i32,
    reach: i32,
) -> FlatCheck
    ensures { CheckedWedge (wedge a b c h) (vector px py pz) frame reach result }
{
    panel::ulgenzhir_check_wedge(a, b, c, h, px, py, pz, frame, reach)
}

#[unsafe(no_mangle)]
pub extern "C" fn ulgenzhir_check_stack(
    width: i32,
    height: i32,
    depth: i32,
    bytes: &[u8],
    px: i32,
    py: i32,
    pz: i32,
    frame: i32,
    reach: i32,
) -> FlatCheck
    ensures { CheckedStack (stack width height depth) bytes.now (vector px py pz) frame reach result }
{
    panel::ulgenzhir_check_stack(width, height, depth, bytes, px, py, pz, frame, reach)
}

#[unsafe(no_mangle)]
pub extern "C" fn ulgenzhir_walk_wedge(
    a: i32,
    b: i32,
    c: i32,
    h: i32,
    ready: FlatReady,
    frame: i32,
    reach: i32,
) -> FlatPick
    ensures { WalkedWedge (wedge a b c h) ready frame reach result }
{
    panel::ulgenzhir_walk_wedge(a, b, c, h, ready, frame, reach)
}

#[unsafe(no_mangle)]
pub extern "C" fn ulgenzhir_walk_stack(
    width: i32,
    height: i32,
    depth: i32,
    bytes: &[u8],
    ready: FlatReady,
    frame: i32,
    reach: i32,
) -> FlatPick
    ensures { WalkedStack (stack width height depth) bytes.now ready frame reach result }
{
    panel::ulgenzhir_walk_stack(width, height, depth, bytes, ready, frame, reach)
}

#[unsafe(no_mangle)]
pub extern "C" fn ulgenzhir_known_lean(pick: FlatPick, reach: i32) -> FlatLean
    ensures { KnewLean pick reach result }
{
    panel::ulgenzhir_known_lean(pick, reach)
}

#[unsafe(no_mangle)]
pub extern "C" fn ulgenzhir_firm_wedge(
    a: i32,
    b: i32,
    c: i32,
    h: i32,
    pick: FlatPick,
    frame: i32,
    reach: i32,
) -> FlatFirm
    ensures { FirmedWedge (wedge a b c h) pick frame reach result }
{
    panel::ulgenzhir_firm_wedge(a, b, c, h, pick, frame, reach)
}

#[unsafe(no_mangle)]
pub extern "C" fn ulgenzhir_firm_stack(
    width: i32,
    height: i32,
    depth: i32,
    bytes: &[u8],
    pick: FlatPick,
    frame: i32,
    reach: i32,
) -> FlatFirm
    ensures { FirmedStack (stack width height depth) bytes.now pick frame reach result }
{
    panel::ulgenzhir_firm_stack(width, height, depth, bytes, pick, frame, reach)
}

#[unsafe(no_mangle)]
pub extern "C" fn ulgenzhir_read_p4(src: &[u8], rows: &mut [u8]) -> FlatReading
    ensures { ReadP4 src.now rows.old rows.new result }
{
    panel::ulgenzhir_read_p4(src, rows)
}

#[unsafe(no_mangle)]
pub extern "C" fn ulgenzhir_write_p4(
    width: i32,
    height: i32,
    depth: i32,
    bytes: &[u8],
    out: &mut [u8],
) -> FlatWriting
    ensures { WroteP4 (stack width height depth) bytes.now out.old out.new result }
{
    panel::ulgenzhir_write_p4(width, height, depth, bytes, out)
}

#[unsafe(no_mangle)]
pub extern "C" fn ulgenzhir_display(nx: i32, ny: i32, nz: i32) -> FlatDisplay
    ensures { Displayed nx ny nz result }
{
    panel::ulgenzhir_display(nx, ny, nz)
}
