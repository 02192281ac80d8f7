// The reader of P4 stacks.
#![tactic(auto)]

ghost use Rattle.std.specs.Prelude.{◌≡◌, ◌≤◌};
ghost use Rattle.std.proofs.lemmas.List.Edits.{sets};
ghost use Rattle.rules.specs.P4.{images_at, sizes, ReadPromise};
ghost use Rattle.p4_read.specs.Images.{ImageIs, ImagesAre, StoreRoom, FirstSizes, rows_read};

use p4_header::refuse;
use rules::{Reading, Refusal, RefusedStack, Stack};
use stack::SliceSize;
use text::Writer;

fn stack_of(size: SliceSize, depth: usize) -> Stack
    requires { depth ≤ 256 }
    ensures { result ≡ sizes size.width size.height depth }
{
    Stack {
        width: size.width as i32,
        height: size.height as i32,
        depth: depth as i32,
    }
}

// The place of the rows of the image at a place, if it has this size.
fn find_rows(src: &[u8], at: usize, size: SliceSize) -> Result<usize, RefusedStack>
    ensures { ImageIs size.width size.height src.now at result }
{
    let header = p4_header::read_header(src, at)?;
    if header.width != size.width || header.height != size.height {
        return Err(refuse(Refusal::OtherSides, at));
    }
    if src.len() < header.next + size.bytes() {
        return Err(refuse(Refusal::Rows, src.len()));
    }
    Ok(header.next)
}

// How many images there are, each of which must have this size.
#[tactic(auto, using(crate::proofs::Keeping::images_refused))]
fn judge_images(src: &[u8], size: SliceSize) -> Result<usize, RefusedStack>
    ensures { ImagesAre size.width size.height src.now result }
{
    let mut at = 0;
    for depth in 0..256 {
        if at == src.len() {
            return Ok(depth);
        }
        at = find_rows(src, at, size)? + size.bytes();
    }
    if at < src.len() {
        return Err(refuse(Refusal::Images, at));
    }
    Ok(256)
}

// Stores the rows of all images, which were judged and are so many, slice after slice at the front of out.
// The places of their rows are found anew: a local array of them would be cleared by a call of C's memset,
// which the library does without.
fn store_images(src: &[u8], size: SliceSize, depth: usize, out: &mut [u8])
    requires { StoreRoom size.width size.height src.now depth out.old }
    ensures { out.new ≡ sets out.old 0 (rows_read (images_at 256 size.width size.height src.now 0)) }
{
    let mut writer = Writer { out, at: 0 };
    let mut at = 0;
    for _ in 0..depth {
        let start = find_rows(src, at, size).unwrap();
        p4_rows::copy_rows(&src[start..], &mut writer, size);
        at = start + size.bytes();
    }
}

// The stack whose first image has this size. A refusal writes nothing: all images are judged, then the lent
// buffer, before a row is stored.
fn read_images(src: &[u8], size: SliceSize, out: &mut [u8]) -> Reading
    requires { FirstSizes src.now size.width size.height }
    ensures { ReadPromise src.now out.old out.new result }
{
    let depth = judge_images(src, size)?;
    let bytes = depth * size.bytes();
    if out.len() < bytes {
        return Err(refuse(Refusal::Room, bytes));
    }
    store_images(src, size, depth, out);
    Ok(stack_of(size, depth))
}

// The stack that src holds: its sizes, and its rows at the front of out.
pub fn read(src: &[u8], out: &mut [u8]) -> Reading
    ensures { ReadPromise src.now out.old out.new result }
{
    let first = p4_header::read_header(src, 0)?;
    let size = SliceSize {
        width: first.width,
        height: first.height,
    };
    read_images(src, size, out)
}
