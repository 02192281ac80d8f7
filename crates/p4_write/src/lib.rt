// The writer of P4 stacks: the plain form.
#![tactic(auto)]

ghost use Rattle.rules.specs.P4.{sizes, plain_header, slices, WritePromise};
ghost use Rattle.stack.specs.Sides.{Side};
ghost use Rattle.text.specs.Put.{Room, Put};
ghost use Rattle.p4_write.specs.Slices.{Figures, SlicesAsk, SlicesRoom};

use rules::{Refusal, Stack, Writing};
use stack::SliceSize;
use text::Writer;

// How many digits a side has.
fn figures(n: usize) -> usize
    requires { Side n }
    ensures { Figures n result }
{
    n.ilog10() as usize + 1
}

fn put_header(out: &mut Writer, size: SliceSize)
    requires { Room out.old (plain_header size.width size.height) }
    ensures { Put out.old (plain_header size.width size.height) out.new }
{
    out.put(b"P4\n");
    out.put_number(size.width as u32);
    out.put(b" ");
    out.put_number(size.height as u32);
    out.put(b"\n");
}

fn write_slices(size: SliceSize, depth: usize, bytes: &[u8], out: &mut Writer)
    requires { SlicesRoom size.width size.height depth bytes.now out.old }
    ensures { Put out.old (slices depth size.width size.height bytes.now) out.new }
{
    for z in 0..depth {
        put_header(out, size);
        p4_rows::copy_rows(&bytes[z * size.bytes()..], out, size);
    }
}

// At the front of out, if there is room.
fn write_stack(size: SliceSize, depth: usize, bytes: &[u8], out: &mut [u8]) -> Writing
    requires { SlicesAsk size.width size.height depth bytes.now }
    ensures { WritePromise (sizes size.width size.height depth) bytes.now out.old out.new result }
{
    let header = 5 + figures(size.width) + figures(size.height);
    let need = depth * (header + size.bytes());
    if out.len() < need {
        return Err(p4_header::refuse(Refusal::Room, need));
    }
    let mut writer = Writer { out, at: 0 };
    write_slices(size, depth, bytes, &mut writer);
    Ok(writer.at)
}

// The plain form of a stack, at the front of out.
pub fn write(stack: Stack, bytes: &[u8], out: &mut [u8]) -> Writing
    ensures { WritePromise stack bytes.now out.old out.new result }
{
    if !stack::is_permitted(stack, bytes) {
        return Err(p4_header::refuse(Refusal::Solid, 0));
    }
    let size = SliceSize {
        width: stack.width as usize,
        height: stack.height as usize,
    };
    write_stack(size, stack.depth as usize, bytes, out)
}
