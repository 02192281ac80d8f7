// A copy of the rows of one image, with padding bits zero.
#![tactic(auto)]

ghost use Rattle.std.specs.Prelude.{◌≡◌, ◌+◌, ◌/◌, ◌*◌, ◌^◌, ◌<◌, ◌≤◌, length};
ghost use Rattle.rules.specs.Solids.{slice_bytes};
ghost use Rattle.rules.specs.P4.{rows};
ghost use Rattle.text.specs.Put.{Put};
ghost use Rattle.p4_rows.specs.Copies.{Padding, CopyRoom, cleared};

use stack::SliceSize;
use text::Writer;

// The bits that pad a row.
#[tactic(auto, unfolding(rules::specs::P4::padding, rules::specs::Solids::row_bytes))]
fn padding_bits(width: usize) -> usize
    ensures { Padding width result }
{
    (8 - width % 8) % 8
}

// A row's last byte, its lowest bits zero.
fn cut_byte(b: u8, bits: usize) -> u8
    requires { bits < 8 }
    ensures { result ≡ b / 2 ^ bits * 2 ^ bits }
{
    (b >> bits) << bits
}

// The padding bits of a slice's rows, set to zero in their last bytes.
fn clear_padding(out: &mut [u8], at: usize, size: SliceSize)
    requires { at + slice_bytes size.width size.height ≤ length out.old }
    ensures { out.new ≡ cleared size.height size.width out.old at }
{
    let bytes = size.row_bytes();
    let bits = padding_bits(size.width);
    let mut start = at;
    for _ in 0..size.height {
        let last = start + (bytes - 1);
        out[last] = cut_byte(out[last], bits);
        start += bytes;
    }
}

// The first rows of src, with padding bits zero.
pub fn copy_rows(src: &[u8], out: &mut Writer, size: SliceSize)
    requires { CopyRoom src.now out.old (slice_bytes size.width size.height) }
    ensures { Put out.old (rows size.height size.width src.now) out.new }
{
    let start = out.at;
    out.put(&src[..size.bytes()]);
    if size.width % 8 == 0 {
        return;
    }
    clear_padding(out.out, start, size);
}
