// Reads a P4 stack from standard input and writes its plain form, or its refusal, to standard output.
// It reads at most 65,536 bytes; no stack in them has more rows or a longer plain form than that.
#![tactic(auto)]

ghost use Rattle.std.specs.Prelude.{◌≤◌, length, IfOk};

use p4_show::{Shown, Stdout};
use rules::Writing;
use std::fmt::Write;

const STDIN_FILENO: i32 = 0;

const STDOUT_FILENO: i32 = 1;

// The plain form of the stack in src, at the front of out: how many bytes.
fn make_plain(src: &[u8], rows: &mut [u8], out: &mut [u8]) -> Writing
    ensures { IfOk result (λ count. count ≤ length out.new) }
{
    let stack = p4_read::read(src, rows)?;
    p4_write::write(stack, rows, out)
}

fn main() {
    let mut input = io::large_buffer();
    let n = io::read_full(STDIN_FILENO, &mut input);
    let mut rows = io::large_buffer();
    let mut out = io::large_buffer();
    match make_plain(&input[..n], &mut rows, &mut out) {
        Ok(count) => {
            io::write_all(STDOUT_FILENO, &out[..count]);
        }
        Err(refused) => {
            let refused = Shown(refused);
            let _ = write!(Stdout, "{refused}");
        }
    }
}
