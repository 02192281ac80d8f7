// Document 01's listed cases of P4 stacks, its rules at their edges, and document 02's comments that touch. `stdout` was written from their words.
#![tactic(auto)]

use p4_show::{Shown, Stdout};
use rules::Stack;
use std::fmt::Write;

// The answer, and the lent bytes afterwards.
fn try_read(input: &[u8], lent: &mut [u8]) {
    let answer = Shown(p4_read::read(input, lent));
    let after = Shown(&*lent);
    let _ = writeln!(Stdout, "{answer}{after}");
}

fn try_write(stack: Stack, bytes: &[u8], lent: &mut [u8]) {
    let answer = Shown(p4_write::write(stack, bytes, lent));
    let after = Shown(&*lent);
    let _ = writeln!(Stdout, "{answer}{after}");
}

// Each case, between bars, with four bytes of 7 lent. One call for a list: a proof costs by the call.
fn read_each(cases: &[u8]) {
    for case in cases.split(|b| *b == b'|') {
        try_read(case, &mut [7; 4]);
    }
}

fn sized(width: i32, height: i32, depth: i32) -> Stack {
    Stack {
        width,
        height,
        depth,
    }
}

// With two bytes of 7 lent, and four that hold rows.
fn write_two(stack: Stack) {
    try_write(stack, b"\xff\xff\x01\x81", &mut [7; 2]);
}

fn listed_cases() {
    read_each(
        b"|\
        P41 1|\
        P4\n0 1\n|\
        P4\n257 1\n|\
        P4\n256 1\n|\
        P4\n1 1\n|\
        P4\n1 1\n\xff|\
        P4\n1 1\n\xff\n",
    );
}

// Magic, gaps, comments and the white space that a number is judged behind.
fn header_cases() {
    read_each(
        b"P|\
        P4|\
        P4#\n1 1\n\xff|\
        P4\n#|\
        P4\n# 1 1\n\xff|\
        P4\n0x|\
        P4\n0|\
        P4\n300|\
        P4\n300 |\
        P4 \t\r\n003#|\
        P4 #one\r#two\n 003\t1\r\n|\
        P4 3 1#\xff|\
        P4 0000000000000000000000000003 1 \xff|\
        P4 9999999999999999999999999999 1 \xff|\
        P4 9 1 \xff\xff",
    );
}

// Comments that touch the magic, the width or the height (2026-02).
fn touching_cases() {
    read_each(
        b"P4#c\n3 2\n\xa0\x40|\
        P4#c\r3 2\n\xa0\x40|\
        P4\n3#w\n2\n\xa0\x40|\
        P4\n3#w\n#x\n 2#h\n\xa0\x40|\
        P4#a\n#b\n\t3 2\n\xa0\x40|\
        P4\n3 2##\n\xa0\x40|\
        P4\n3#2\n2#\n\xa0\x40|\
        P4\n3 2#h\n\xa0\x40P4#z\n3#\n2#\n\x20\xc0",
    );
}

// After the height one line end, and no more; and what of comments is refused.
fn touching_edges() {
    read_each(
        b"P4\n3 2#h\r\n\x40|\
        P4\n3 2 #h\n|\
        P4#|\
        P4#c|\
        P4\n3 2#h|\
        P4\n0#w|\
        P4\n0#w\n|\
        P4\n300#w\n2#h\n|\
        P4#a\nx|\
        P4x|\
        P4\n3 2#h\n\xa0",
    );
}

// A second image, and a buffer too short.
fn image_cases() {
    read_each(
        b"P4 1 1 \xffP4\n01 #\n1\n\x7f|\
        P4 1 1 \xffP5 1 1 \xff|\
        P4 1 1 \xffP4 1 2 \xff\xff|\
        P4 1 1 \xffP4 2 0 \xff|\
        P4 1 1 \xffP4 1 1 |\
        P4 1 4 \xff\xff\xff\xff|\
        P4 1 5 \xff\xff\xff\xff\xff|\
        P4 1 5 \xff\xff\xff\xff\xffP4 1 5 \xff",
    );
}

// 256 images; then one byte more, which would begin no image; and a whole image more.
fn long_cases() {
    let images = [*b"P4 1 1 \xff"; 257];
    let images = images.as_flattened();
    try_read(&images[..2048], &mut [7; 257]);
    for count in [2048, 2049, 2056] {
        try_read(&images[..count], &mut [7; 2]);
    }
}

fn writer_cases() {
    try_write(sized(9, 1, 2), b"\xff\xff\x01\x81\x55", &mut [7; 20]);
    try_write(sized(9, 1, 2), b"\xff\xff\x01\x81", &mut [7; 17]);
    try_write(sized(100, 1, 1), b"0123456789abc", &mut [7; 23]);
    for stack in [
        sized(0, 1, 1),
        sized(257, 1, 1),
        sized(1, -1, 1),
        sized(1, 1, -2147483648),
        sized(2147483647, 2147483647, 2147483647),
        sized(9, 1, 3),
        sized(9, 1, 2),
    ] {
        write_two(stack);
    }
}

fn main() {
    listed_cases();
    header_cases();
    touching_cases();
    touching_edges();
    image_cases();
    long_cases();
    writer_cases();
}
