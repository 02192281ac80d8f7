// The answers of P4's reader and writer, as the programs that try them print them; and standard output, to print them to.
#![tactic(auto)]

ghost use Rattle.std.specs.Prelude.{Some, IsOk};
ghost use Rattle.p4_show.specs.Texts.{refused, stack, reading, writing, bytes};

use rules::{Reading, RefusedStack, Stack, Writing};
use std::fmt;

const STDOUT_FILENO: i32 = 1;

// Standard output, by the kit's io. A write that fails is passed over, and the next is made.
#[derive(Drop)]
pub struct Stdout;

impl fmt::Write for Stdout {
    fn write_str(&mut self, s: &str) -> fmt::Result
        ensures { IsOk result }
    {
        io::write_all(STDOUT_FILENO, s.as_bytes());
        Ok(())
    }
}

// What is printed in the programs' form.
#[derive(Drop)]
pub struct Shown<T>(pub T);

impl fmt::Display for Shown<RefusedStack> {
    ghost output = { λ s. Some (refused s.0) };

    fn fmt<W: fmt::Write>(&self, f: &mut fmt::Formatter<W>) -> fmt::Result {
        let RefusedStack { number, value } = self.0;
        write!(f, "refused {number} {value}")
    }
}

impl fmt::Display for Shown<Stack> {
    ghost output = { λ s. Some (stack s.0) };

    fn fmt<W: fmt::Write>(&self, f: &mut fmt::Formatter<W>) -> fmt::Result {
        let Stack {
            width,
            height,
            depth,
        } = self.0;
        write!(f, "stack {width} {height} {depth}")
    }
}

impl fmt::Display for Shown<Reading> {
    ghost output = { λ s. Some (reading s.0) };

    fn fmt<W: fmt::Write>(&self, f: &mut fmt::Formatter<W>) -> fmt::Result {
        match self.0 {
            Ok(stack) => Shown(stack).fmt(f),
            Err(refused) => Shown(refused).fmt(f),
        }
    }
}

impl fmt::Display for Shown<Writing> {
    ghost output = { λ s. Some (writing s.0) };

    fn fmt<W: fmt::Write>(&self, f: &mut fmt::Formatter<W>) -> fmt::Result {
        match self.0 {
            Ok(count) => write!(f, "written {count}"),
            Err(refused) => Shown(refused).fmt(f),
        }
    }
}

// Each byte as a number, behind a comma.
impl fmt::Display for Shown<&[u8]> {
    ghost output = { λ s. Some (bytes s.0.now) };

    fn fmt<W: fmt::Write>(&self, f: &mut fmt::Formatter<W>) -> fmt::Result {
        for b in self.0 {
            write!(f, ",{b}")?;
        }
        Ok(())
    }
}
