// A pick's answer as the line that the session prints, and how many bytes that takes at most.
#![tactic(auto)]

ghost use Rattle.std.specs.Prelude.{pos};
ghost use Rattle.rules.specs.Session.{word, three, counts, told, told_accepted, told_refused};
ghost use Rattle.answer.specs.Wrote.{Space, Wrote};

use rules::{Accepted, Pick, Refused, Vector};
use text::Writer;

fn put_word(out: &mut Writer, z: i32)
    requires { Space 12 out.old }
    ensures { Wrote 12 out.old (word z) out.new }
{
    out.put(b" ");
    out.put_signed(z);
}

fn put_count(out: &mut Writer, n: u32)
    requires { Space 11 out.old }
    ensures { Wrote 11 out.old (word (pos n)) out.new }
{
    out.put(b" ");
    out.put_number(n);
}

fn put_three(out: &mut Writer, v: Vector)
    requires { Space 36 out.old }
    ensures { Wrote 36 out.old (three v) out.new }
{
    put_word(out, v.x);
    put_word(out, v.y);
    put_word(out, v.z);
}

fn put_counts(out: &mut Writer, steps: u32, looks: u32)
    requires { Space 23 out.old }
    ensures { Wrote 23 out.old (counts steps looks) out.new }
{
    put_count(out, steps);
    put_count(out, looks);
    out.put(b"\n");
}

fn put_accepted(out: &mut Writer, a: Accepted)
    requires { Space 60 out.old }
    ensures { Wrote 60 out.old (told_accepted a) out.new }
{
    out.put(b"N");
    put_three(out, a.normal);
    put_counts(out, a.steps, a.looks);
}

fn put_refused(out: &mut Writer, r: Refused)
    requires { Space 71 out.old }
    ensures { Wrote 71 out.old (told_refused r) out.new }
{
    out.put(b"R");
    put_count(out, r.number);
    put_three(out, r.place);
    put_counts(out, r.steps, r.looks);
}

pub fn put_answer(out: &mut Writer, p: Pick)
    requires { Space 71 out.old }
    ensures { Wrote 71 out.old (told p) out.new }
{
    match p {
        Ok(a) => put_accepted(out, a),
        Err(r) => put_refused(out, r),
    }
}
