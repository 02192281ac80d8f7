// The wedge session: from the bytes that are read to the bytes that are printed.
#![tactic(auto)]

ghost use Rattle.std.specs.Prelude.{◌*◌, length};
ghost use Rattle.rules.specs.Session.{lines, replies};
ghost use Rattle.answer.specs.Wrote.{Wrote};
ghost use Rattle.session.specs.Printing.{Answers, ReplyRoom, Replied, Enough, Ran};

use rules::{Pick, Question, Solid};
use text::Writer;

fn pick_for(q: Question) -> Pick
    ensures { Answers q result }
{
    pick::pick_solid(Solid::Wedge(q.wedge), b"", q.p, q.frame, q.reach)
}

fn put_reply(out: &mut Writer, line: &[u8])
    requires { ReplyRoom out.old line.now }
    ensures { Replied out.old line.now out.new }
{
    match line::read_line(line) {
        Some(q) => answer::put_answer(out, pick_for(q)),
        None => out.put(b"B\n"),
    }
}

fn put_replies(out: &mut Writer, text: &[u8])
    requires { Enough out.old text.now }
    ensures { Wrote (5 * length text.now) out.old (replies (lines text.now)) out.new }
{
    // A last line without LF counts if not empty.
    let mut rest = text;
    while !rest.is_empty() {
        let end = line::find(rest, 0, b'\n');
        put_reply(out, &rest[..end]);
        rest = &rest[rest.len().min(end + 1)..];
    }
}

// What is printed stands at the front of the lent output, which is long enough for every input.
pub fn run(input: &[u8], out: &mut [u8; 327680]) -> usize
    ensures { Ran input.now out.old out.new result }
{
    let mut writer = Writer { out, at: 0 };
    put_replies(&mut writer, &input[..input.len().min(65536)]);
    writer.at
}
