// A line of the session: from its bytes to what it asks.
#![tactic(auto)]

ghost use Rattle.std.specs.Prelude.{◌≡◌, ◌≤◌, pos, neg_ℤ, ◌≤ℤ◌, length, eqb};
ghost use Rattle.std.specs.List.{position_or_len};
ghost use Rattle.line.specs.Reading.{PartEnds, digits_of, NumberRead, Reads, next_wedge, next_three, LineRead};
ghost use Rattle.rules.specs.Session.{within32, next};

use rules::{Question, Vector, Wedge};

// How many bytes stand before the first `mark`, or all of them.
fn count_before(text: &[u8], mark: u8) -> usize
    ensures first { result ≡ position_or_len (λ b. eqb b mark) text.now }
    ensures within { result ≤ length text.now }
{
    text.iter().position(|b| *b == mark).unwrap_or(text.len())
}

// The place of the first `mark` from `at` on, or the text's end.
pub fn find(text: &[u8], at: usize, mark: u8) -> usize
    requires { at ≤ length text.now }
    ensures { PartEnds text.now at mark result }
{
    at + count_before(&text[at..], mark)
}

// One to ten digits.
fn read_digits(part: &[u8]) -> Option<i64>
    ensures { result ≡ digits_of part.now }
{
    if part.is_empty() || 10 < part.len() {
        return None;
    }
    let mut v: u64 = 0;
    for b in part {
        if !text::is_digit(*b) {
            return None;
        }
        v = v * 10 + (*b - b'0') as u64;
    }
    Some(v as i64)
}

// The number, if 32 bits hold it.
fn within32(z: i64) -> Option<i32>
    ensures { result ≡ within32 z }
{
    i32::try_from(z).ok()
}

// The number under a minus, if 32 bits hold it; -0 is one.
#[tactic(auto, using(crate::proofs::Numbers::opposite))]
fn negative(v: i64) -> Option<i32>
    requires { pos 0 ≤ℤ v }
    ensures { result ≡ within32 (neg_ℤ v) }
{
    within32(-v)
}

fn read_number(part: &[u8]) -> Option<i32>
    ensures { NumberRead part.now result }
{
    if part.is_empty() {
        return None;
    }
    if part[0] == b'-' {
        return negative(read_digits(&part[1..])?);
    }
    within32(read_digits(part)?)
}

// The fields of a line that are left to read; no text is left behind the last.
#[derive(Drop)]
struct Fields<'a> {
    rest: Option<&'a [u8]>,
}

impl Fields<'_> {
    fn number(&mut self) -> Option<i32>
        ensures { Reads next self.old result self.new }
    {
        let rest = self.rest?;
        let end = find(rest, 0, b' ');
        self.rest = rest.get(end + 1..);
        read_number(&rest[..end])
    }

    fn wedge(&mut self) -> Option<Wedge>
        ensures { Reads next_wedge self.old result self.new }
    {
        Some(Wedge {
            a: self.number()?,
            b: self.number()?,
            c: self.number()?,
            h: self.number()?,
        })
    }

    fn place(&mut self) -> Option<Vector>
        ensures { Reads next_three self.old result self.new }
    {
        Some(Vector {
            x: self.number()?,
            y: self.number()?,
            z: self.number()?,
        })
    }
}

pub fn read_line(line: &[u8]) -> Option<Question>
    ensures { LineRead line.now result }
{
    let mut fields = Fields { rest: Some(line) };
    let question = Question {
        wedge: fields.wedge()?,
        p: fields.place()?,
        frame: fields.number()?,
        reach: fields.number()?,
    };
    if fields.rest.is_some() {
        return None;
    }
    Some(question)
}
