// The header of an image, read front to back.
#![tactic(auto)]

ghost use Rattle.std.specs.Prelude.{◌≡◌, true, ◌+◌, ◌-◌, ◌*◌, ◌≤◌, min, drop};
ghost use Rattle.rules.specs.Decimals.{is_digit};
ghost use Rattle.rules.specs.P4.{is_end, is_white};
ghost use Rattle.rules.specs.Refusals.{number_of};
ghost use Rattle.p4_header.specs.Reads.{Comment, White, Mix, Digits, FieldIs, HeaderIs};

use rules::{Refusal, RefusedStack};

// A number's value and the place past it.
#[derive(Clone, Copy)]
struct Field {
    value: usize,
    next: usize,
}

// `next` is the place of the rows.
#[derive(Clone, Copy)]
pub struct Header {
    pub width: usize,
    pub height: usize,
    pub next: usize,
}

#[tactic(auto, unfolding(rules::specs::P4::is_end))]
fn is_end(b: u8) -> bool
    ensures { result ≡ is_end b }
{
    matches!(b, b'\r' | b'\n')
}

#[tactic(auto, unfolding(rules::specs::P4::is_white, rules::specs::P4::is_end))]
fn is_white(b: u8) -> bool
    ensures { result ≡ is_white b }
{
    is_end(b) || matches!(b, b' ' | b'\t')
}

// A refusal with its number.
pub fn refuse(why: Refusal, value: usize) -> RefusedStack
    ensures { result ≡ record { number = number_of why; value = value } }
{
    RefusedStack {
        number: why as u32,
        value,
    }
}

// The bytes from a place on, none behind the end.
fn rest(src: &[u8], at: usize) -> &[u8]
    ensures { result.now ≡ drop at src.now }
{
    &src[at.min(src.len())..]
}

// A comment, through its line end, and the place past it.
fn read_comment(src: &[u8], at: usize) -> Result<usize, RefusedStack>
    ensures { Comment src.now at result }
{
    let bytes = rest(src, at);
    match bytes.iter().position(|b| is_end(*b)) {
        Some(length) => Ok(at + length + 1),
        None => Err(refuse(Refusal::Header, at + bytes.len())),
    }
}

// The white space required, and the place past it: one white space byte, or a comment that begins at once.
fn read_white(src: &[u8], at: usize) -> Result<usize, RefusedStack>
    ensures { White src.now at result }
{
    match src.get(at) {
        Some(b) if is_white(*b) => Ok(at + 1),
        Some(b'#') => read_comment(src, at),
        _ => Err(refuse(Refusal::Header, at)),
    }
}

// The place past any mix of white space and comments.
fn skip_mix(src: &[u8], at: usize) -> usize
    ensures { Mix src.now at result }
{
    let bytes = rest(src, at);
    let mut comment = false;
    for (i, b) in bytes.iter().enumerate() {
        if comment {
            comment = !is_end(*b);
        } else if *b == b'#' {
            comment = true;
        } else if !is_white(*b) {
            return at + i;
        }
    }
    at + bytes.len()
}

// One digit more; 100000 stands for every value above it.
fn add_digit(v: usize, b: u8) -> usize
    requires { (v ≤ 100000) × (is_digit b ≡ true) }
    ensures { result ≡ min 100000 (v * 10 + (b - 48)) }
{
    (v * 10 + usize::from(b - b'0')).min(100000)
}

// The digits at a place and the place past them.
fn read_digits(src: &[u8], at: usize) -> Field
    ensures { Digits src.now at result.value result.next }
{
    let bytes = rest(src, at);
    let mut value = 0;
    for (i, b) in bytes.iter().enumerate() {
        if !text::is_digit(*b) {
            return Field {
                value,
                next: at + i,
            };
        }
        value = add_digit(value, *b);
    }
    Field {
        value,
        next: at + bytes.len(),
    }
}

// The rest of a gap, a number from 1 to 256 and the white space required behind it.
// The number is judged once that was seen.
fn read_field(src: &[u8], at: usize) -> Result<Field, RefusedStack>
    ensures { FieldIs src.now at result }
{
    let first = skip_mix(src, at);
    let digits = read_digits(src, first);
    if digits.next <= first {
        return Err(refuse(Refusal::Header, first));
    }
    let next = read_white(src, digits.next)?;
    let value = digits.value;
    if value < 1 || 256 < value {
        return Err(refuse(Refusal::Sides, first));
    }
    Ok(Field { value, next })
}

// "P4", a gap, width, a gap, height, one white space byte.
pub fn read_header(src: &[u8], at: usize) -> Result<Header, RefusedStack>
    ensures { HeaderIs src.now at result }
{
    if !rest(src, at).starts_with(b"P4") {
        return Err(refuse(Refusal::Magic, at));
    }
    let gap = read_white(src, at + 2)?;
    let width = read_field(src, gap)?;
    let height = read_field(src, width.next)?;
    Ok(Header {
        width: width.value,
        height: height.value,
        next: height.next,
    })
}
