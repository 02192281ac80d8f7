// Decimal digits; and a writer of bytes and decimal numbers, one after another, into a lent buffer.
#![tactic(auto)]

ghost use Rattle.std.specs.Prelude.{◌≡◌, ◌+◌, ◌≤◌, length};
ghost use Rattle.std.proofs.lemmas.List.Edits.{sets};
ghost use Rattle.rules.specs.Decimals.{is_digit, figure, decimal, signed_decimal};
ghost use Rattle.text.specs.Put.{Room, Put};

// A lent buffer, and the place up to which it is written.
#[derive(Drop)]
pub struct Writer<'a> {
    pub out: &'a mut [u8],
    pub at: usize,
}

#[tactic(auto, unfolding(rules::specs::Decimals::is_digit))]
pub fn is_digit(b: u8) -> bool
    ensures { result ≡ is_digit b }
{
    b.is_ascii_digit()
}

#[tactic(auto, unfolding(rules::specs::Decimals::figure))]
fn last_figure(n: u32) -> u8
    ensures { result ≡ figure n }
{
    b'0' + (n % 10) as u8
}

// Over the slice and not the writer: the compiler makes moves of sixteen bytes of it, and no call of C's memcpy.
fn store(bytes: &[u8], out: &mut [u8], at: usize)
    requires { at + length bytes.now ≤ length out.old }
    ensures { out.new ≡ sets out.old at bytes.now }
{
    for (i, b) in bytes.iter().enumerate() {
        out[at + i] = *b;
    }
}

impl Writer<'_> {
    pub fn put(&mut self, bytes: &[u8])
        requires { Room self.old bytes.now }
        ensures { Put self.old bytes.now self.new }
    {
        store(bytes, self.out, self.at);
        self.at += bytes.len();
    }

    pub fn put_number(&mut self, n: u32)
        requires { Room self.old (decimal n) }
        ensures { Put self.old (decimal n) self.new }
    {
        let last = last_figure(n);
        if n < 10 {
            return self.put(&[last]);
        }
        self.put_number(n / 10);
        self.put(&[last]);
    }

    pub fn put_signed(&mut self, z: i32)
        requires { Room self.old (signed_decimal z) }
        ensures { Put self.old (signed_decimal z) self.new }
    {
        if z < 0 {
            self.put(b"-");
        }
        self.put_number(z.unsigned_abs());
    }
}
