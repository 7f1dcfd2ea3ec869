// Text and decimal numbers written into a lent buffer, one after another.
#![tactic(auto)]

ghost use Rattle.std.specs.Prelude.{◌≡◌, ◌++◌, ◌∷◌, ◌<◌, ◌≤◌, [], length, take};
ghost use Rattle.model.specs.Snapshot.{digits_up_to};
ghost use Rattle.decimal.specs.Text.{Room, Wrote};
ghost use Rattle.decimal.specs.Writing.{HasRoom, Appended};

// A buffer, and the place behind what is written in it.
// kept: a place beside the buffer. There is no Vec (no heap), and the sum reads the front.
#[derive(Drop)]
pub struct Writer<'a> {
    pub buf: &'a mut [u8],
    pub at: usize,
}

impl<'a> Writer<'a> {
    pub fn new(buf: &'a mut [u8]) -> Writer<'a>
        ensures same_reference { result.buf.ghost_name ≡ buf.entry.ghost_name }
        ensures unwritten { result.buf.now ≡ buf.old }
        ensures front { result.at ≡ 0 }
    {
        Writer { buf, at: 0 }
    }

    pub fn written(&self) -> &[u8]
        requires { self.now.at ≤ length self.now.buf.now }
        ensures { result.now ≡ take self.now.at self.now.buf.now }
    {
        &self.buf[..self.at]
    }

    #[inline(always)]
    pub fn text(&mut self, text: &[u8])
        requires { HasRoom self.old text.now }
        ensures { Appended self.old self.new text.now }
    {
        self.at = put_text(self.buf, self.at, text);
    }

    // Most numbers of an ordinary snapshot have one digit: to store it here takes a third of what the call takes.
    #[inline(always)]
    pub fn number(&mut self, n: u64)
        requires { HasRoom self.old (digits_up_to 19 n) }
        ensures { Appended self.old self.new (digits_up_to 19 n) }
    {
        self.at = if n < 10 {
            put_digit(self.buf, self.at, n)
        } else {
            put_number(self.buf, self.at, n)
        };
    }

    // A key, a number and a line feed.
    #[inline(always)]
    pub fn line(&mut self, key: &[u8], n: u64)
        requires { HasRoom self.old (key.now ++ (digits_up_to 19 n ++ (10 ∷ []))) }
        ensures { Appended self.old self.new (key.now ++ (digits_up_to 19 n ++ (10 ∷ []))) }
    {
        self.text(key);
        self.number(n);
        self.text(b"\n");
    }
}

// A text; the place behind it. kept: stored byte by byte. Where a key is known this becomes a few stores; copy_from_slice
// looks at each first whether text and buffer overlap.
#[inline(always)]
pub fn put_text(buf: &mut [u8], at: usize, text: &[u8]) -> usize
    requires { Room buf.old at text.now }
    ensures { Wrote buf.old at text.now result buf.new }
{
    for (i, byte) in text.iter().enumerate() {
        buf[at + i] = *byte;
    }
    at + text.len()
}

// A number of one digit; the place behind it.
#[inline(always)]
fn put_digit(buf: &mut [u8], at: usize, n: u64) -> usize
    requires digit { n < 10 }
    requires room { Room buf.old at (digits_up_to 19 n) }
    ensures { Wrote buf.old at (digits_up_to 19 n) result buf.new }
{
    buf[at] = b'0' + n as u8;
    at + 1
}

// How many digits n has.
#[tactic(auto, using(crate::proofs::Laws::count_one, crate::proofs::Laws::count_is))]
fn digit_count(n: u64) -> usize
    ensures { result ≡ length (digits_up_to 19 n) }
{
    if n == 0 { 1 } else { n.ilog10() as usize + 1 }
}

// The digits of n with no leading zeros; the place behind them.
// Not inlined, since each key's `line` would have it. (With texts by copy_from_slice that brought memmove, which
// include/ntsync.h says no host need have, and a fifth more instructions; not tried again with `put_text`.)
#[inline(never)]
pub fn put_number(buf: &mut [u8], at: usize, n: u64) -> usize
    requires { Room buf.old at (digits_up_to 19 n) }
    ensures { Wrote buf.old at (digits_up_to 19 n) result buf.new }
{
    let end = at + digit_count(n);
    itoa::write_digits(n, buf, end);
    end
}
