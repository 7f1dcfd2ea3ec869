// The lines of a lent text, read one after another. This crate knows no tables.
#![tactic(auto)]

ghost use Rattle.std.specs.Prelude.{◌≡◌, ◌+◌, ◌*◌, ◌<◌, ◌≤◌, [], drop, Some, None, MatchOption, MatchBool};
ghost use Rattle.std.proofs.Math.Option.{none, some};
ghost use Rattle.model.specs.Basics.{bit};
ghost use Rattle.model.specs.Reading.{good, bad, after};
ghost use Rattle.lines.specs.Outcome.{figure, number_of, either_of, Told};

// The text from the first line on that is not as due.
#[derive(Clone, Copy)]
pub struct NotDue<'a> {
    pub from: &'a [u8],
}

// The lines that are still to be read.
#[derive(Clone, Copy)]
pub struct Lines<'a> {
    pub rest: &'a [u8],
}

// The digit that a text begins with, and the rest.
fn digit(text: &[u8]) -> Option<(u64, &[u8])>
    ensures { MatchOption result (figure text.now ≡ None)
        (λ x. (figure text.now ≡ Some x.0) × (x.1.now ≡ drop 1 text.now)) }
{
    let (first, rest) = text.split_first()?;
    if first.is_ascii_digit() {
        Some((u64::from(*first - b'0'), rest))
    } else {
        None
    }
}

// n with the digit d after it, unless that is above `high`.
fn with_digit(n: u64, d: u64, high: u64) -> Option<u64>
    ensures { MatchOption result (high < 10 * n + d) (λ m. (m ≡ 10 * n + d) × (m ≤ high)) }
{
    let next = n.checked_mul(10)?.checked_add(d)?;
    if high < next { None } else { Some(next) }
}

// A plain number of at most `high` and its line feed, and the rest: no sign and no leading zero pass.
// kept: digit by digit. std's `parse` takes a plus and leading zeros, of a `&str` that has nothing behind the number.
fn number(text: &[u8], high: u64) -> Option<(u64, &[u8])>
    ensures { MatchOption result (number_of [] 0 high text.now ≡ bad text.now)
        (λ x. number_of [] 0 high text.now ≡ good x.0 x.1.now) }
{
    let (mut n, mut rest) = digit(text)?;
    if high < n {
        return None;
    }
    while let Some((d, after)) = digit(rest) {
        // no digit may follow a zero
        if n == 0 {
            return None;
        }
        n = with_digit(n, d, high)?;
        rest = after;
    }
    Some((n, rest.strip_prefix(b"\n")?))
}

// A key, a number from `low` to `high` and a line feed, and the rest.
fn keyed_number<'a>(text: &'a [u8], key: &[u8], low: u64, high: u64) -> Option<(u64, &'a [u8])>
    ensures { MatchOption result (number_of key.now low high text.now ≡ bad text.now)
        (λ x. number_of key.now low high text.now ≡ good x.0 x.1.now) }
{
    let (n, rest) = number(text.strip_prefix(key)?, high)?;
    if n < low { None } else { Some((n, rest)) }
}

impl<'a> Lines<'a> {
    pub fn not_due(&self) -> NotDue<'a>
        ensures { result.from.now ≡ self.now.rest.now }
    {
        NotDue { from: self.rest }
    }

    // A line that has no number: whether it is due, and then it is read.
    pub fn skip(&mut self, line: &[u8]) -> bool
        ensures { MatchBool result (after line.now self.old.rest.now ≡ some self.new.rest.now)
            ((after line.now self.old.rest.now ≡ none) × (self.new.rest.now ≡ self.old.rest.now)) }
    {
        let Some(rest) = self.rest.strip_prefix(line) else {
            return false;
        };
        self.rest = rest;
        true
    }

    // One of two lines that have no number: whether it is the second.
    pub fn either(&mut self, first: &[u8], second: &[u8]) -> Result<bool, NotDue<'a>>
        ensures { Told bit (either_of first.now second.now self.old.rest.now) self.new.rest.now result }
    {
        if self.skip(first) {
            Ok(false)
        } else if self.skip(second) {
            Ok(true)
        } else {
            Err(self.not_due())
        }
    }

    // A line of a key and a plain number from `low` to `high`.
    pub fn number(&mut self, key: &[u8], low: u64, high: u64) -> Result<u64, NotDue<'a>>
        ensures { Told (λ n. n) (number_of key.now low high self.old.rest.now) self.new.rest.now result }
    {
        let (n, rest) = keyed_number(self.rest, key, low, high).ok_or(self.not_due())?;
        self.rest = rest;
        Ok(n)
    }
}
