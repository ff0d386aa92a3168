// A text and how far it is read: its bytes, numbers, spaces and ends of lines.
ghost use Rattle.std.specs.Prelude.{◌≡◌, ℕ, ◌+◌, ◌-◌, ◌*◌, ◌<◌, ◌≤◌, Bool, true, false, [], length, drop, ℤ, is_some, IfSome, if◌then◌else◌, ◌==◌, slice_index};
ghost use Rattle.std.specs.List.{prefix_len, AllPass};
ghost use Rattle.command.specs.Reading.{is_digit, nat_after, fitting, first_of, number_in, past, Passes, GoesOn, expected, next_line, negated, signed_in, signed_rest, field_in, field_rest, signed_field_in, signed_field_rest};

use std::marker::Model;

/// The bytes of a script, the place up to which they are read, and the number of the line there, counted from 1.
// The place is a field, and not the slice of what is left: a reader with its place is the project's form.
#[derive(Drop)]
pub struct Reader<'a> {
    bytes: &'a [u8],
    at: usize,
    line: u32,
}

// A clause sees what is still to be read, and the number of its line.
impl<'a> Model for Reader<'a> {
    ghost use Rattle.std.specs.Prelude.{◌≤◌, length, drop};
    ghost use Rattle.command.specs.Unread.{Unread};

    ghost Value = { Unread };

    ghost view = { λ r. record { rest = drop r.at r.bytes.now; line = r.line } };

    ghost invariant = { λ r. r.at ≤ length r.bytes.now };
}

// How many digits the text begins with.
fn run_len(text: &[u8]) -> usize
    ensures { result ≡ prefix_len is_digit text.now }
{
    text.iter().take_while(|b| b.is_ascii_digit()).count()
}

// The number that digits write, where it has at most 32 bits.
fn digits_value(digits: &[u8]) -> Option<u32>
    requires { AllPass is_digit digits.now }
    ensures { result ≡ fitting (nat_after 0 digits.now) }
{
    let mut value: u32 = 0;
    for &d in digits {
        let tens = value.checked_mul(10)?;
        value = tens.checked_add(u32::from(d - b'0'))?;
    }
    Some(value)
}

// A number with a minus before it, of 32 bits with its sign; there is no minus before 0.
fn below_zero(size: u32) -> Option<i32>
    ensures { result ≡ negated size }
{
    if size == 0 {
        return None;
    }
    i32::try_from(-i64::from(size)).ok()
}

impl<'a> Reader<'a> {
    /// A reader at the start of line 1.
    pub fn new(bytes: &'a [u8]) -> Reader<'a>
        ensures bytes { result.rest ≡ bytes.now }
        ensures line { result.line ≡ 1 }
    {
        Reader {
            bytes,
            at: 0,
            line: 1,
        }
    }

    // What is still to be read.
    fn rest(&self) -> &'a [u8]
        ensures { result.now ≡ self.now.rest }
    {
        &self.bytes[self.at..]
    }

    // Passes over so many bytes.
    fn pass(&mut self, count: usize)
        requires { count ≤ length self.old.rest }
        ensures { self.new ≡ record { rest = drop count self.old.rest; line = self.old.line } }
    {
        self.at += count;
    }

    /// Whether all is read.
    pub fn at_end(&self) -> bool
        ensures { result ≡ (length self.now.rest == 0) }
    {
        self.rest().is_empty()
    }

    /// The number of the line that is read.
    pub fn line(&self) -> u32
        ensures { result ≡ self.now.line }
    {
        self.line
    }

    /// Passes over all that is left.
    pub fn skip_all(&mut self)
        ensures { self.new ≡ record { rest = []; line = self.old.line } }
    {
        self.at = self.bytes.len();
    }

    // The next byte, passed over.
    pub(crate) fn next_byte(&mut self) -> Option<u8>
        ensures value { result ≡ first_of self.old.rest }
        ensures after { self.new ≡ record { rest = drop 1 self.old.rest; line = self.old.line } }
    {
        let byte = *self.rest().first()?;
        self.pass(1);
        Some(byte)
    }

    // A number of at most 32 bits, with no leading zero, passed over where it is good.
    fn number(&mut self) -> Option<u32>
        ensures value { result ≡ number_in self.old.rest }
        ensures after { Passes result (prefix_len is_digit self.old.rest) self.old self.new }
    {
        let rest = self.rest();
        let size = run_len(rest);
        let digits = &rest[..size];
        if matches!(digits, [] | [b'0', _, ..]) {
            return None;
        }
        let value = digits_value(digits)?;
        self.pass(size);
        Some(value)
    }

    // One byte that has to stand here.
    fn expect(&mut self, byte: u8) -> Option<()>
        ensures value { result ≡ expected byte self.old.rest }
        ensures after { Passes result 1 self.old self.new }
    {
        if self.rest().first() != Some(&byte) {
            return None;
        }
        self.pass(1);
        Some(())
    }

    // The end of a line, byte 10; the line that follows has the next number.
    pub(crate) fn line_end(&mut self) -> Option<()>
        ensures value { result ≡ expected 10 self.old.rest }
        ensures after { self.new.rest ≡ past result 1 self.old.rest }
        ensures line { self.new.line ≡ (if is_some result then next_line self.old.line else self.old.line) }
    {
        self.expect(b'\n')?;
        self.line = self.line.saturating_add(1);
        Some(())
    }

    // A number that may have a minus before it.
    fn signed_number(&mut self) -> Option<i32>
        ensures value { result ≡ signed_in self.old.rest }
        ensures after { GoesOn result self.old (signed_rest self.old.rest) self.new }
    {
        if self.expect(b'-').is_some() {
            below_zero(self.number()?)
        } else {
            i32::try_from(self.number()?).ok()
        }
    }

    // A space, and behind it a number that is not above `most`.
    #[tactic(auto, unfolding(crate::specs::Reading::field_in, crate::specs::Reading::field_rest))]
    pub(crate) fn field(&mut self, most: u16) -> Option<u16>
        ensures value { result ≡ field_in most self.old.rest }
        ensures within { IfSome result (λ n. n ≤ most) }
        ensures after { GoesOn result self.old (field_rest self.old.rest) self.new }
    {
        self.expect(b' ')?;
        let n = self.number()?;
        u16::try_from(n).ok().filter(|n| *n <= most)
    }

    // A space, and behind it a number that may have a minus.
    #[tactic(auto, unfolding(crate::specs::Reading::signed_field_in, crate::specs::Reading::signed_field_rest))]
    pub(crate) fn signed_field(&mut self) -> Option<i32>
        ensures value { result ≡ signed_field_in self.old.rest }
        ensures after { GoesOn result self.old (signed_field_rest self.old.rest) self.new }
    {
        self.expect(b' ')?;
        self.signed_number()
    }
}
