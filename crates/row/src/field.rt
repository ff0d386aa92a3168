// The parts of a row.
ghost use Rattle.std.specs.Prelude.{◌≡◌, ℕ, ◌≤◌, [], ◌∷◌, ◌++◌, length, drop, ℤ, nat_abs, decimal, sum_by, IsTrue};
ghost use Rattle.std.specs.Fmt.{signed_decimal};
ghost use Rattle.row.specs.Fields.{field_text, fields_text, size_of, is_short};

use crate::figures::{digit_count, write_u32};

// One part of a row. That one is short is said where it is made (`is_short`): an enum can have no model.
#[derive(Clone, Copy)]
pub(crate) enum Field {
    Text(&'static [u8]),
    Number(u32),
}

impl Field {
    // How long it is.
    fn size(&self) -> usize
        ensures { result ≡ length (field_text self.now) }
    {
        match self {
            Field::Text(text) => text.len(),
            Field::Number(n) => digit_count(*n),
        }
    }

    // Writes it at the front of `out`, and says how long it is.
    fn write(&self, out: &mut [u8]) -> usize
        requires { length (field_text self.now) ≤ length out.old }
        ensures value { result ≡ length (field_text self.now) }
        ensures after { out.new ≡ field_text self.now ++ drop (length (field_text self.now)) out.old }
    {
        match self {
            Field::Text(text) => {
                let size = text.len();
                out[..size].copy_from_slice(text);
                size
            }
            Field::Number(n) => write_u32(out, *n),
        }
    }
}

// The digits of a number.
pub(crate) fn digits(n: u32) -> Field
    ensures text { field_text result ≡ decimal n }
    ensures short { IsTrue (is_short result) }
{
    Field::Number(n)
}

// The minus of a number with a sign, if it has one.
pub(crate) fn sign(v: i32) -> Field
    ensures text { field_text result ++ decimal (nat_abs v) ≡ signed_decimal v }
    ensures short { IsTrue (is_short result) }
{
    Field::Text(if v < 0 { b"-" } else { b"" })
}

// How long all fields are.
pub(crate) fn fields_size(fields: &[Field]) -> usize
    requires { size_of fields.now ≤ 99 }
    ensures { result ≡ size_of fields.now }
{
    fields.iter().map(|field| field.size()).sum()
}

// Writes the fields, each after the one before it, and says where the last ends. Each is lent what is left of the buffer.
pub(crate) fn put_fields(out: &mut [u8], fields: &[Field]) -> usize
    requires { length (fields_text fields.now) ≤ length out.old }
    ensures value { result ≡ length (fields_text fields.now) }
    ensures after { out.new ≡ fields_text fields.now ++ drop (length (fields_text fields.now)) out.old }
{
    let mut at = 0;
    for field in fields {
        let size = field.write(&mut out[at..]);
        at += size;
    }
    at
}
