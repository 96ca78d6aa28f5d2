// The lines of a transcript: a record's number, the answer and what it carries.
// The number is the caller's, from the iterator over the records: in a struct beside the text it could not be given for a lone line.
// An answer is given as its number, since a type of answers would take fewer of them than a u8.
ghost use Rattle.std.specs.Prelude.{◌≡◌, ◌<◌, ◌++◌, Some, string_bytes, decimal, OnOk};
ghost use Rattle.machine.specs.Calls.{gives};
ghost use Rattle.scripts.specs.Text.{Adds, hex, line, replied, row, spaced, usage_answer};
ghost use Rattle.std.specs.List.{flat_map};
ghost use Rattle.std.specs.Char.{digit_char};

use std::alloc::AllocError;
use std::fmt;

// Numbers, each printed after a space.
#[derive(Clone, Copy)]
struct Spaced<'a>(&'a [u32]);

impl fmt::Display for Spaced<'_> {
    ghost output = { λ s. Some (spaced s.0.now) };

    fn fmt<W: fmt::Write>(&self, f: &mut fmt::Formatter<W>) -> fmt::Result {
        for value in self.0 {
            write!(f, " {value}")?;
        }
        Ok(())
    }
}

// The hexadecimal digit of a number below 16.
fn hex_digit(value: u8) -> char
    requires { value < 16 }
    ensures digit { result ≡ digit_char value }
    ensures ascii { result < 128 }
{
    if value < 10 {
        char::from(b'0' + value)
    } else {
        char::from(b'a' + (value - 10))
    }
}

// A byte, printed as two lower-case hexadecimal digits. They are written one by one: by the format `{:02x}`, bytes took twice as long.
#[derive(Clone, Copy)]
struct HexByte(u8);

impl fmt::Display for HexByte {
    ghost output = { λ b. Some (hex b.0) };

    fn fmt<W: fmt::Write>(&self, f: &mut fmt::Formatter<W>) -> fmt::Result {
        f.write_char(hex_digit(self.0 / 16))?;
        f.write_char(hex_digit(self.0 % 16))
    }
}

// Bytes, printed in hexadecimal and joined. One type for these and the numbers would need a slice of wrapped items.
#[derive(Clone, Copy)]
struct Hex<'a>(&'a [u8]);

impl fmt::Display for Hex<'_> {
    ghost output = { λ h. Some (flat_map hex h.0.now) };

    fn fmt<W: fmt::Write>(&self, f: &mut fmt::Formatter<W>) -> fmt::Result {
        for &byte in self.0 {
            HexByte(byte).fmt(f)?;
        }
        Ok(())
    }
}

// Appends the line of an answer that is its number alone.
pub fn push_plain(out: &mut String, number: usize, answer: u8) -> Result<(), AllocError>
    ensures text { OnOk result (string_bytes out.new ≡ string_bytes out.old ++ row number (decimal answer)) }
    ensures adds { OnOk result (Adds (string_bytes out.old) (string_bytes out.new) number (decimal answer)) }
{
    write!(out, "{number} {answer}\n")
}

// Appends the line of an answer that carries numbers.
pub fn push_numbers(
    out: &mut String,
    number: usize,
    answer: u8,
    carried: &[u32],
) -> Result<(), AllocError>
    ensures text { OnOk result (string_bytes out.new ≡ string_bytes out.old ++ row number (decimal answer ++ spaced carried.now)) }
    ensures adds { OnOk result (Adds (string_bytes out.old) (string_bytes out.new) number (decimal answer ++ spaced carried.now)) }
{
    let carried = Spaced(carried);
    write!(out, "{number} {answer}{carried}\n")
}

// Appends the line of a usage, with the numbers of entries, sharing records, marks and frames.
pub fn push_counts(out: &mut String, number: usize, counts: [u32; 4]) -> Result<(), AllocError>
    ensures { OnOk result (string_bytes out.new ≡ string_bytes out.old ++ line number (usage_answer counts)) }
{
    push_numbers(out, number, 0, &counts)
}

// Appends the line of a read that gave the bytes.
#[tactic(auto, using(std::proofs::lemmas::Fmt::decimal_digit))]
pub fn push_bytes(out: &mut String, number: usize, bytes: &[u8]) -> Result<(), AllocError>
    ensures { OnOk result (string_bytes out.new ≡ string_bytes out.old ++ line number (replied (gives bytes.now))) }
{
    let bytes = Hex(bytes);
    write!(out, "{number} 0 {bytes}\n")
}
