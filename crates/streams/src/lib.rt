// What programs read and print: a buffer is filled from a reader, and a text is written with escapes for the characters that do not stand for themselves.
#![tactic(auto)]

ghost use Rattle.std.specs.Prelude.{◌≡◌, ◌≤◌, ℕ, Bool, length, Some};
ghost use Rattle.std.specs.Fmt.{WritesOnOk};
ghost use Rattle.streams.specs.Printed.{IsTest, escape, escaped, is_quotable, quoted};

use std::fmt;
use std::io::Read;

/// The escape of a character: `\x` and its hexadecimal digits, at least two.
#[derive(Clone, Copy)]
pub struct Escape(pub char);

impl fmt::Display for Escape {
    ghost output = { λ e. Some (escape e.0) };

    fn fmt<W: fmt::Write>(&self, f: &mut fmt::Formatter<W>) -> fmt::Result {
        let code = u32::from(self.0);
        write!(f, "\\x{code:02x}")
    }
}

/// A text in double quotes.
#[derive(Clone, Copy)]
pub struct Quoted<'a>(pub &'a [u8]);

impl fmt::Display for Quoted<'_> {
    ghost output = { λ q. Some (quoted q.0.now) };

    fn fmt<W: fmt::Write>(&self, f: &mut fmt::Formatter<W>) -> fmt::Result {
        f.write_char('"')?;
        write_escaped(f, self.0, is_quotable)?;
        f.write_char('"')
    }
}

// Whether a character stands for itself between double quotes.
fn is_quotable(c: char) -> bool
    ensures { result ≡ is_quotable c }
{
    !c.is_ascii_control() && c != '"' && c != '\\'
}

/// Writes a text: a character as it is where `stands` holds of it, any other by its escape. Bytes that are not UTF-8 are an error.
pub fn write_escaped<W: fmt::Write, F: Fn(char) -> bool + Drop>(
    f: &mut fmt::Formatter<W>,
    text: &[u8],
    stands: F,
) -> fmt::Result
    requires { F.IsAlwaysCallable stands }
    ensures { (plain : ℕ → Bool) → IsTest F.Fn stands plain → WritesOnOk W.write_str_gives f.old result (escaped plain text.now) f.new }
{
    let text = str::from_utf8(text).map_err(|_| fmt::Error)?;
    for c in text.chars() {
        if stands(c) {
            f.write_char(c)?;
        } else {
            write!(f, "{}", Escape(c))?;
        }
    }
    Ok(())
}

/// Reads until the buffer is full, the input ends or a read fails; how many bytes it put at the start of the buffer.
pub fn read_full<R: Read>(input: &mut R, buffer: &mut [u8]) -> usize
    ensures { result ≤ length buffer.new }
{
    let mut done = 0;
    // a read takes as many bytes as it likes, so its turns are no range
    while let Ok(n @ 1..) = input.read(&mut buffer[done..]) {
        done += n;
    }
    done
}
