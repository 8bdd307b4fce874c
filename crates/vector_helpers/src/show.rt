// Lines for the programs of the gate, whose output is compared with a stored one.
use std::fmt;
use std::io::Stdout;

// Bytes, which print in hexadecimal.
#[derive(Clone, Copy)]
pub struct Hex<'a>(pub &'a [u8]);

impl<'a> fmt::Display for Hex<'a> {
    fn fmt<W: fmt::Write>(&self, f: &mut fmt::Formatter<W>) -> fmt::Result {
        for byte in self.0 {
            write!(f, "{byte:02x}")?;
        }
        Ok(())
    }
}

// Whether two things are the same, which prints as a word.
#[derive(Clone, Copy, Debug, PartialEq, Eq)]
pub struct IsSame(pub bool);

impl fmt::Display for IsSame {
    fn fmt<W: fmt::Write>(&self, f: &mut fmt::Formatter<W>) -> fmt::Result {
        f.write_str(if self.0 { "same" } else { "changed" })
    }
}

// Writes a text, and bytes in hexadecimal after it. What cannot be written is passed over.
pub fn named_hex(to: Stdout, name: &[u8], bytes: &[u8]) {
    let _ = to.write_all(name);
    let _ = print!(to; "{}", Hex(bytes));
}
