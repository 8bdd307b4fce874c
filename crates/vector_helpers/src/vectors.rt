// The shared vectors as text: lines of fields, which are parted by blanks, in hexadecimal or decimal. For the programs of the gate.
ghost use Rattle.std.specs.Prelude.{◌≡◌, ◌/◌, ◌<◌, ◌≤◌, min, length, IfOk};
ghost use Rattle.base.specs.Bytes.{zeros, written};
ghost use Rattle.vector_helpers.specs.Text.{end_from, is_comment, field_of, digit_value, spelled, decimal_from};

use std::alloc::{AllocError, Global};

// The value of a hexadecimal digit.
fn digit(byte: u8) -> u8
    ensures value { result ≡ digit_value byte }
    ensures small { result < 16 }
{
    if byte < b'a' {
        byte % 16
    } else {
        (byte - 87) % 16
    }
}

// Where a mark stands, from a place on; the text's end if it does not.
fn end_of(text: &[u8], at: usize, mark: u8) -> usize
    requires { at ≤ length text.now }
    ensures { (result ≡ end_from text.now at mark) × (at ≤ result) × (result ≤ length text.now) }
{
    let mut end = at;
    while end < text.len() {
        if text[end] == mark {
            return end;
        }
        end += 1;
    }
    end
}

// Where the line ends that begins at a place.
pub fn line_end(text: &[u8], at: usize) -> usize
    requires { at ≤ length text.now }
    ensures { (result ≡ end_from text.now at 10) × (at ≤ result) × (result ≤ length text.now) }
{
    end_of(text, at, b'\n')
}

// Whether a line has no vector.
pub fn is_comment(line: &[u8]) -> bool
    ensures { result ≡ is_comment line.now }
{
    line.is_empty() || line[0] == b'#'
}

// A field of a line, from 0; empty if there is none.
pub fn field(line: &[u8], number: u64) -> &[u8]
    ensures { result.now ≡ field_of line.now number }
{
    line.split(|byte| *byte == b' ')
        .nth(number as usize)
        .unwrap_or(&[])
}

// The bytes that a text of hexadecimal digits spells, over the front of `out`; how many they are. A text that is `-` spells none.
pub fn decode(text: &[u8], out: &mut [u8]) -> usize
    ensures value { (result ≡ min (length text.now / 2) (length out.old)) × (result ≤ length out.old) }
    ensures out_after { out.new ≡ written out.old 0 (spelled text.now result) }
    ensures out_len_unchanged { length out.new ≡ length out.old }
{
    let size = out.len().min(text.len() / 2);
    for i in 0..size {
        out[i] = 16 * digit(text[2 * i]) + digit(text[2 * i + 1]);
    }
    size
}

// The bytes that a text of hexadecimal digits spells. A text that is `-` spells none.
pub fn decoded(alloc: Global, text: &str) -> Result<Vec<u8>, AllocError>
    ensures { IfOk result (λ bytes. bytes.items ≡ spelled text.now (length text.now / 2)) }
{
    let mut bytes = vec![in alloc; 0u8; text.len() / 2]?;
    decode(text.as_bytes(), &mut bytes);
    Ok(bytes)
}

// A field of 32 bytes; zeros where it spells fewer.
pub fn digest(text: &[u8]) -> [u8; 32]
    ensures { result ≡ written (zeros 32) 0 (spelled text.now (min (length text.now / 2) 32)) }
{
    let mut bytes = [0u8; 32];
    decode(text, &mut bytes);
    bytes
}

// A field in decimal, of at most 18 digits.
pub fn decimal(text: &[u8]) -> u64
    ensures { result ≡ decimal_from 0 text.now }
{
    let mut value: u64 = 0;
    for byte in text {
        value = 10 * (value % 100000000000000000) + u64::from(*byte % 16);
    }
    value
}

// Does something with every line that has a vector.
pub fn each_vector<F: FnMut(&[u8])>(text: &[u8], mut visit: F)
    requires { F.IsAlwaysCallable visit }
{
    for line in text.split(|byte| *byte == b'\n') {
        if !is_comment(line) {
            visit(line);
        }
    }
}
