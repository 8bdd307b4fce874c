// The numbers of an input.
ghost use Rattle.std.specs.Prelude.{◌≡◌, true, false, ◌<◌, length, take, is_some, is_ok, unwrap_or, IfOk};
ghost use Rattle.base.specs.Bytes.{zeros, written};
ghost use Rattle.decimal.specs.Numbers.{max_numbers, numbers, is_digit};
ghost use Rattle.decimal.specs.Steps.{goes_on, next_value, Wrote, all_fit, ended};

use base::MAX_LEAVES;

// A depth and one leaf more than any plan takes.
pub const MAX_NUMBERS: usize = MAX_LEAVES + 2;

// The first numbers of an input. An array and a count and no `Vec`: memory is fixed, there is no heap.
#[derive(Clone, Copy)]
pub struct Numbers {
    pub list: [u64; MAX_NUMBERS],
    pub count: usize,
}

// A byte that is no digit and parts no numbers, or a number that is too large.
#[derive(Clone, Copy)]
struct Unreadable;

// The number under way after a byte, from the one before it: none after a byte that parts numbers. An error where the byte
// cannot be read, or the number is too large.
fn step(byte: u8, number: Option<u64>) -> Result<Option<u64>, Unreadable>
    ensures readable { is_ok result ≡ goes_on byte (unwrap_or number 0) }
    ensures next { IfOk result (λ n. (is_some n ≡ is_digit byte) × (unwrap_or n 0 ≡ next_value byte (unwrap_or number 0))) }
{
    match byte {
        b' ' | b'\n' => Ok(None),
        b'0'..=b'9' => {
            let tens = number.unwrap_or(0).checked_mul(10).ok_or(Unreadable)?;
            let value = tens.checked_add(u64::from(byte - b'0')).ok_or(Unreadable)?;
            Ok(Some(value))
        }
        _ => Err(Unreadable),
    }
}

// Whether each byte can be read and each number fits.
pub fn is_readable(input: &[u8]) -> bool
    ensures { result ≡ all_fit false 0 input.now }
{
    let mut number = None;
    for &byte in input {
        let Ok(next) = step(byte, number) else {
            return false;
        };
        number = next;
    }
    true
}

// Keeps a number that ends where the next byte goes on with none.
#[tactic(auto, using(crate::proofs::Laying::one_byte, crate::proofs::ReadLaws::none_kept))]
fn push(list: &mut [u64], count: usize, number: Option<u64>, next: Option<u64>) -> usize
    requires { count < length list.old }
    ensures { Wrote list.old count (ended (is_some number) (is_some next) (unwrap_or number 0)) list.new result }
{
    match (number, next) {
        (Some(value), None) => {
            list[count] = value;
            count + 1
        }
        _ => count,
    }
}

// The first numbers of an input that can be read, and zeros after them.
pub fn read_numbers(input: &[u8]) -> Numbers
    requires { all_fit false 0 input.now ≡ true }
    ensures { (result.list ≡ written (zeros max_numbers) 0 (take max_numbers (numbers input.now)))
        × (result.count ≡ length (take max_numbers (numbers input.now))) }
{
    let mut list = [0; MAX_NUMBERS];
    let mut count = 0;
    let mut number = None;
    for &byte in input {
        let next = step(byte, number).unwrap();
        count = push(&mut list, count, number, next);
        if MAX_NUMBERS <= count {
            return Numbers { list, count };
        }
        number = next;
    }
    count = push(&mut list, count, number, None);
    Numbers { list, count }
}
