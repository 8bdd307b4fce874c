// Numbers in seven-bit groups, read at a place of the caller's bytes and written there.
#![tactic(auto)]

ghost use Rattle.std.specs.Prelude.{◌≡◌, ◌+◌, ◌≤◌, min, length, take};
ghost use Rattle.std.specs.Result.{result_unwrap_or};
ghost use Rattle.base.specs.Bytes.{written};
ghost use Rattle.base.specs.Number.{outcome_number};
ghost use Rattle.groups.specs.Groups.{groups_of, max_groups};
ghost use Rattle.groups.specs.Reading.{answer_of, read_at};
ghost use Rattle.groups.specs.Writing.{put_row, put_count, output_after};

use base::Refusal;

// The most groups of a number of a file, and of a run's record but for its labels made (specs/Groups.antt).
pub const NUMBER_GROUPS: usize = 2;

// The most groups of any number: ten hold every number of 64 bits.
const MAX_GROUPS: usize = 10;

// A number that was read, and the place after it.
#[derive(Clone, Copy, Debug, PartialEq, Eq)]
pub struct Number {
    pub value: u64,
    pub end: usize,
}

// A number's groups: the first `count` of ten bytes, in fixed memory.
#[derive(Clone, Copy)]
struct Laid {
    bytes: [u8; MAX_GROUPS],
    count: usize,
}

// Reads the number at a place, of at most `most` groups, and of no more than ten, which hold every number of 64 bits.
// A place past the end is refused as bytes that end are.
pub fn read(bytes: &[u8], at: usize, most: usize) -> Result<Number, Refusal>
    ensures { answer_of result ≡ read_at bytes.now at (min most max_groups) }
{
    let mut value: u64 = 0;
    for i in 0..most.min(MAX_GROUPS) {
        let byte = *bytes.get(at.saturating_add(i)).ok_or(Refusal::BytesEnd)?;
        let group = u64::from(byte % 128);
        let weight = 128u64.pow(i as u32);
        // Of a tenth group only 0 and 1 fit.
        value += group.checked_mul(weight).ok_or(Refusal::NotShortest)?;
        if byte < 128 {
            // The last of several is not 0.
            if byte == 0 && 0 < i {
                return Err(Refusal::NotShortest);
            }
            return Ok(Number {
                value,
                end: at + i + 1,
            });
        }
    }
    Err(Refusal::NotShortest)
}

// The groups of a number, low group first, the top bit set where another follows.
fn lay(value: u64) -> Laid
    ensures { (take result.count result.bytes ≡ groups_of value) × (result.count ≡ length (groups_of value)) }
{
    let mut bytes = [0u8; MAX_GROUPS];
    let mut rest = value;
    let mut i = 0;
    // How many turns there are comes from the number: a `for` over the bytes would need a return that is never reached.
    while 128 <= rest {
        bytes[i] = (128 + rest % 128) as u8;
        rest /= 128;
        i += 1;
    }
    bytes[i] = rest as u8;
    Laid {
        bytes,
        count: i + 1,
    }
}

// Writes a number's groups over `out` from a place on, or nothing where they do not fit. How many bytes it wrote.
#[tactic(auto, unfolding(crate::specs::Writing::put_row, crate::specs::Writing::put_count, crate::specs::Writing::output_after))]
pub fn write(value: u64, out: &mut [u8], at: usize) -> Result<usize, Refusal>
    ensures outcome_value { outcome_number result ≡ put_row out.old at value }
    ensures count_value { result_unwrap_or result 0 ≡ put_count out.old at value }
    ensures out_after { out.new ≡ output_after out.old at value }
{
    let groups = lay(value);
    if out.len() < at.saturating_add(groups.count) {
        return Err(Refusal::ShortOutput);
    }
    base::put(out, at, &groups.bytes[..groups.count]);
    Ok(groups.count)
}

// The same where its callers know that they fit. The place after the number.
pub fn put_number(value: u64, out: &mut [u8], at: usize) -> usize
    requires { at + length (groups_of value) ≤ length out.old }
    ensures value { result ≡ at + length (groups_of value) }
    ensures out_after { out.new ≡ written out.old at (groups_of value) }
{
    let groups = lay(value);
    base::put(out, at, &groups.bytes[..groups.count]);
    at + groups.count
}
