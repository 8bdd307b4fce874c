// Document 01, 'Challenges and the file': where an opening lies in the caller's bytes, and that part of them.
ghost use Rattle.std.specs.Prelude.{◌≡◌, ◌+◌};
ghost use Rattle.std.specs.Option.{option_map_or};
ghost use Rattle.file_head.specs.Head.{head_of, part_start, part_length, opening_part};

use base::beyond;
use file_head::read_head;

// A part of the bytes; 0 and 0 where there is none, as C is told.
#[repr(C)]
#[derive(Clone, Copy, Debug, PartialEq, Eq)]
pub struct Place {
    pub offset: usize,
    pub length: usize,
}

// Where opening i lies; nowhere in bytes that are no whole file, or that have no opening of that number.
fn found_place(bytes: &[u8], i: u64) -> Option<Place>
    ensures offset_value { option_map_or (λ p. p.offset) result 0 ≡ part_start bytes.now i (head_of bytes.now) }
    ensures length_value { option_map_or (λ p. p.length) result 0 ≡ part_length bytes.now i (head_of bytes.now) }
{
    let head = read_head(bytes).ok()?;
    if bytes.len() != head.file_length() || beyond(head.count, i) {
        return None;
    }
    Some(Place {
        offset: head.opening_start(i),
        length: head.opening_size(),
    })
}

// Where opening i, from 1, lies.
pub fn opening_place(bytes: &[u8], i: u64) -> Place
    ensures offset_value { result.offset ≡ part_start bytes.now i (head_of bytes.now) }
    ensures length_value { result.length ≡ part_length bytes.now i (head_of bytes.now) }
{
    match found_place(bytes, i) {
        Some(place) => place,
        None => Place {
            offset: 0,
            length: 0,
        },
    }
}

// Opening i, from 1, as that part of the caller's bytes; empty where there is none.
pub fn opening_part(bytes: &[u8], i: u64) -> &[u8]
    ensures result_value { result.now ≡ opening_part bytes.now i }
    ensures ref_ptr_value { result.ref_ptr ≡ (bytes.entry.ref_ptr.0, bytes.entry.ref_ptr.1 + part_start bytes.now i (head_of bytes.now)) }
{
    let place = opening_place(bytes, i);
    let end = place.offset + place.length;
    &bytes[place.offset..end]
}
