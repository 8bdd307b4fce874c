// A line's calls, one after another over a store of its length that held something else: the numbers that the line begins with, a line for each
// call, and then where the stores lie and the digests of the unit and of all that was lent.
use crate::answers::{answer_line, places, unit_digest};
use crate::given::{number_at, unit_of};
use std::io;
use std::io::Stdout;
use unit::StampingUnit;
use vector_helpers::{Hex, hash};

// Room for most lines.
fn space() -> [u8; 8192] {
    [90u8; 8192]
}

// Room for two stores of memory level 14.
fn large_space() -> [u8; 2097088] {
    [90u8; 2097088]
}

// So many calls with the budgets from field 4 on.
fn calls(to: Stdout, line: &[u8], unit: &mut StampingUnit, store: &mut [u8]) -> io::Result<()> {
    for i in 0..number_at(line, 3) % 100 {
        let budget = number_at(line, 4 + i);
        let answer = unit.advance(budget, store);
        answer_line(to, budget, answer, unit)?;
    }
    Ok(())
}

fn over(to: Stdout, line: &[u8], store: &mut [u8]) -> io::Result<()> {
    let mut unit = unit_of(line);
    println!(to; "unit {} {} {}", unit.count, unit.last, store.len())?;
    calls(to, line, &mut unit, store)?;
    print!(to; "places")?;
    places(to, &unit, store)?;
    println!(to; " {} {}", Hex(&unit_digest(&unit)), Hex(&hash(store)))
}

// A line that lends more bytes than there is room for is passed over.
pub fn line_calls(to: Stdout, line: &[u8]) -> io::Result<()> {
    let len = number_at(line, 2) as usize;
    let mut small = space();
    if let Some(store) = small.get_mut(..len) {
        return over(to, line, store);
    }
    let mut large = large_space();
    match large.get_mut(..len) {
        Some(store) => over(to, line, store),
        None => Ok(()),
    }
}
