// A refusal by document 01's number, or any other, in the words of `verify` as a person reads them.
use crate::{Found, plain, refused};
use lines::Line;

fn says(line: Line, text: &[u8]) -> bool {
    line.as_bytes() == text
}

#[test]
fn in_plain_words(rt: HostRuntime) {
    assert!(rt; says(plain(1, 9), b"the proof's depth is not 1 to 40\n"));
    assert!(rt;
        says(
            plain(15, 9),
            b"an opening does not lead to the proof's root\n"
        )
    );
    assert!(rt; says(plain(16, 9), b"the proof is refused\n"));
    assert!(rt; says(plain(15, 0), b"the proof file is empty\n"));
}

#[test]
fn with_its_numbers(rt: HostRuntime) {
    let found = Found {
        edition: 2,
        depth: 7,
        count: 9,
        same_report: true,
    };
    let differs = refused(9, 0, 99, found, 8, 9);
    assert!(rt; says(differs, b"the proof's depth is 7, not 8\nrefused 9 0\n"));
    let other = refused(300, 4, 99, found, 8, 9);
    assert!(rt; says(other, b"the proof is refused\nrefused 300 4\n"));
}
