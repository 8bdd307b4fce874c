// The words that are known.
ghost use Rattle.std.specs.Prelude.{◌≡◌};
ghost use Rattle.base.specs.Lists.{same_bytes};
ghost use Rattle.words.specs.Parts.{kind_of, asks_help};

use crate::Kind;
use crate::parting::word;

pub fn is_word(word: &[u8], name: &[u8]) -> bool
    ensures { result ≡ same_bytes word.now name.now }
{
    word == name
}

// What the first word asks for; `None` for a word that is not known.
// A ladder: a `match` of the bytes has a way out for each byte that differs, 46 in all, and none was proved.
#[tactic(auto, unfolding(crate::specs::Parts::kind_of))]
pub fn kind_of(word: &[u8]) -> Option<Kind>
    ensures { result ≡ kind_of word.now }
{
    if is_word(word, b"seal") {
        Some(Kind::Seal)
    } else if is_word(word, b"verify") {
        Some(Kind::Verify)
    } else if is_word(word, b"chain") {
        Some(Kind::Chain)
    } else if is_word(word, b"info") {
        Some(Kind::Info)
    } else if is_word(word, b"help") || is_word(word, b"--help") {
        Some(Kind::Help)
    } else if is_word(word, b"--version") {
        Some(Kind::Version)
    } else {
        None
    }
}

// `help` first, or `--help` after a word that does something.
pub fn asks_help(line: &[u8], kind: Option<Kind>) -> bool
    ensures { result ≡ asks_help line.now kind }
{
    match kind {
        Some(Kind::Help) => true,
        Some(Kind::Version) | None => false,
        Some(_) => is_word(word(line, 1), b"--help"),
    }
}
