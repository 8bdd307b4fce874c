// The number that a word says.
ghost use Rattle.std.specs.Prelude.{◌≡◌};
ghost use Rattle.base.specs.Choice.{every};
ghost use Rattle.decimal.specs.Numbers.{is_digit};
ghost use Rattle.words.specs.Values.{leading_zero, is_plain, value_of};

fn all_digits(word: &[u8]) -> bool
    ensures { result ≡ every is_digit word.now }
{
    word.iter().all(u8::is_ascii_digit)
}

// Whether a 0 stands before other bytes.
#[tactic(auto, unfolding(crate::specs::Values::leading_zero))]
fn leading_zero(word: &[u8]) -> bool
    ensures { result ≡ leading_zero word.now }
{
    word.len() > 1 && word[0] == b'0'
}

#[tactic(auto, unfolding(crate::specs::Values::is_plain))]
fn is_plain(word: &[u8]) -> bool
    ensures { result ≡ is_plain word.now }
{
    all_digits(word) && !leading_zero(word)
}

// The word's number, if it is one of 64 bits.
#[tactic(auto, unfolding(crate::specs::Values::value_of, crate::specs::Values::is_number))]
pub fn value(word: &[u8]) -> Option<u64>
    ensures { result ≡ value_of word.now }
{
    if !is_plain(word) || !decimal::is_readable(word) {
        return None;
    }
    let numbers = decimal::read_numbers(word);
    if numbers.count == 1 {
        Some(numbers.list[0])
    } else {
        None
    }
}
