ghost use Rattle.std.specs.Prelude.{◌≡◌, ◌<◌, ◌≤◌, ◌+◌, ◌^◌, IsTrue, IfSome, length, true};
ghost use Rattle.fal_script.specs.Numbers.{is_number as is_number_of, are_digits as are_digits_of, value_after, number_up_to as number_of, number_from_one as from_one_of, are_octal as are_octal_of, is_mode as is_mode_of, octal_after, spelled_mode as mode_of};

#[tactic(auto, unfolding(crate::specs::Numbers::are_digits))]
fn are_digits(word: &[u8]) -> bool
    ensures { result ≡ are_digits_of word.now }
{
    word.iter().all(|b| 48 <= *b && *b <= 57)
}

// A number has 1 to 20 decimal digits.
#[tactic(auto, unfolding(crate::specs::Numbers::is_number))]
fn is_number(word: &[u8]) -> bool
    ensures digits { result ≡ is_number_of word.now }
    ensures short { IsTrue result → length word.now ≤ 20 }
{
    1 <= word.len() && word.len() <= 20 && are_digits(word)
}

// The number that decimal digits spell. Twenty of them fit with room to spare.
fn value(word: &[u8]) -> u128
    requires { length word.now ≤ 20 }
    ensures { result ≡ value_after 0 word.now }
{
    let mut value: u128 = 0;
    for digit in word {
        let digit = digit.saturating_sub(48);
        value = value * 10 + u128::from(digit);
    }
    value
}

/// The number that a word spells in 1 to 20 decimal digits, where it is at most this large.
#[tactic(auto, unfolding(crate::specs::Numbers::number_up_to))]
pub fn number_up_to(most: u64, word: &[u8]) -> Option<u64>
    ensures value { result ≡ number_of most word.now }
    ensures small { IfSome result (λ n. n ≤ most) }
{
    if !is_number(word) {
        return None;
    }
    let value = value(word);
    if value <= u128::from(most) {
        Some(value as u64)
    } else {
        None
    }
}

/// The number that a word spells, where it is from 1 to at most this large.
#[tactic(auto, unfolding(crate::specs::Numbers::number_from_one))]
pub fn number_from_one(most: u8, word: &[u8]) -> Option<u8>
    ensures { result ≡ from_one_of most word.now }
{
    let number = number_up_to(u64::from(most), word)?;
    if number >= 1 {
        Some(number as u8)
    } else {
        None
    }
}

#[tactic(auto, unfolding(crate::specs::Numbers::are_octal))]
fn are_octal(word: &[u8]) -> bool
    ensures { result ≡ are_octal_of word.now }
{
    word.iter().all(|b| 48 <= *b && *b <= 55)
}

// A mode has 1 to 4 octal digits.
#[tactic(auto, unfolding(crate::specs::Numbers::is_mode))]
fn is_mode(word: &[u8]) -> bool
    ensures digits { result ≡ is_mode_of word.now }
    ensures short { IsTrue result → length word.now ≤ 4 }
{
    1 <= word.len() && word.len() <= 4 && are_octal(word)
}

// The number that octal digits spell. Four of them fit with room to spare.
fn octal(word: &[u8]) -> u32
    requires { length word.now ≤ 4 }
    ensures { result ≡ octal_after 0 word.now }
{
    let mut value: u32 = 0;
    for digit in word {
        let digit = digit.saturating_sub(48);
        value = value * 8 + u32::from(digit);
    }
    value
}

/// The mode that a word spells in 1 to 4 octal digits, where it is at most 777.
#[tactic(auto, unfolding(crate::specs::Numbers::spelled_mode))]
pub fn spelled_mode(word: &[u8]) -> Option<u16>
    ensures { result ≡ mode_of word.now }
{
    if !is_mode(word) {
        return None;
    }
    let value = octal(word);
    if value <= 511 {
        Some(value as u16)
    } else {
        None
    }
}
