ghost use Rattle.std.specs.Prelude.{◌≡◌, ◌<◌, ◌≤◌, IfOk, IfSome, length};
ghost use Rattle.std.specs.Option.{option_map};
ghost use Rattle.fal_script.specs.Escapes.{hex_value as hex_value_of, hex_byte as hex_byte_of, unescaped, StandsFor};

use std::alloc::{AllocError, Global};

// The value of a hexadecimal digit of either case.
#[tactic(auto, unfolding(crate::specs::Escapes::hex_value))]
fn hex_value(digit: u8) -> Option<u8>
    ensures value { result ≡ hex_value_of digit }
    ensures small { IfSome result (λ n. n < 16) }
{
    if 48 <= digit && digit <= 57 {
        Some(digit - 48)
    } else if 65 <= digit && digit <= 70 {
        Some(digit - 55)
    } else if 97 <= digit && digit <= 102 {
        Some(digit - 87)
    } else {
        None
    }
}

// The byte of two hexadecimal digits.
#[tactic(auto, unfolding(crate::specs::Escapes::hex_byte))]
fn hex_byte(high: u8, low: u8) -> Option<u8>
    ensures { result ≡ hex_byte_of high low }
{
    let high = hex_value(high)?;
    let low = hex_value(low)?;
    Some(16 * high + low)
}

// The byte that the front of a word stands for, and what comes after it. None at a percent sign that has no two digits after it.
fn first_byte(word: &[u8]) -> Option<(u8, &[u8])>
    requires { 0 < length word.now }
    ensures { StandsFor word.now (option_map (λ p. (p.0, p.1.now)) result) }
{
    match word {
        [byte, rest @ ..] if *byte != b'%' => Some((*byte, rest)),
        [_, high, low, rest @ ..] => {
            let byte = hex_byte(*high, *low)?;
            Some((byte, rest))
        }
        _ => None,
    }
}

/// The bytes that a word stands for: `%` and two hexadecimal digits stand for a byte, and every other byte for itself. None where a `%` has
/// no two digits after it.
pub fn unescape(alloc: Global, word: &[u8]) -> Result<Option<Vec<u8>>, AllocError>
    ensures { IfOk result (λ bytes. option_map (λ b. b.items) bytes ≡ unescaped word.now) }
{
    let mut bytes = Vec::with_capacity(alloc, word.len())?;
    let mut rest = word;
    while !rest.is_empty() {
        let Some((byte, after)) = first_byte(rest) else {
            return Ok(None);
        };
        bytes.push(byte)?;
        rest = after;
    }
    Ok(Some(bytes))
}
