// Decimal numbers.
ghost use Rattle.std.specs.Prelude.{◌≡◌, ◌≤◌, IfOk};
ghost use Rattle.pieces.specs.Numerals.{number_in};

// Why a word is not taken for a number.
#[derive(Clone, Copy, PartialEq, Eq, Debug)]
pub enum Misread {
    NoNumber,
    TooLarge,
}

// The number that a word writes in decimal digits, where it is not above the greatest.
pub fn number(word: &[u8], max: u32) -> Result<u32, Misread>
    ensures value { result ≡ number_in max word.now }
    ensures bound { IfOk result (λ n. n ≤ max) }
{
    if word.is_empty() {
        return Err(Misread::NoNumber);
    }
    let mut number = 0u64;
    for byte in word {
        if !byte.is_ascii_digit() {
            return Err(Misread::NoNumber);
        }
        number = 10 * number + u64::from(*byte - b'0');
        if number > u64::from(max) {
            return Err(Misread::TooLarge);
        }
    }
    Ok(number as u32)
}
