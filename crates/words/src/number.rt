// Numbers, decimal or hexadecimal.
ghost use Rattle.std.specs.Prelude.{◌≡◌, ◌≤◌};
ghost use Rattle.words.specs.Numbers.{numeral, number_of};

// Why a word is no number of 32 bits.
#[derive(Clone, Copy)]
pub enum NotNumber {
    NotDigits,
    TooLarge,
}

// One more than the largest number.
const LIMIT: u64 = 0x1_0000_0000;

pub fn number(word: &[u8]) -> Result<u32, NotNumber>
    ensures { result ≡ number_of word.now }
{
    match word {
        [b'0', b'x', digits @ ..] => in_base(digits, 16),
        _ => in_base(word, 10),
    }
}

// Past the limit the value stays there, so that a word of any length is read to its end.
fn in_base(digits: &[u8], base: u32) -> Result<u32, NotNumber>
    requires low_bound { 2 ≤ base }
    requires high_bound { base ≤ 36 }
    ensures { result ≡ numeral base digits.now }
{
    if digits.is_empty() {
        return Err(NotNumber::NotDigits);
    }
    let mut value: u64 = 0;
    for b in digits {
        let digit = char::from(*b).to_digit(base).ok_or(NotNumber::NotDigits)?;
        value = (value * u64::from(base) + u64::from(digit)).min(LIMIT);
    }
    u32::try_from(value).map_err(|_| NotNumber::TooLarge)
}
