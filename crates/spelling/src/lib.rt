// What a word spells: a number in decimal.
#![tactic(auto)]

ghost use Rattle.std.specs.Prelude.{◌≡◌, ◌+◌, ◌-◌, ◌*◌, ◌<◌, ◌≤◌, MatchResult};
ghost use Rattle.std.specs.List.{list_all};
ghost use Rattle.spelling.specs.Spelling.{most, digit?, decimal, number_of, entries, looked_up};
ghost use Rattle.spelling.specs.declared.NumberError.TheVariants.{TooLarge};

// Why a word is no number of 64 bits.
#[derive(Debug, Clone, Copy, PartialEq, Eq)]
pub enum NumberError {
    NoNumber,
    TooLarge,
}

fn only_digits(word: &[u8]) -> bool
    ensures { result ≡ list_all digit? word.now }
{
    word.iter().all(|c| c.is_ascii_digit())
}

// A number so far, and a digit behind it.
fn with_digit(number: u64, c: u8) -> Result<u64, NumberError>
    requires { 48 ≤ c }
    ensures { MatchResult result (λ n. (n ≡ number * 10 + (c - 48)) × (n ≤ most)) (λ e. (e ≡ TooLarge) × (most < number * 10 + (c - 48))) }
{
    let digit = u64::from(c - b'0');
    number
        .checked_mul(10)
        .and_then(|tens| tens.checked_add(digit))
        .ok_or(NumberError::TooLarge)
}

// A word in decimal, where it is a number that fits.
#[tactic(auto, using(crate::specs::Laws::too_large))]
pub fn number_of(word: &[u8]) -> Result<u64, NumberError>
    ensures { result ≡ number_of (decimal word.now) }
{
    if word.is_empty() || !only_digits(word) {
        return Err(NumberError::NoNumber);
    }
    let mut number = 0;
    for c in word {
        number = with_digit(number, *c)?;
    }
    Ok(number)
}

// What stands in a table beside the first name that the word is.
pub fn look_up<T: Copy>(table: &[(&[u8], T)], word: &[u8]) -> Option<T>
    ensures { result ≡ looked_up (entries table.now) word.now }
{
    for (name, entry) in table {
        if *name == word {
            return Some(*entry);
        }
    }
    None
}
