// The bytes of a line, read from its hexadecimal digits.
#![tactic(auto)]

ghost use Rattle.std.specs.Prelude.{◌≡◌, ◌≤◌, List, ℕ, Some, map, length, take};
ghost use Rattle.definition.specs.Bytes.{unhex, bytes_of};
ghost use Rattle.digits.specs.Decode.{number, digits?, pairs_of};

// The number of a digit, and 16 for what is none. Two tests that do not depend on each other and an unconditional store in the loop
// below: so 16 digits are read at once. A `match` takes a quarter more, and `contains` too.
#[tactic(auto, using(definition::specs::Booleans::choices), unfolding(crate::specs::Decode::number, definition::specs::Bytes::value_of))]
fn number_of(c: u8) -> u8
    ensures { result ≡ number c }
{
    let mut v = 16;
    if b'0' <= c && c <= b'9' {
        v = c - b'0';
    }
    if b'a' <= c && c <= b'f' {
        v = c - b'a' + 10;
    }
    v
}

// The numbers of 48 digits, and whether all are a digit's. One loop, which the compiler does at once for 16: a fold over the numbers
// it does one by one, and takes twice the time.
fn numbers_of(s: &[u8]) -> ([u8; 48], bool)
    requires { 48 ≤ length s.now }
    ensures numbers { result.0 ≡ map number (take 48 s.now) }
    ensures digits { result.1 ≡ digits? (map number (take 48 s.now)) }
{
    let mut numbers = [0u8; 48];
    let mut are_digits = true;
    for (i, n) in numbers.iter_mut().enumerate() {
        *n = number_of(s[i]);
        are_digits &= *n < 16;
    }
    (numbers, are_digits)
}

// Two numbers make a byte. Numbers that are no digit's make some byte too.
fn paired(numbers: &[u8; 48]) -> [u8; 24]
    ensures { result ≡ pairs_of numbers.now }
{
    let mut bytes = [0u8; 24];
    for (i, b) in bytes.iter_mut().enumerate() {
        *b = numbers[i * 2] % 16 * 16 + numbers[i * 2 + 1] % 16;
    }
    bytes
}

// The bytes of 48 digits.
#[tactic(auto, using(crate::proofs::Laws::decoding))]
pub fn decode(s: &[u8]) -> Option<[u8; 24]>
    requires { 48 ≤ length s.now }
    ensures { result ≡ unhex (take 48 s.now) }
{
    let (numbers, are_digits) = numbers_of(s);
    if are_digits {
        Some(paired(&numbers))
    } else {
        None
    }
}

// The bytes that any 48 make, digits or not.
pub fn raw_bytes(s: &[u8]) -> [u8; 24]
    requires { 48 ≤ length s.now }
    ensures pairs { result ≡ pairs_of (map number (take 48 s.now)) }
    ensures of_digits { (bs : List ℕ) → unhex (take 48 s.now) ≡ Some bs → result ≡ bs }
{
    paired(&numbers_of(s).0)
}

// The bytes of a line of 48 digits and a newline.
#[tactic(auto, using(definition::specs::Booleans::choices), unfolding(definition::specs::Bytes::bytes_of))]
pub fn line_bytes(l: &[u8]) -> Option<[u8; 24]>
    ensures { result ≡ bytes_of l.now }
{
    if l.len() == 49 && l[48] == b'\n' {
        decode(l)
    } else {
        None
    }
}
