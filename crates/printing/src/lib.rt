// Records printed as lines, each function equal to the definition's.
#![tactic(auto)]

ghost use Rattle.std.specs.Prelude.{◌≡◌, ◌++◌, ◌+◌, ◌*◌, ◌≤◌, ◌<◌, length, drop};
ghost use Rattle.definition.specs.Bytes.{digit_of, hex_of, line_of};
ghost use Rattle.printing.specs.Printed.{printed, printed_by};

use definition::RECORD;

// The digit of a number below 16.
#[tactic(auto, using(definition::specs::Booleans::choices), unfolding(definition::specs::Bytes::digit_of))]
fn digit_of(n: u8) -> u8
    requires { n < 16 }
    ensures { result ≡ digit_of n }
{
    if n < 10 { b'0' + n } else { b'a' + (n - 10) }
}

// The digits of s at the front of o. By the length and not by 16: the compiler then takes 16 bytes at once.
fn encode(s: &[u8], o: &mut [u8])
    requires { 2 * length s.now ≤ length o.old }
    ensures { o.new ≡ hex_of s.now ++ drop (2 * length s.now) o.old }
{
    for (i, v) in s.iter().enumerate() {
        o[i * 2] = digit_of(*v / 16);
        o[i * 2 + 1] = digit_of(*v % 16);
    }
}

// The line of s at the front of o.
pub fn print_line(s: &[u8], o: &mut [u8])
    requires { 2 * length s.now + 1 ≤ length o.old }
    ensures { o.new ≡ line_of s.now ++ drop (2 * length s.now + 1) o.old }
{
    encode(s, o);
    o[s.len() * 2] = b'\n';
}

// The first n pieces of s, of W bytes each, as lines at the front of o.
pub fn print_pieces<const W: usize>(s: &[u8], n: usize, o: &mut [u8])
    requires { (W * n ≤ length s.now) × ((2 * W + 1) * n ≤ length o.old) }
    ensures { o.new ≡ printed_by W n s.now ++ drop ((2 * W + 1) * n) o.old }
{
    for i in 0..n {
        print_line(&s[i * W..(i + 1) * W], &mut o[i * (2 * W + 1)..]);
    }
}

// The first n records of s as lines at the front of o.
pub fn print_records(s: &[u8], n: usize, o: &mut [u8])
    requires { (16 * n ≤ length s.now) × (33 * n ≤ length o.old) }
    ensures { o.new ≡ printed n s.now ++ drop (33 * n) o.old }
{
    print_pieces::<RECORD>(s, n, o);
}
