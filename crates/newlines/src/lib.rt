// Where a line of a text ends.
#![tactic(auto)]

ghost use Rattle.std.specs.Prelude.{◌≡◌, ◌+◌, ◌≤◌, length, take, drop};
ghost use Rattle.newlines.specs.Newlines.{line_len, clean};

// No newline among the first 48: all are looked at, so that it is done at once for 16.
fn is_clean(bytes: &[u8]) -> bool
    requires { 48 ≤ length bytes.now }
    ensures { result ≡ clean (take 48 bytes.now) }
{
    let mut good = true;
    for b in &bytes[..48] {
        good &= *b != b'\n';
    }
    good
}

// Past the next newline, or the text's end.
fn line_end_from(text: &[u8], at: usize) -> usize
    requires { at ≤ length text.now }
    ensures { (result ≡ at + line_len (drop at text.now)) × (result ≤ length text.now) }
{
    for i in at..text.len() {
        if text[i] == b'\n' {
            return i + 1;
        }
    }
    text.len()
}

// A frame's line has 49 bytes.
pub fn line_end(text: &[u8], at: usize) -> usize
    requires { at ≤ length text.now }
    ensures { (result ≡ at + line_len (drop at text.now)) × (result ≤ length text.now) }
{
    if 49 <= text.len() - at && text[at + 48] == b'\n' && is_clean(&text[at..]) {
        return at + 49;
    }
    line_end_from(text, at)
}
