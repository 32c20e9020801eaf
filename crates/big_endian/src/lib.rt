// Numbers of 4 and of 8 bytes, big-endian: read at a place, and written at the front of a lent slice.
#![tactic(auto)]

ghost use Rattle.std.specs.Prelude.{◌≡◌, ◌++◌, ◌+◌, ◌≤◌, length, take, drop};
ghost use Rattle.definition.specs.Bytes.{be4, be8, at4, at8};

// ── Read ──

// The N bytes at a place.
fn bytes_at<const N: usize>(b: &[u8], i: usize) -> [u8; N]
    requires { i + N ≤ length b.now }
    ensures { result ≡ take N (drop i b.now) }
{
    let mut bytes = [0; N];
    bytes.copy_from_slice(&b[i..i + N]);
    bytes
}

pub fn u32_at(b: &[u8], i: usize) -> u32
    requires { i + 4 ≤ length b.now }
    ensures { result ≡ at4 b.now i }
{
    let bytes: [u8; 4] = bytes_at(b, i);
    u32::from_be_bytes(bytes)
}

pub fn u64_at(b: &[u8], i: usize) -> u64
    requires { i + 8 ≤ length b.now }
    ensures { result ≡ at8 b.now i }
{
    let bytes: [u8; 8] = bytes_at(b, i);
    u64::from_be_bytes(bytes)
}

// ── Written ──

pub fn put_u32(o: &mut [u8], x: u32)
    requires { 4 ≤ length o.old }
    ensures { o.new ≡ be4 x ++ drop 4 o.old }
{
    o[..4].copy_from_slice(&x.to_be_bytes());
}

pub fn put_u64(o: &mut [u8], x: u64)
    requires { 8 ≤ length o.old }
    ensures { o.new ≡ be8 x ++ drop 8 o.old }
{
    o[..8].copy_from_slice(&x.to_be_bytes());
}
