// A refusal's line in the log.
#![tactic(auto)]

ghost use Rattle.std.specs.Prelude.{◌≡◌, ◌++◌, ◌≤◌, length, drop};
ghost use Rattle.definition.specs.Records.{fields};
ghost use Rattle.definition.specs.Refusals.{refusal_no};
ghost use Rattle.definition.specs.Bytes.{record_bytes, line_of};

use definition::Refusal;

fn refusal_record(number: u8, line: u32) -> [u8; 16]
    ensures { result ≡ record_bytes 0 (fields 32 number line 0) }
{
    let mut b: [u8; 16] = [0; 16];
    b[0] = 32;
    b[1] = number;
    big_endian::put_u32(&mut b[8..], line);
    b
}

// The log's line for a refused one, at the front of o.
pub fn print_refusal(r: Refusal, line: u32, o: &mut [u8])
    requires { 33 ≤ length o.old }
    ensures { o.new ≡ line_of (record_bytes 0 (fields 32 (refusal_no r) line 0)) ++ drop 33 o.old }
{
    let b = refusal_record(u8::from(r), line);
    printing::print_line(&b, o);
}
