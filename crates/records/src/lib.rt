// An event's output: records laid down in lent bytes, one after the other.
#![tactic(auto)]

ghost use Rattle.std.specs.Prelude.{◌≡◌, ◌≤◌, ◌++◌, length, drop};
ghost use Rattle.definition.specs.Records.{fields, fields_of};
ghost use Rattle.definition.specs.Bytes.{record_bytes};
ghost use Rattle.records.specs.Output.{Fits, Emits};
ghost use Rattle.records.specs.Numbers.{numbers};

use definition::{RECORD, Record, Reply};

// ── A record in numbers ──

// What a record says beside its serial.
#[derive(Clone, Copy)]
pub struct Fields {
    pub kind: u8,
    pub reason: u8,
    pub id: u32,
    pub other: u32,
}

fn numbered(kind: u8, id: u32, other: u32) -> Fields
    ensures { numbers result ≡ fields kind 0 id other }
{
    Fields {
        kind,
        reason: 0,
        id,
        other,
    }
}

impl Fields {
    // The numbers of a record are the format's, and stand here alone.
    fn of(r: Record) -> Fields
        ensures { numbers result ≡ fields_of r }
    {
        match r {
            Record::ConnectionCreated(id) => numbered(1, id, 0),
            Record::ConnectionReady(id) => numbered(2, id, 0),
            Record::ConnectionCheckedIn(id) => numbered(3, id, 0),
            Record::ConnectionClosed(reason, id, other) => Fields {
                reason: u8::from(reason),
                ..numbered(4, id, other)
            },
            Record::PoolReady => numbered(5, 0, 0),
            Record::PoolCleared(timeout, cause, generation) => Fields {
                reason: timeout as u8,
                ..numbered(6, cause, generation)
            },
            Record::PoolShut => numbered(7, 0, 0),
            Record::Interrupt(lent) => numbered(8, 0, lent),
            Record::Replied(request, reply) => match reply {
                Reply::Pooled(connection) => numbered(16, request, connection),
                Reply::Establishing(connection) => numbered(17, request, connection),
                Reply::Warmed => numbered(18, request, 0),
                Reply::Cleared(cause) => numbered(19, request, cause),
                Reply::Gone => numbered(20, request, 0),
                Reply::Unheard => numbered(21, request, 0),
            },
        }
    }
}

// ── A record in bytes ──

// A record at the front of a lent tail: by numbers, as the format has them.
pub fn put_record(o: &mut [u8], kind: u8, reason: u8, serial: u32, id: u64, other: u32)
    requires { 16 ≤ length o.old }
    ensures { o.new ≡ record_bytes serial (fields kind reason id other) ++ drop 16 o.old }
{
    big_endian::put_u32(&mut o[4..], serial);
    big_endian::put_u32(&mut o[8..], (id % 4294967296) as u32);
    big_endian::put_u32(&mut o[12..], other);
    o[0] = kind;
    o[1] = reason;
    o[2] = 0;
    o[3] = 0;
}

// The records of an event so far: how many they are, and the serial of the first.
#[derive(Drop)]
pub struct Records<'a> {
    pub out: &'a mut [u8],
    pub serial: u32,
    pub count: usize,
}

impl Records<'_> {
    // One record more, behind the others; its serial follows from how many they are, and wraps: four bytes of the count are enough.
    pub fn emit(&mut self, r: Record)
        requires { Fits self.old }
        ensures { Emits r self.old self.new }
    {
        let f = Fields::of(r);
        let at = RECORD * self.count;
        let low = (self.count % 4294967296) as u32;
        let serial = std::num::wrapping_add_u32(self.serial, low);
        put_record(
            &mut self.out[at..],
            f.kind,
            f.reason,
            serial,
            f.id as u64,
            f.other,
        );
        self.count += 1;
    }
}
