// The 24 bytes of an event with its time, and of options.
#![tactic(auto)]

ghost use Rattle.std.specs.Prelude.{◌≡◌, ◌∷◌, ◌++◌, ◌+◌};
ghost use Rattle.definition.specs.Bytes.{frame_bytes, options_bytes, be4, be8};
ghost use Rattle.definition.specs.Events.{bit};

use definition::{Event, FRAME, Options};

fn fields_bytes(kind: u8, flags: u8, id: u32, time: u64, second: u64) -> [u8; FRAME]
    ensures { result ≡ kind ∷ flags ∷ 0 ∷ 0 ∷ (be4 id ++ (be8 time ++ be8 second)) }
{
    let mut b = [0u8; FRAME];
    b[0] = kind;
    b[1] = flags;
    big_endian::put_u32(&mut b[4..], id);
    big_endian::put_u64(&mut b[8..], time);
    big_endian::put_u64(&mut b[16..], second);
    b
}

#[tactic(auto, using(crate::proofs::Flags::flags))]
fn check_in_flags(errored: bool, executing: bool) -> u8
    ensures { result ≡ bit 1 errored + bit 2 executing }
{
    errored as u8 + 2 * executing as u8
}

// The frame of an event with its time. The kinds' numbers are the file format's own; `reading::fields_frame` has them too.
#[tactic(auto, using(crate::proofs::Flags::flags), unfolding(definition::specs::Bytes::frame_bytes))]
pub fn frame_bytes(e: Event, time: u64) -> [u8; FRAME]
    ensures { result ≡ frame_bytes e time }
{
    match e {
        Event::CheckOut(id) => fields_bytes(1, 0, id, time, 0),
        Event::WarmPool(id) => fields_bytes(2, 0, id, time, 0),
        Event::Abandon(id) => fields_bytes(3, 0, id, time, 0),
        Event::CheckIn(id, errored, executing, let_go) => fields_bytes(
            4,
            check_in_flags(errored, executing),
            id,
            time,
            let_go,
        ),
        Event::Clear(timeout, cause) => fields_bytes(5, timeout as u8, cause, time, 0),
        Event::MarkAsReady => fields_bytes(6, 0, 0, time, 0),
        Event::Succeeded(id) => fields_bytes(7, 0, id, time, 0),
        Event::SucceededForPool(id, opened) => fields_bytes(8, 0, id, time, opened),
        Event::Failed(id) => fields_bytes(9, 0, id, time, 0),
        Event::Maintenance => fields_bytes(10, 0, 0, time, 0),
        Event::FillPool => fields_bytes(11, 0, 0, time, 0),
        Event::Pin(id) => fields_bytes(12, 0, id, time, 0),
        Event::ReturnToPinner(id) => fields_bytes(13, 0, id, time, 0),
        Event::TakeFromPinner(id) => fields_bytes(14, 0, id, time, 0),
        Event::Close => fields_bytes(15, 0, 0, time, 0),
    }
}

#[tactic(auto, unfolding(definition::specs::Bytes::options_bytes))]
pub fn options_bytes(o: Options) -> [u8; FRAME]
    ensures { result ≡ options_bytes o }
{
    let mut b = [0u8; FRAME];
    big_endian::put_u32(&mut b[4..], o.maximum);
    big_endian::put_u32(&mut b[8..], o.minimum);
    big_endian::put_u32(&mut b[12..], o.connecting);
    big_endian::put_u64(&mut b[16..], o.idle);
    b
}
