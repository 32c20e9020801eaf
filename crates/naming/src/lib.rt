// The names that a line of words may have: of options, and of events.
#![tactic(auto, using(notation::specs::Laws::picked, notation::specs::Laws::passed), unfolding(notation::specs::Notation::option_named, notation::specs::Notation::naming_named, notation::specs::Notation::kind_takes))]

ghost use Rattle.std.specs.Prelude.{◌≡◌};
ghost use Rattle.notation.specs.Notation.{option_named, naming_named, kind_takes};

use definition::Event;
use notation::{Expected, Naming, Place, Setting};

const OPTIONS: [(&[u8], Place); 4] = [
    (b"maximum", Place::Value(Setting::Maximum)),
    (b"minimum", Place::Value(Setting::Minimum)),
    (b"max-connecting", Place::Value(Setting::MaxConnecting)),
    (b"idle-limit", Place::IdleLimit),
];

pub fn option_named(w: &[u8]) -> Place
    ensures { result ≡ option_named w.now }
{
    spelling::look_up(&OPTIONS, w).unwrap_or(Place::Wrong(Expected::TimeOrOption))
}

// The events that name a request or a connection.
const NAMINGS: [(&[u8], Naming); 9] = [
    (b"check-out", Naming::CheckOut),
    (b"warm", Naming::WarmPool),
    (b"abandon", Naming::Abandon),
    (b"check-in", Naming::CheckIn),
    (b"succeeded", Naming::Succeeded),
    (b"failed", Naming::Failed),
    (b"pin", Naming::Pin),
    (b"return", Naming::ReturnToPinner),
    (b"take", Naming::TakeFromPinner),
];

fn naming_named(time: u64, w: &[u8]) -> Place
    ensures { result ≡ naming_named time w.now }
{
    spelling::look_up(&NAMINGS, w).map_or(Place::Wrong(Expected::Kind), |n| Place::Id(time, n))
}

// The events with nothing behind their names.
const BARE: [(&[u8], Event); 4] = [
    (b"ready", Event::MarkAsReady),
    (b"maintenance", Event::Maintenance),
    (b"fill", Event::FillPool),
    (b"close", Event::Close),
];

pub fn kind_takes(time: u64, w: &[u8]) -> Place
    ensures { result ≡ kind_takes time w.now }
{
    match spelling::look_up(&BARE, w) {
        Some(e) => Place::Whole(time, e),
        None if w == b"clear".as_slice() => Place::Cause(time),
        None => naming_named(time, w),
    }
}
