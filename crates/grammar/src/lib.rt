// A line of a day in words, read word by word: where the reading stands behind one word more, and what a whole line says.
#![tactic(auto, unfolding(notation::specs::Notation::start_takes))]

ghost use Rattle.std.specs.Prelude.{◌≡◌};
ghost use Rattle.notation.specs.Notation.{expected_at, start_takes, takes, says};

use definition::Event;
use notation::{Expected, Place, Said};

// What should come where the reading stands.
pub fn expected_at(p: Place) -> Expected
    ensures { result ≡ expected_at p }
{
    match p {
        Place::Start => Expected::TimeOrOption,
        Place::Value(_) => Expected::Value,
        Place::IdleLimit => Expected::IdleLimit,
        Place::Kind(_) => Expected::Kind,
        Place::Id(_, n) => notation::expected_of(n),
        Place::Cause(_) => Expected::Cause,
        Place::Marks(..) => Expected::MarkOrLetGo,
        Place::LetGo(..) => Expected::LetGo,
        Place::Timeout(..) => Expected::TimeoutOrEnd,
        Place::Opened(..) => Expected::OpenedOrEnd,
        Place::OpenedAt(..) => Expected::Opened,
        Place::Set(..) | Place::IdleSet(_) | Place::Whole(..) => Expected::End,
        Place::Wrong(x) => x,
    }
}

fn start_takes(w: &[u8]) -> Place
    ensures { result ≡ start_takes w.now }
{
    match notation::number_up_to(u64::MAX, w) {
        Some(time) => Place::Kind(time),
        None => naming::option_named(w),
    }
}

// Where the reading stands behind one word more.
pub fn takes(p: Place, w: &[u8]) -> Place
    ensures { result ≡ takes p w.now }
{
    match p {
        Place::Start => start_takes(w),
        Place::Value(s) => notation::value_takes(s, w),
        Place::IdleLimit => notation::idle_takes(w),
        Place::Kind(time) => naming::kind_takes(time, w),
        Place::Id(time, n) => notation::id_takes(time, n, w),
        Place::Cause(time) => notation::cause_takes(time, w),
        Place::Marks(time, id, errored, executing) => notation::marks_takes(
            time, id, errored, executing, w,
        ),
        Place::LetGo(time, id, errored, executing) => notation::let_go_takes(
            time, id, errored, executing, w,
        ),
        Place::Timeout(time, cause) => notation::timeout_takes(time, cause, w),
        Place::Opened(time, id) => notation::opened_takes(time, id, w),
        Place::OpenedAt(time, id) => notation::opened_at_takes(time, id, w),
        Place::Set(..) | Place::IdleSet(_) | Place::Whole(..) => Place::Wrong(Expected::End),
        Place::Wrong(x) => Place::Wrong(x),
    }
}

// What a line says that ends here.
pub fn says(p: Place) -> Said
    ensures { result ≡ says p }
{
    match p {
        Place::Start => Said::Nothing,
        Place::Set(s, n) => Said::Option(s, n),
        Place::IdleSet(n) => Said::IdleLimit(n),
        Place::Timeout(time, cause) => Said::Event(time, Event::Clear(false, cause)),
        Place::Opened(time, id) => Said::Event(time, Event::Succeeded(id)),
        Place::Whole(time, e) => Said::Event(time, e),
        _ => Said::Mistake(expected_at(p)),
    }
}
