// The heading of a day in words: its options so far, and what a line more leaves and tells.
#![tactic(auto, using(notation::specs::Laws::picked, notation::specs::Laws::passed))]

ghost use Rattle.std.specs.Prelude.{◌≡◌};
ghost use Rattle.heading.specs.Heading.{options_of, blank, has, with_setting, option, hears};

use definition::{Event, Options};
use notation::{Expected, Said, Setting};

// The options given so far, what stands for one that is not, and whether an event has come.
#[derive(Clone, Copy)]
pub struct Heading {
    pub maximum: Option<u32>,
    pub minimum: Option<u32>,
    pub connecting: Option<u32>,
    pub idle: Option<u64>,
    pub if_not_given: Options,
    pub is_begun: bool,
}

impl Heading {
    pub fn options(&self) -> Options
        ensures { result ≡ options_of self.now }
    {
        Options {
            maximum: self.maximum.unwrap_or(self.if_not_given.maximum),
            minimum: self.minimum.unwrap_or(self.if_not_given.minimum),
            connecting: self.connecting.unwrap_or(self.if_not_given.connecting),
            idle: self.idle.unwrap_or(self.if_not_given.idle),
        }
    }
}

// What a line tells.
#[derive(Clone, Copy)]
pub enum Told {
    Nothing,
    Event(u64, Event),
    Mistake(Expected),
}

// Before the first line: an option that is not given is 0.
pub fn blank() -> Heading
    ensures { result ≡ blank }
{
    Heading {
        maximum: None,
        minimum: None,
        connecting: None,
        idle: None,
        if_not_given: Options {
            maximum: 0,
            minimum: 0,
            connecting: 0,
            idle: 0,
        },
        is_begun: false,
    }
}

// ── A line ──

fn has(h: Heading, s: Setting) -> bool
    ensures { result ≡ has h s }
{
    match s {
        Setting::Maximum => h.maximum.is_some(),
        Setting::Minimum => h.minimum.is_some(),
        Setting::MaxConnecting => h.connecting.is_some(),
    }
}

fn with_setting(h: Heading, s: Setting, n: u32) -> Heading
    ensures { result ≡ with_setting h s n }
{
    match s {
        Setting::Maximum => Heading {
            maximum: Some(n),
            ..h
        },
        Setting::Minimum => Heading {
            minimum: Some(n),
            ..h
        },
        Setting::MaxConnecting => Heading {
            connecting: Some(n),
            ..h
        },
    }
}

// What a line leaves, and what it tells.
#[derive(Clone, Copy)]
pub struct Heard {
    pub heading: Heading,
    pub told: Told,
}

// Options stand before the first event, each once: `next` is the heading with one more.
fn option(h: Heading, is_given: bool, next: Heading) -> Heard
    ensures { result ≡ option h is_given next }
{
    if h.is_begun {
        Heard {
            heading: h,
            told: Told::Mistake(Expected::NoOption),
        }
    } else if is_given {
        Heard {
            heading: h,
            told: Told::Mistake(Expected::OtherOption),
        }
    } else {
        Heard {
            heading: next,
            told: Told::Nothing,
        }
    }
}

pub fn hear(h: Heading, s: Said) -> Heard
    ensures { result ≡ hears h s }
{
    match s {
        Said::Nothing => Heard {
            heading: h,
            told: Told::Nothing,
        },
        Said::Option(o, n) => option(h, has(h, o), with_setting(h, o, n)),
        Said::IdleLimit(n) => option(h, h.idle.is_some(), Heading { idle: Some(n), ..h }),
        Said::Event(time, e) => Heard {
            heading: Heading {
                is_begun: true,
                ..h
            },
            told: Told::Event(time, e),
        },
        Said::Mistake(x) => Heard {
            heading: h,
            told: Told::Mistake(x),
        },
    }
}
