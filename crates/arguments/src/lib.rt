// What the arguments of a replay ask: [--budget N] [--used] [FILE].
#![tactic(auto)]

ghost use Rattle.std.specs.Prelude.{◌≡◌, Err};
ghost use Rattle.arguments.specs.Asked.{budget_in, budget_of, asked, Takes, Reads};
ghost use Rattle.arguments.specs.declared.Wrong.TheVariants.{Missing};

use spelling::NumberError;
use std::env::{Env, FillError};

// What is wrong with them.
#[derive(Clone, Copy)]
pub enum Wrong {
    // one can't be had
    Missing(FillError),
    // the budget is above 64 bits
    TooLarge,
    // a word asks nothing
    Unknown,
    // the budget's number is left out
    LeftOut,
}

impl From<FillError> for Wrong {
    ghost from_gives = { λ e w. w ≡ Missing e };

    fn from(e: FillError) -> Wrong {
        Wrong::Missing(e)
    }
}

impl From<NumberError> for Wrong {
    ghost from_gives = { λ e w. budget_in (Err e) ≡ Err w };

    fn from(e: NumberError) -> Wrong {
        match e {
            NumberError::TooLarge => Wrong::TooLarge,
            NumberError::NoNumber => Wrong::Unknown,
        }
    }
}

// The budget, whether the frames used are told, and which argument is the file.
#[derive(Clone, Copy)]
pub struct Asked {
    pub budget: u64,
    pub is_used: bool,
    pub file: Option<usize>,
}

// What the words so far ask, and whether any word may come next.
#[derive(Clone, Copy)]
pub enum Said {
    Whole(Asked),
    // the budget's number comes
    Open(Asked),
}

// What is wrong, and what the words before it said.
#[derive(Clone, Copy)]
pub struct Refused {
    pub why: Wrong,
    pub said: Said,
}

fn budget_of(word: &[u8]) -> Result<u64, Wrong>
    ensures { result ≡ budget_of word.now }
{
    Ok(spelling::number_of(word)?)
}

// One word more, the argument i.
fn take_word(said: Said, i: usize, word: &[u8]) -> Result<Said, Wrong>
    ensures { result ≡ asked said i word.now }
{
    match said {
        Said::Open(a) => Ok(Said::Whole(Asked {
            budget: budget_of(word)?,
            ..a
        })),
        Said::Whole(a) => {
            if word == b"--budget".as_slice() {
                Ok(Said::Open(a))
            } else if word == b"--used".as_slice() {
                Ok(Said::Whole(Asked { is_used: true, ..a }))
            } else if a.file.is_none() {
                Ok(Said::Whole(Asked { file: Some(i), ..a }))
            } else {
                Err(Wrong::Unknown)
            }
        }
    }
}

// The argument i, whatever it is, or a refusal where it can't be had.
fn take_argument<E: Env>(env: &E, said: Said, i: usize) -> Result<Said, Wrong>
    ensures { Takes said i result }
{
    let mut word = io::buffer();
    let n = env.arg(i, &mut word)?;
    take_word(said, i, &word[..n])
}

// What all of them ask; without a budget, all frames are taken.
pub fn read<E: Env>(env: &E) -> Result<Asked, Refused>
    ensures { Reads result }
{
    let mut said = Said::Whole(Asked {
        budget: u64::MAX,
        is_used: false,
        file: None,
    });
    for i in 1..standard::arg_count(env) {
        said = take_argument(env, said, i).map_err(|why| Refused { why, said })?;
    }
    match said {
        Said::Whole(a) => Ok(a),
        Said::Open(_) => Err(Refused {
            why: Wrong::LeftOut,
            said,
        }),
    }
}
