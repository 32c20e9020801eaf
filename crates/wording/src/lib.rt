// A line of a day in words, read byte by byte in pieces of any cut, without end in length: only the word under way is held.
#![tactic(auto, using(notation::specs::Laws::picked, notation::specs::Laws::passed), unfolding(crate::specs::Wording::word_takes, crate::specs::Wording::end_word, crate::specs::Wording::reads, crate::specs::Wording::ended))]

ghost use Rattle.std.specs.Prelude.{◌≡◌, false};
ghost use Rattle.wording.specs.Wording.{begun, word_takes, end_word, reads, read_all, ended};
ghost use Rattle.wording.specs.Held.{held, view_of};

mod word;

use notation::Place;
pub use word::{WORD, Word};

// A line under way: where its reading stands, the word that has not ended, and whether the rest is not looked at.
#[derive(Clone, Copy)]
pub struct Line {
    pub place: Place,
    pub word: Word,
    pub is_over: bool,
}

// A line's start.
pub fn begin() -> Line
    ensures { view_of result ≡ begun }
{
    Line {
        place: Place::Start,
        word: Word::new(),
        is_over: false,
    }
}

// A longer word than any is none.
#[tactic(auto, using(crate::specs::Laws::takes_long, crate::specs::Laws::takes_short))]
fn word_takes(p: Place, w: &[u8]) -> Place
    ensures { result ≡ word_takes p w.now }
{
    if WORD <= w.len() {
        return Place::Wrong(grammar::expected_at(p));
    }
    grammar::takes(p, w)
}

impl Line {
    // The word ends, if there is one. Where it is wrong it is kept, to be told, and the rest is not looked at.
    fn end_word(&mut self)
        requires { self.old.is_over ≡ false }
        ensures { view_of self.new ≡ end_word self.old.place (held self.old.word) }
    {
        let word = self.word.as_slice();
        if word.is_empty() {
            return;
        }
        self.place = word_takes(self.place, word);
        self.is_over = matches!(self.place, Place::Wrong(_));
        if !self.is_over {
            self.word = Word::new();
        }
    }

    fn read(&mut self, c: u8)
        ensures { view_of self.new ≡ reads (view_of self.old) c }
    {
        if self.is_over {
            return;
        }
        match c {
            b'#' => {
                self.end_word();
                self.is_over = true;
            }
            b' ' | b'\t' | b'\r' => self.end_word(),
            _ => self.word.push(c),
        }
    }
}

// Some bytes of a line, in which no newline stands.
#[tactic(auto, using(crate::specs::Laws::read_more), unfolding(crate::specs::Wording::read_all))]
pub fn read_bytes(l: Line, bytes: &[u8]) -> Line
    ensures { view_of result ≡ read_all (view_of l) bytes.now }
{
    let mut line = l;
    for c in bytes {
        line.read(*c);
    }
    line
}

// The line's end.
pub fn end(l: Line) -> Line
    ensures { view_of result ≡ ended (view_of l) }
{
    let mut line = l;
    if !line.is_over {
        line.end_word();
    }
    line
}
