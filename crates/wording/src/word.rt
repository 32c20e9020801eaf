// The word under way in a line.
ghost use Rattle.std.specs.Prelude.{◌+◌, ◌≤◌};
ghost use Rattle.wording.specs.Wording.{word_most};

// The most bytes of a word that are held: one more than any word has, so that a longer one is known.
pub const WORD: usize = 21;

// The bytes held so far, at the front of an array.
#[derive(Clone, Copy)]
pub struct Word {
    bytes: [u8; WORD],
    length: usize,
    ghost in_range: { length ≤ word_most + 1 },
}

impl Word {
    ghost use Rattle.std.specs.Prelude.{◌≡◌, List, []};
    ghost use Rattle.wording.specs.Wording.{grown};
    ghost use Rattle.wording.specs.Held.{held};

    pub fn new() -> Word
        ensures { held result ≡ [] }
    {
        Word {
            bytes: [0; WORD],
            length: 0,
        }
    }

    pub fn as_slice(&self) -> &[u8]
        ensures { result.now ≡ held self.now }
    {
        &self.bytes[..self.length]
    }

    // One more byte of a word that is too long changes nothing.
    #[tactic(auto, using(crate::specs::Laws::full))]
    pub fn push(&mut self, c: u8)
        ensures { held self.new ≡ grown (held self.old) c }
    {
        if self.length < WORD {
            self.bytes[self.length] = c;
            self.length += 1;
        }
    }
}
