// A piece of a line: what has not ended is held, and a line that has is taken.
#![tactic(auto)]

ghost use Rattle.std.specs.Prelude.{◌≡◌, ◌≤◌, ◌<◌, [], ◌++◌, length, take};
ghost use Rattle.definition.specs.Words.{◌=?◌};
ghost use Rattle.first_line.specs.Took.{line_room};
ghost use Rattle.first_line.specs.Code.{AbleIn};
ghost use Rattle.lines.specs.OnSlots.{on_slots};
ghost use Rattle.pieces.specs.Holds.{held_most};
ghost use Rattle.pieces.specs.Chunks.{chunk_of};
ghost use Rattle.pieces.specs.Code.{view_of, Pieced};

use first_line::Replayer;
use std::marker::Model;

// The most that is held of a line: one byte more than a line may have, which tells that it is malformed.
pub const HELD: usize = 50;

// The bytes of a line that has not ended: the first `count`, and those behind them are 0.
#[derive(Clone, Copy)]
pub struct Held {
    bytes: [u8; HELD],
    count: usize,
}

impl Model for Held {
    ghost use Rattle.std.specs.Prelude.{List, ℕ, ◌++◌, ◌-◌, length, take, replicate};

    ghost Value = { List ℕ };

    ghost use Rattle.pieces.specs.Holds.{held_most, Holds};
    ghost use Rattle.pieces.specs.Inside.{held_back};

    ghost view = { λ h. take h.count h.bytes };

    ghost invariant = { λ h. Holds h.bytes h.count };

    ghost inverse = { λ l. record { bytes = l ++ replicate (held_most - length l) 0; count = length l } };

    ghost inverse_ok = { held_back };
}

impl Held {
    pub fn new() -> Self
        ensures { result ≡ [] }
    {
        Held {
            bytes: [0; HELD],
            count: 0,
        }
    }

    pub fn is_empty(&self) -> bool
        ensures { result ≡ (length self.now =? 0) }
    {
        self.count == 0
    }

    pub fn as_slice(&self) -> &[u8]
        ensures { result.now ≡ self.now }
    {
        &self.bytes[..self.count]
    }

    // The bytes of a piece behind those that are held, as far as there is room.
    fn hold(&mut self, piece: &[u8])
        ensures { self.new ≡ take held_most (self.old ++ piece.now) }
    {
        let n = piece.len().min(HELD - self.count);
        self.bytes[self.count..self.count + n].copy_from_slice(&piece[..n]);
        self.count += n;
    }

    fn clear(&mut self)
        ensures { self.new ≡ [] }
    {
        *self = Held::new();
    }
}

// A piece of a line, behind what is held: the line's end, or more to hold. The answer is how much of the output was written.
pub fn take_piece(r: &mut Replayer, held: &mut Held, piece: &[u8], out: &mut [u8]) -> usize
    requires { AbleIn r.old × (0 < length piece.now) × (line_room ≤ length out.old) }
    ensures { Pieced (chunk_of on_slots (view_of r.old held.old) piece.now) out.old out.new (view_of r.new held.new) result }
{
    if piece[piece.len() - 1] != 10 {
        held.hold(piece);
        return 0;
    }
    // A whole line is taken where it stands.
    if held.is_empty() {
        return lines::take_line(r, piece, out);
    }
    held.hold(piece);
    let n = lines::take_line(r, held.as_slice(), out);
    held.clear();
    n
}
