// Plays a script on a pool that is lent by `&mut`: its days and edges are in `stdin`, what they must say is in `stdout`, and the
// numbers are those of the paper.
//
// The first byte of a line says what the line is:
//   # and :  words, said with the line's end and without it
//   o        48 digits: a pool of these options; O leaves the last byte out
//   f        48 digits: a frame, and what comes of it is said; s says nothing; x lends an output that is one byte short
//   d        48 digits: the byte 0 tells what is damaged, the byte 1 where, and the last eight are what is put there
//   k and b  the pool is kept, and the kept one comes back
//   c        the pool's counts
#![tactic(auto)]

use definition::{FRAME, LINE, RECORD, ROOM, ROOM_LINES, Refusal};
use pool::Pool;
use slots::Outcome;
use standard::{Output, STDIN_FILENO};

const SHORT: usize = ROOM - 1;

// A script under way: where it is said, the pool and the one that is kept.
#[derive(Drop)]
struct Player<'a, P> {
    to: &'a P,
    pool: Pool,
    kept: Pool,
}

impl<'a, P: Print> Player<'a, P> {
    // ── what is said ──

    fn say(&self, words: &[u8]) {
        let _ = self.to.write_all(words);
    }

    fn refused(&self, refusal: Refusal) {
        let _ = println!(self.to; "refused {}", u8::from(refusal));
    }

    fn records(&self, out: &[u8], n: usize) {
        if n <= ROOM / RECORD && ROOM <= out.len() {
            let mut lines = [0u8; ROOM_LINES];
            printing::print_records(out, n, &mut lines);
            self.say(&lines[..n * LINE]);
        }
    }

    fn show(&self, outcome: Outcome, out: &[u8]) {
        match outcome {
            Err(refusal) => self.refused(refusal),
            Ok(0) => self.say(b"no records\n"),
            Ok(n) => self.records(out, n as usize),
        }
    }

    fn counts(&self) {
        let c = self.pool.counts();
        let _ = println!(self.to; "available {}\nlent {}", c.available, c.lent);
        let _ = println!(self.to; "pending {}\nwaiting {}", c.pending, c.waiting);
    }

    // ── calls ──

    fn call(&mut self, frame: &[u8], out: &mut [u8]) -> Outcome {
        let stepped = local_pool::once(self.pool, frame, out);
        self.pool = stepped.pool;
        stepped.outcome
    }

    fn play(&mut self, frame: &[u8]) {
        let mut out = [0u8; ROOM];
        let outcome = self.call(frame, &mut out);
        self.show(outcome, &out);
    }

    fn play_unsaid(&mut self, frame: &[u8]) {
        let _ = self.call(frame, &mut [0u8; ROOM]);
    }

    fn play_short(&mut self, frame: &[u8]) {
        let mut out = [7u8; SHORT];
        let outcome = self.call(frame, &mut out);
        self.show(outcome, &out);
        if out.iter().all(|b| *b == 7) {
            self.say(b"unchanged\n");
        }
    }

    fn make(&mut self, options: &[u8]) {
        let made = Pool::from_bytes(options);
        self.pool = made.pool;
        if let Err(refusal) = made.outcome {
            self.refused(refusal);
        }
    }

    fn damage(&mut self, bytes: &[u8; FRAME]) {
        let x = big_endian::u64_at(bytes, 16);
        self.pool = damage::damaged(self.pool, bytes[0], bytes[1] as usize, x);
    }

    // ── the script ──

    fn bytes(&mut self, kind: u8, bytes: &[u8; FRAME]) {
        match kind {
            b'f' => self.play(bytes),
            b's' => self.play_unsaid(bytes),
            b'x' => self.play_short(bytes),
            b'o' => self.make(bytes),
            b'O' => self.make(&bytes[1..]),
            b'd' => self.damage(bytes),
            _ => {}
        }
    }

    fn line(&mut self, kind: u8, rest: &[u8]) {
        match kind {
            b'#' => self.say(rest),
            b':' => {
                if let Some((_, words)) = rest.split_last() {
                    self.say(words);
                }
            }
            b'c' => self.counts(),
            b'k' => self.kept = self.pool,
            b'b' => self.pool = self.kept,
            _ => {
                if let Some(bytes) = digits::line_bytes(rest) {
                    self.bytes(kind, &bytes);
                }
            }
        }
    }
}

fn run<P: Print>(to: &P, text: &[u8]) {
    let pool = Pool::from_bytes(&[0u8; FRAME]).pool;
    let mut player = Player {
        to,
        pool,
        kept: pool,
    };
    for line in text.split_inclusive(|b| *b == b'\n') {
        if let Some((kind, rest)) = line.split_first() {
            player.line(*kind, rest);
        }
    }
}

fn main() {
    let mut text = io::large_buffer();
    let n = io::read_full(STDIN_FILENO, &mut text);
    run(&Output, &text[..n]);
}
