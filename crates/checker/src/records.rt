// A program's records where they stand: in its words, or in a file's bytes.
#![tactic(auto)]

ghost use Rattle.std.specs.Prelude.{◌≡◌, ◌+◌, ◌*◌, ◌/◌, ◌<◌, ℕ, List, length};
ghost use Rattle.model.specs.Check.{word};
ghost use Rattle.model.specs.File.{words_of};
ghost use Rattle.checker.specs.Source.{record_of};

use progress::Record;

// What a program is read from.
pub trait Records {
    ghost words: { Self → List ℕ };

    // How many words it has.
    fn count(&self) -> usize
        ensures { result ≡ length (words self.now) };

    // Record k. The step is compiled into a loop for each source, so a reader has to be compiled in too.
    fn record(&self, k: usize) -> Record
        requires { 4 * k + 3 < length (words self.now) }
        ensures { result ≡ record_of (words self.now) k };
}

impl Records for &[u32] {
    ghost words = { λ s. s.now };

    fn count(&self) -> usize {
        self.len()
    }

    #[inline(always)]
    fn record(&self, k: usize) -> Record {
        let at = 4 * k;
        Record {
            kind: self[at],
            p: self[at + 1],
            q: self[at + 2],
            next: self[at + 3],
        }
    }
}

// The bytes of a file, in fours.
#[derive(Drop)]
pub struct Filed<'a> {
    pub bytes: &'a [u8],
}

impl Records for Filed<'_> {
    ghost words = { λ f. words_of f.bytes.now };

    #[tactic(auto, using(crate::proofs::Sources::words_counted))]
    fn count(&self) -> usize {
        self.bytes.len() / 4
    }

    #[tactic(auto, using(crate::proofs::Sources::words_counted))]
    #[inline(always)]
    fn record(&self, k: usize) -> Record {
        let at = 4 * k;
        Record {
            kind: word_at(self.bytes, at),
            p: word_at(self.bytes, at + 1),
            q: word_at(self.bytes, at + 2),
            next: word_at(self.bytes, at + 3),
        }
    }
}

// The i-th word of a file: four bytes, low byte first.
// By hand: u32::from_le_bytes takes an array, and none may stand between bytes and words (document 02, A.3; tests/no_copy.sh).
#[tactic(auto, using(crate::proofs::Sources::word_of_four))]
#[inline(always)]
fn word_at(bytes: &[u8], i: usize) -> u32
    requires { 4 * i + 3 < length bytes.now }
    ensures { result ≡ word (words_of bytes.now) i }
{
    let at = 4 * i;
    let a = u32::from(bytes[at]);
    let b = u32::from(bytes[at + 1]);
    let c = u32::from(bytes[at + 2]);
    let d = u32::from(bytes[at + 3]);
    a + 256 * b + 65536 * c + 16777216 * d
}
