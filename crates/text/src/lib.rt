// What the listing program reads, without the reading itself: bytes to numbers. Document 01, "Listing program".
#![tactic(auto)]

ghost use Rattle.std.specs.Prelude.{◌≡◌, true, List, ℕ, ◌-◌, ◌≤◌, length, take};
ghost use Rattle.model.specs.Text.{fed, joining};
ghost use Rattle.model.specs.Text as Text;
ghost use Rattle.text.specs.Readings.{stage_of, text_of, scanned_of, is_faulty, Kept, Untouched, Counted, Standing};

use refusal::Refusal;

// Where reading stands: between numbers; in one, with the position of its first digit and its value so far; or at the first fault.
#[derive(Clone, Copy)]
pub enum Stage {
    Between,
    Within { start: u64, value: u32 },
    Faulty { at: u64 },
}

// The position of the next byte, how many numbers have ended, and the stage.
// Kept: the numbers stand in a slice lent with each call, with their count here: a rule of the project (no heap, fixed memory).
#[derive(Clone, Copy)]
pub struct Reading {
    position: u64,
    count: usize,
    stage: Stage,
}

// What an input without a fault says: N, which is the first number, and how many labels follow it.
#[derive(Clone, Copy)]
pub struct Listed {
    pub order: u32,
    pub labels: usize,
}

// Before the first byte.
pub fn blank() -> Reading
    ensures { (numbers : List ℕ) → text_of result numbers ≡ Text.blank }
{
    Reading {
        position: 1,
        count: 0,
        stage: Stage::Between,
    }
}

// The bytes of a piece of the input, one after another.
pub fn feed(mut reading: Reading, bytes: &[u8], numbers: &mut [u32]) -> Reading
    ensures numbers_after { text_of result numbers.new ≡ fed (length numbers.old) (text_of reading numbers.old) bytes.now }
    ensures kept { Kept reading.count result.count numbers.old numbers.new }
{
    for &byte in bytes {
        reading = reading.step(byte, numbers);
    }
    reading
}

impl Reading {
    // One byte.
    pub fn step(self, byte: u8, numbers: &mut [u32]) -> Reading
        ensures numbers_after { text_of result numbers.new ≡ Text.step (length numbers.old) (text_of self numbers.old) byte }
        ensures kept { Kept self.count result.count numbers.old numbers.new }
    {
        let at = self.position;
        match self.stage {
            Stage::Faulty { .. } => self,
            Stage::Between => Reading {
                position: at.saturating_add(1),
                stage: begun(self.count < numbers.len(), at, byte),
                ..self
            },
            Stage::Within { start, value } => {
                let count = if is_gap(byte) {
                    join(self.count, value, numbers)
                } else {
                    self.count
                };
                Reading {
                    position: at.saturating_add(1),
                    count,
                    stage: continued(at, start, value, byte),
                }
            }
        }
    }

    // Whether a fault was met: no further byte changes the answer.
    pub fn is_faulty(self) -> bool
        ensures { result ≡ is_faulty (stage_of self.stage) }
    {
        matches!(self.stage, Stage::Faulty { .. })
    }

    // The end of the input, with which a number that is being read ends.
    pub fn ended(self, numbers: &mut [u32]) -> Result<Listed, Refusal>
        ensures numbers_after { scanned_of result numbers.new ≡ Text.ended (length numbers.old) (text_of self numbers.old) }
        ensures standing { Standing result (length numbers.new) }
        ensures untouched { Untouched result numbers.old numbers.new }
    {
        let count = match self.stage {
            Stage::Faulty { at } => return Err(Refusal::ListingText { position: at }),
            Stage::Between => self.count,
            Stage::Within { value, .. } => join(self.count, value, numbers),
        };
        named(self.position, count, numbers)
    }
}

// The numbers that were read before a position: N and the labels, or a fault there if there is none.
fn named(position: u64, count: usize, numbers: &[u32]) -> Result<Listed, Refusal>
    ensures numbers_value { scanned_of result numbers.now ≡ Text.named position (take count numbers.now) }
    ensures counted { Counted result count (length numbers.now) }
{
    match &numbers[..count.min(numbers.len())] {
        [] => Err(Refusal::ListingText { position }),
        [order, labels @ ..] => Ok(Listed {
            order: *order,
            labels: labels.len(),
        }),
    }
}

// A number that has ended is put after those before it, if there is room; the answer is how many there are then.
fn join(count: usize, value: u32, numbers: &mut [u32]) -> usize
    ensures numbers_after { take result numbers.new ≡ joining (length numbers.old) (take count numbers.old) value }
    ensures kept { Kept count result numbers.old numbers.new }
{
    if numbers.len() <= count {
        return count;
    }
    numbers[count] = value;
    count + 1
}

// The stage after a byte where no number is being read: a digit begins one, if there is room for it.
fn begun(room: bool, at: u64, byte: u8) -> Stage
    ensures { stage_of result ≡ Text.begun room at byte }
{
    match char::from(byte).to_digit(10) {
        Some(value) if room => Stage::Within { start: at, value },
        Some(_) => Stage::Faulty { at },
        None => parted(at, byte),
    }
}

// The stage after a byte in a number: one too large is a fault at its first digit.
fn continued(at: u64, start: u64, value: u32, byte: u8) -> Stage
    ensures { stage_of result ≡ Text.continued at start value byte }
{
    let Some(digit) = char::from(byte).to_digit(10) else {
        return parted(at, byte);
    };
    match u32::try_from(10 * u64::from(value) + u64::from(digit)) {
        Ok(value) => Stage::Within { start, value },
        Err(_) => Stage::Faulty { at: start },
    }
}

// The stage after a byte that is no digit.
fn parted(at: u64, byte: u8) -> Stage
    ensures { stage_of result ≡ Text.parted at byte }
{
    if is_gap(byte) {
        Stage::Between
    } else {
        Stage::Faulty { at }
    }
}

// A space or a line feed.
fn is_gap(byte: u8) -> bool
    ensures { result ≡ Text.is_gap byte }
{
    matches!(byte, b' ' | b'\n')
}
