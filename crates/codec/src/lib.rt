// The program file: words as bytes, four each, low byte first, and back. Document 01, checks 18 and 19 and the writer's 7.
#![tactic(auto)]

ghost use Rattle.std.specs.Prelude.{◌≡◌, ◌++◌, ◌+◌, ◌*◌, ◌/◌, ◌%◌, ◌≤◌, length, drop};
ghost use Rattle.model.specs.File.{bytes_of, words_of, writes, reads, bytes_after, words_after};
ghost use Rattle.codec.specs.Filing.{filed_of, words_again, bytes_again, lent_after};

use refusal::Refusal;

// Writes the words into the lent bytes: 7 above 400,000,000 words, then 19 where the bytes do not hold them.
#[tactic(auto, unfolding(model::specs::File::writes, model::specs::File::bytes_after))]
pub fn write_file(words: &[u32], bytes: &mut [u8]) -> Result<u64, Refusal>
    ensures result_value { filed_of result ≡ writes (length words.now) (length bytes.old) }
    ensures bytes_after { bytes.new ≡ bytes_after words.now bytes.old }
{
    let count = words.len();
    if 400_000_000 < count {
        return Err(Refusal::WordCount);
    }
    let needed = 4 * count;
    if bytes.len() < needed {
        return Err(Refusal::OutputShort {
            needed: needed as u64,
        });
    }
    put_words(words, bytes);
    Ok(needed as u64)
}

// The words as bytes, at the front of bytes that hold them.
fn put_words(words: &[u32], bytes: &mut [u8])
    requires { 4 * length words.now ≤ length bytes.old }
    ensures { bytes.new ≡ bytes_of words.now ++ drop (4 * length words.now) bytes.old }
{
    // By hand: to_le_bytes gives an array (A.3), and after chunks_exact_mut a proof knows none of the elements (tried).
    for (k, &w) in words.iter().enumerate() {
        let at = 4 * k;
        bytes[at] = (w % 256) as u8;
        bytes[at + 1] = (w / 256 % 256) as u8;
        bytes[at + 2] = (w / 65536 % 256) as u8;
        bytes[at + 3] = (w / 16777216 % 256) as u8;
    }
}

// Reads a file's bytes into the lent words: 18 where they are not in fours, then 19 where the words are too few.
#[tactic(auto, unfolding(model::specs::File::reads, model::specs::File::words_after))]
pub fn read_file(bytes: &[u8], words: &mut [u32]) -> Result<u64, Refusal>
    ensures result_value { filed_of result ≡ reads (length bytes.now) (length words.old) }
    ensures words_after { words.new ≡ words_after bytes.now words.old }
{
    if bytes.len() % 4 != 0 {
        return Err(Refusal::FileBytes);
    }
    let count = bytes.len() / 4;
    if words.len() < count {
        return Err(Refusal::OutputShort {
            needed: count as u64,
        });
    }
    take_words(bytes, words);
    Ok(count as u64)
}

// The words of a file's bytes, in fours, at the front of words that hold them.
fn take_words(bytes: &[u8], words: &mut [u32])
    requires { (length bytes.now % 4 ≡ 0) × (length bytes.now / 4 ≤ length words.old) }
    ensures { words.new ≡ words_of bytes.now ++ drop (length bytes.now / 4) words.old }
{
    // By hand: the words are written at an index, as the bytes are in put_words.
    for k in 0..bytes.len() / 4 {
        let at = 4 * k;
        words[k] = word_of(bytes[at], bytes[at + 1], bytes[at + 2], bytes[at + 3]);
    }
}

// The word of four bytes, low byte first.
// By hand: u32::from_le_bytes takes an array, and none may stand between bytes and words (document 02, A.3; tests/no_copy.sh).
fn word_of(a: u8, b: u8, c: u8, d: u8) -> u32
    ensures { result ≡ a + 256 * b + 65536 * c + 16777216 * d }
{
    a as u32 + 256 * (b as u32) + 65536 * (c as u32) + 16777216 * (d as u32)
}

// Writes the words and reads them back: the same words again, where both slices hold them.
pub fn words_again(words: &[u32], bytes: &mut [u8], again: &mut [u32]) -> Result<u64, Refusal>
    ensures result_value { filed_of result ≡ words_again (length words.now) (length bytes.old) (length again.old) }
    ensures bytes_after { bytes.new ≡ bytes_after words.now bytes.old }
    ensures again_after { let lent = again.old in
        again.new ≡ lent_after (words_again (length words.now) (length bytes.old) (length lent)) words.now lent }
{
    let written = write_file(words, bytes)?;
    read_file(&bytes[..written as usize], again)
}

// Reads a file's bytes and writes them back: the same bytes again, where both slices hold them.
pub fn bytes_again(bytes: &[u8], words: &mut [u32], again: &mut [u8]) -> Result<u64, Refusal>
    ensures result_value { filed_of result ≡ bytes_again (length bytes.now) (length words.old) (length again.old) }
    ensures words_after { words.new ≡ words_after bytes.now words.old }
    ensures again_after { let lent = again.old in
        again.new ≡ lent_after (bytes_again (length bytes.now) (length words.old) (length lent)) bytes.now lent }
{
    let read = read_file(bytes, words)?;
    write_file(&words[..read as usize], again)
}
