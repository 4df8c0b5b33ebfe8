// What the listing program prints: a line at the start of a buffer, numbers in decimal digits, each with the byte after it. Document 01,
// "Listing program".
#![tactic(auto)]

ghost use Rattle.std.specs.Prelude.{◌≡◌, ◌++◌, ◌+◌, ◌≤◌, ◌<◌, length, drop};
ghost use Rattle.model.specs.Text.{decimal, entry, record_line, refusal_line, refused};
ghost use Rattle.output.specs.Lines.{Put, Counts};

// Puts a record's line, its index and four words, and answers the line's length.
pub fn record_line(index: u32, a: u32, b: u32, c: u32, d: u32, out: &mut [u8; 64]) -> usize
    ensures value { result ≡ length (record_line index a b c d) }
    ensures out_after { out.new ≡ record_line index a b c d ++ drop result out.old }
    ensures counts { Counts result out.new }
{
    let first = put_entry(u64::from(index), b' ', 0, out);
    let second = put_entry(u64::from(a), b' ', first, out);
    let third = put_entry(u64::from(b), b' ', second, out);
    let fourth = put_entry(u64::from(c), b' ', third, out);
    put_entry(u64::from(d), b'\n', fourth, out)
}

// Puts a refusal's line, its number and its detail, and answers the line's length.
pub fn refusal_line(number: u32, detail: u64, out: &mut [u8; 64]) -> usize
    ensures value { result ≡ length (refusal_line number detail) }
    ensures out_after { out.new ≡ refusal_line number detail ++ drop result out.old }
    ensures counts { Counts result out.new }
{
    out[..8].copy_from_slice(b"refused ");
    let second = put_entry(u64::from(number), b' ', 8, out);
    put_entry(detail, b'\n', second, out)
}

// Puts a number and the byte after it from a place on, and answers the place after them.
fn put_entry(n: u64, after: u8, at: usize, out: &mut [u8]) -> usize
    requires { at + length (decimal n) < length out.old }
    ensures { Put result out.new at out.old (entry n after) }
{
    let end = put_decimal(n, at, out);
    out[end] = after;
    end + 1
}

// Puts a number's decimal digits from a place on, and answers the place after them.
// By hand: std writes digits through `fmt` alone; a writer of our own for the buffer would be longer than these lines.
fn put_decimal(n: u64, at: usize, out: &mut [u8]) -> usize
    requires { at + length (decimal n) ≤ length out.old }
    ensures { Put result out.new at out.old (decimal n) }
{
    if n < 10 {
        out[at] = b'0' + n as u8;
        return at + 1;
    }
    let end = put_decimal(n / 10, at, out);
    out[end] = b'0' + (n % 10) as u8;
    end + 1
}
