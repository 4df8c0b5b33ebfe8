// The listing program: reads N and the labels of a plan, and prints the records of its program, or a refusal. Document 01, "Listing program".
#![tactic(auto)]

ghost use Rattle.std.specs.Prelude.{◌+◌, ◌*◌, ◌≤◌, ◌<◌, length};

use compiler::Method;
use numbers::wide;
use refusal::Refusal;
use std::io::Read;
use text::Reading;

fn main(rt: HostRuntime) {
    let mut numbers = [0u32; 4097];
    let reading = read_all(&mut rt.stdin(), &mut numbers);
    match reading.ended(&mut numbers) {
        Ok(listed) => list(&rt, listed.order, &numbers[1..=listed.labels]),
        Err(refusal) => print_refusal(&rt, refusal),
    }
}

// Reads the input piece by piece, to its first fault, to its end, or to a read that fails. A proved loop has to end, so its turns are
// counted, up to a number that no run reaches.
fn read_all(input: &mut impl Read, numbers: &mut [u32]) -> Reading {
    let mut reading = text::blank();
    let mut piece = [0u8; 4096];
    for _ in 0..u64::MAX {
        let n = input.read(&mut piece).unwrap_or(0);
        reading = text::feed(reading, &piece[..n], numbers);
        if n == 0 || reading.is_faulty() {
            break;
        }
    }
    reading
}

// Compiles a plan, and prints its program or the refusal.
fn list(rt: &impl Print, order: u32, plan: &[u32]) {
    let mut work = [0u32; 16384];
    let mut words = [0u32; 16384];
    match compiler::compile(order, plan, &mut work, &mut words, Method::Plain) {
        Ok(written) => print_program(rt, &words, written.records),
        Err(refusal) => print_refusal(rt, refusal),
    }
}

// Prints each record of a program.
fn print_program(rt: &impl Print, words: &[u32], records: u32)
    requires { 4 * records ≤ length words.now }
{
    for k in 0..records {
        print_record(rt, k, words);
    }
}

fn print_record(rt: &impl Print, k: u32, words: &[u32])
    requires { 4 * k + 3 < length words.now }
{
    let at = 4 * wide(k);
    let mut line = [0u8; 64];
    let size = output::record_line(
        k,
        words[at],
        words[at + 1],
        words[at + 2],
        words[at + 3],
        &mut line,
    );
    let _ = rt.write_all(&line[..size]);
}

fn print_refusal(rt: &impl Print, refusal: Refusal) {
    let mut line = [0u8; 64];
    let size = output::refusal_line(refusal.number(), refusal.detail(), &mut line);
    let _ = rt.write_all(&line[..size]);
}
