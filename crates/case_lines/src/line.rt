// The numbers and words of a line.
ghost use Rattle.std.specs.Prelude.{◌+◌, ◌≤◌, length};

use decimal::{read, search};

// What stands for a number that is missing or below zero, where a call takes any: no length, count or answer of a case is as great.
const NONE: usize = 1000000;

// Where a byte ends a part of a text.
pub fn end(text: &[u8], from: usize, byte: u8) -> usize
    requires { from ≤ length text.now }
    ensures { (from ≤ result) × (result ≤ length text.now) }
{
    search::end_of(text, from, byte)
}

// Where part n begins, if each part ends at a byte; the text's end if there are fewer.
pub fn begin(text: &[u8], n: usize, byte: u8) -> usize
    ensures { result ≤ length text.now }
{
    let mut at = 0;
    for _ in 0..n {
        at = end(text, at, byte);
        if at == text.len() {
            return at;
        }
        at += 1;
    }
    at
}

// Part n.
fn part(text: &[u8], n: usize, byte: u8) -> &[u8] {
    let from = begin(text, n, byte);
    &text[from..end(text, from, byte)]
}

// Whether part n is a word.
pub fn is(text: &[u8], n: usize, byte: u8, word: &[u8]) -> bool {
    part(text, n, byte) == word
}

// Part n as a number of 64 bits.
pub fn whole(text: &[u8], n: usize, byte: u8) -> Option<i64> {
    read::total(part(text, n, byte))
}

// Part n as a size.
pub fn count(text: &[u8], n: usize, byte: u8) -> Option<usize> {
    usize::try_from(whole(text, n, byte)?).ok()
}

// Part n as a size that a call takes.
pub fn size(text: &[u8], n: usize, byte: u8) -> usize {
    count(text, n, byte).unwrap_or(NONE)
}

// The number at a place as a size that a call takes.
pub fn at(x: &[i32], i: usize) -> usize {
    match x.get(i) {
        Some(n) => usize::try_from(*n).unwrap_or(NONE),
        None => NONE,
    }
}

// Behind the n numbers that are there a value as often as told; nothing if there is no room.
fn fill(numbers: &mut [i32], n: usize, times: usize, value: i32) -> usize
    requires { n ≤ length numbers.old }
    ensures { result ≤ length numbers.old }
{
    if numbers.len() - n < times {
        return n;
    }
    let end = n + times;
    numbers[n..end].fill(value);
    end
}

// How often the number of a field stands: what is behind the star, and once if there is none.
fn often(text: &[u8], star: usize) -> usize
    requires { star ≤ length text.now }
{
    if star == text.len() {
        return 1;
    }
    let from = star + 1;
    match read::number(&text[from..]) {
        Some(times) => usize::try_from(times).unwrap_or(NONE),
        None => 0,
    }
}

// A field that is no number puts nothing.
fn field(text: &[u8], numbers: &mut [i32], n: usize) -> usize
    requires { n ≤ length numbers.old }
    ensures { result ≤ length numbers.old }
{
    let star = end(text, 0, b'*');
    match read::number(&text[0..star]) {
        Some(x) => fill(numbers, n, often(text, star), x as i32),
        None => n,
    }
}

// The numbers of all fields from a place on; none if a field puts nothing.
pub fn numbers(text: &[u8], from: usize, numbers: &mut [i32]) -> usize
    ensures { result ≤ length numbers.old }
{
    let mut n = 0;
    let mut at = from;
    while at <= text.len() {
        let stop = end(text, at, b',');
        let more = field(&text[at..stop], numbers, n);
        if more == n {
            return 0;
        }
        n = more;
        at = stop + 1;
    }
    n
}
