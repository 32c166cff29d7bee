// The numbers of a line.
ghost use Rattle.std.specs.Prelude.{◌≡◌, ◌+◌, ◌-◌, ◌*◌, ◌≤◌, ◌<◌, length};
ghost use Rattle.text_runs.specs.Decimal.{valued, sized, signed_in, least64, number_in, total_in};
ghost use Rattle.decimal.specs.Own.Reading.{size_within, shown_as, count_within};
ghost use Rattle.text_runs.specs.Lines.{fields, numbers_in, is_count, count_and_total, end_total};

use crate::search;

// Another digit behind more than a tenth of the limit would bring it above the limit.
fn value_of(digits: &[u8], limit: u64) -> Option<u64>
    requires { limit ≤ least64 }
    ensures { result ≡ valued limit 0 digits.now }
{
    let tenth = limit / 10;
    let mut size: u64 = 0;
    for byte in digits {
        if !byte.is_ascii_digit() {
            return None;
        }
        if tenth < size {
            return None;
        }
        size = size * 10 + u64::from(*byte - b'0');
        if limit < size {
            return None;
        }
    }
    Some(size)
}

// No digit at all and a leading zero are refused.
fn size_of(digits: &[u8], limit: u64) -> Option<u64>
    requires { limit ≤ least64 }
    ensures { result ≡ sized limit digits.now }
{
    if digits.len() == 0 {
        return None;
    }
    if 1 < digits.len() && digits[0] == b'0' {
        return None;
    }
    value_of(digits, limit)
}

// There is no "-0". The size of the least number is above the greatest number, so one less is taken from -1.
fn negative(size: Option<u64>) -> Option<i64>
    requires { size_within least64 size }
    ensures { result ≡ Rattle.text_runs.specs.Decimal.negative size }
{
    let n = size?;
    if n == 0 {
        return None;
    }
    Some(-1 - (n - 1) as i64)
}

fn positive(size: Option<u64>) -> Option<i64>
    requires { size_within (least64 - 1) size }
    ensures { result ≡ Rattle.text_runs.specs.Decimal.positive size }
{
    Some(size? as i64)
}

// A field that is a number, where the least has the size `least`.
fn signed(field: &[u8], least: u64) -> Option<i64>
    requires { (0 < least) × (least ≤ least64) }
    ensures { result ≡ signed_in least field.now }
{
    let [first, rest @ ..] = field else {
        return None;
    };
    if *first == b'-' {
        return negative(size_of(rest, least));
    }
    positive(size_of(field, least - 1))
}

// A field that is a number of 32 bits.
#[tactic(auto, unfolding(text_runs::specs::Decimal::number_in))]
pub fn number(field: &[u8]) -> Option<i64>
    ensures { result ≡ number_in field.now }
{
    signed(field, 2147483648)
}

// A field that is a number of 64 bits.
#[tactic(auto, unfolding(text_runs::specs::Decimal::total_in))]
pub fn total(field: &[u8]) -> Option<i64>
    ensures { result ≡ total_in field.now }
{
    signed(field, 9223372036854775808)
}

// The numbers of a line that is no longer than twice the room for them.
pub fn numbers(line: &[u8], out: &mut [i32]) -> Option<usize>
    requires { length line.now ≤ 2 * length out.old }
    ensures out_after { shown_as result out.new ≡ numbers_in line.now }
    ensures count_within { count_within (length out.old) result }
{
    let mut n = 0;
    let mut at = 0;
    while at <= line.len() {
        let end = search::end_of(line, at, b',');
        let Some(x) = number(&line[at..end]) else {
            return None;
        };
        out[n] = x as i32;
        n += 1;
        at = end + 1;
    }
    Some(n)
}

// Whether a field is this count.
fn is_count(field: &[u8], count: usize) -> bool
    ensures { result ≡ is_count count (number_in field.now) }
{
    let Some(n) = number(field) else {
        return false;
    };
    match usize::try_from(n) {
        Ok(said) => said == count,
        Err(_) => false,
    }
}

// Two fields, this count and a total.
fn count_and_total(line: &[u8], count: usize) -> Option<i64>
    ensures { result ≡ count_and_total count (fields line.now) }
{
    let long = line.len();
    let end = search::end_of(line, 0, b',');
    if end == long {
        return None;
    }
    let from = end + 1;
    let stop = search::end_of(line, from, b',');
    if stop < long {
        return None;
    }
    if !is_count(&line[0..end], count) {
        return None;
    }
    total(&line[from..stop])
}

// The total of an end line behind so many lines between.
pub fn end_total(line: &[u8], count: usize) -> Option<i64>
    ensures { result ≡ end_total count line.now }
{
    count_and_total(line.strip_prefix(b"end,")?, count)
}
