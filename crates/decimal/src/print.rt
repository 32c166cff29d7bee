// Text gathered at the start of a buffer: each function puts its bytes behind the `at` bytes that are there, and answers how many there
// are then.
ghost use Rattle.std.specs.Prelude.{◌≡◌, [], ◌∷◌, ◌++◌, ◌+◌, ◌*◌, ◌≤◌, length, drop};
ghost use Rattle.text_runs.specs.Decimal.{decimal, printed};
ghost use Rattle.text_runs.specs.Lines.{comma, line_feed, row, end_line, refusal};
ghost use Rattle.decimal.specs.Own.Put.{Put};

pub fn bytes(out: &mut [u8], at: usize, text: &[u8]) -> usize
    requires { at + length text.now ≤ length out.old }
    ensures { Put at out.old text.now result out.new }
{
    let end = at + text.len();
    out[at..end].copy_from_slice(text);
    end
}

// The digits of n in the last places of a work array; answers where they begin.
fn digits(n: u64, work: &mut [u8]) -> usize
    requires { length work.old ≡ 20 }
    ensures { (result ≤ 20) × (drop result work.new ≡ decimal n) }
{
    let mut i = 20;
    let mut rest = n;
    while 9 < rest {
        i -= 1;
        work[i] = 48 + (rest % 10) as u8;
        rest /= 10;
    }
    i -= 1;
    work[i] = 48 + rest as u8;
    i
}

pub fn natural(out: &mut [u8], at: usize, n: u64) -> usize
    requires { at + length (decimal n) ≤ length out.old }
    ensures { Put at out.old (decimal n) result out.new }
{
    let mut work = [0u8; 20];
    let from = digits(n, &mut work);
    bytes(out, at, &work[from..])
}

// The last number of a line, with the line's end.
pub fn last_natural(out: &mut [u8], at: usize, n: u64) -> usize
    requires { at + length (decimal n) + 1 ≤ length out.old }
    ensures { Put at out.old (decimal n ++ line_feed ∷ []) result out.new }
{
    let m = natural(out, at, n);
    bytes(out, m, b"\n")
}

// A number of 64 bits.
fn signed(out: &mut [u8], at: usize, x: i64) -> usize
    requires { at + length (printed x) ≤ length out.old }
    ensures { Put at out.old (printed x) result out.new }
{
    if x < 0 {
        let n = bytes(out, at, b"-");
        return natural(out, n, x.unsigned_abs());
    }
    natural(out, at, x.unsigned_abs())
}

pub fn number(out: &mut [u8], at: usize, x: i32) -> usize
    requires { at + 11 ≤ length out.old }
    ensures { Put at out.old (printed x) result out.new × (result ≤ at + 11) }
{
    signed(out, at, i64::from(x))
}

// A number behind a comma.
fn next_number(out: &mut [u8], at: usize, x: i32) -> usize
    requires { at + 12 ≤ length out.old }
    ensures { Put at out.old (comma ∷ printed x) result out.new × (result ≤ at + 12) }
{
    let n = bytes(out, at, b",");
    number(out, n, x)
}

// Numbers parted by commas.
pub fn numbers(out: &mut [u8], at: usize, x: &[i32]) -> usize
    requires { at + 12 * length x.now ≤ length out.old }
    ensures { Put at out.old (row x.now) result out.new × (result ≤ at + 12 * length x.now) }
{
    let [first, rest @ ..] = x else {
        return at;
    };
    let mut n = number(out, at, *first);
    for y in rest {
        n = next_number(out, n, *y);
    }
    n
}

// The end line, with its total.
pub fn end_line(out: &mut [u8], at: usize, count: usize, total: i64) -> usize
    requires { at + 45 ≤ length out.old }
    ensures { Put at out.old (end_line count total) result out.new × (result ≤ at + 45) }
{
    let tag = bytes(out, at, b"end,");
    let m = natural(out, tag, count as u64);
    let n = bytes(out, m, b",");
    signed(out, n, total)
}

// The digits of n behind a comma.
fn next_natural(out: &mut [u8], at: usize, n: u64) -> usize
    requires { at + 21 ≤ length out.old }
    ensures { Put at out.old (comma ∷ decimal n) result out.new × (result ≤ at + 21) }
{
    let m = bytes(out, at, b",");
    natural(out, m, n)
}

pub fn refusal(out: &mut [u8], at: usize, number: usize, line: usize, place: usize) -> usize
    requires { at + 70 ≤ length out.old }
    ensures { Put at out.old (refusal number line place) result out.new × (result ≤ at + 70) }
{
    let a = bytes(out, at, b"refused,");
    let b = natural(out, a, number as u64);
    let c = next_natural(out, b, line as u64);
    next_natural(out, c, place as u64)
}
