// Words and numbers, put one after the other into a buffer from place `at` on; each function gives the place after them.
ghost use Rattle.std.specs.Prelude.{◌++◌, ◌+◌, ◌≤◌, length};
ghost use Rattle.listing.specs.Inner.{Put};
ghost use Rattle.listing.specs.Text.{ascii, decimal, field};

// A word.
pub fn put(word: &[u8], out: &mut [u8], at: usize) -> usize
    requires { at + length word.now ≤ length out.old }
    ensures { Put out.old at word.now out.new result }
{
    let end = at + word.len();
    blocks::copy_block(&mut out[at..end], word);
    end
}

// A number in base ten. `as`: there is no `From` of `usize` for `u64`.
fn put_number(n: usize, out: &mut [u8], at: usize) -> usize
    requires { at + length (decimal n) ≤ length out.old }
    ensures { Put out.old at (decimal n) out.new result }
{
    let mut digits = [0u8; 20];
    let count = io::decimal(n as u64, &mut digits);
    put(&digits[..count], out, at)
}

// A word and a number after it.
pub fn put_field(word: &[u8], n: usize, out: &mut [u8], at: usize) -> usize
    requires { at + length (field word.now n) ≤ length out.old }
    ensures { Put out.old at (field word.now n) out.new result }
{
    let number = put(word, out, at);
    put_number(n, out, number)
}

// Two words, each with its number. One function with `put_last_fields` would take the line's end as one more word, which is empty here.
pub fn put_fields(
    first: &[u8],
    a: usize,
    second: &[u8],
    b: usize,
    out: &mut [u8],
    at: usize,
) -> usize
    requires { at + length (field first.now a ++ field second.now b) ≤ length out.old }
    ensures { Put out.old at (field first.now a ++ field second.now b) out.new result }
{
    let next = put_field(first, a, out, at);
    put_field(second, b, out, next)
}

// A word with its number, and the line's end.
pub fn put_last_field(word: &[u8], n: usize, out: &mut [u8], at: usize) -> usize
    requires { at + length (field word.now n ++ ascii "\n") ≤ length out.old }
    ensures { Put out.old at (field word.now n ++ ascii "\n") out.new result }
{
    let next = put_field(word, n, out, at);
    put(b"\n", out, next)
}

// Two words, each with its number, and the line's end.
pub fn put_last_fields(
    first: &[u8],
    a: usize,
    second: &[u8],
    b: usize,
    out: &mut [u8],
    at: usize,
) -> usize
    requires { at + length (field first.now a ++ (field second.now b ++ ascii "\n")) ≤ length out.old }
    ensures { Put out.old at (field first.now a ++ (field second.now b ++ ascii "\n")) out.new result }
{
    let next = put_field(first, a, out, at);
    put_last_field(second, b, out, next)
}
