// The lines of the two programs.
ghost use Rattle.std.specs.Prelude.{◌≡◌, ◌+◌, ◌*◌, ◌/◌, ◌≤◌, length, drop};
ghost use mathlib.Core.List.{◌++◌, flat_map};
ghost use Rattle.planning.specs.Made.{steps_in};
ghost use Rattle.listing.specs.Inner.{Put};
ghost use Rattle.listing.specs.Text.{first_line, step_line, last_line, refusal_line};

use crate::text::{put_field, put_fields, put_last_field, put_last_fields};

// `family 1 k 3 length 1 live 3`, at the front of `out`. The family is a number, as it is printed.
pub fn put_first_line(family: usize, k: usize, len: usize, live: usize, out: &mut [u8]) -> usize
    requires { length (first_line family k len live) ≤ length out.old }
    ensures { Put out.old 0 (first_line family k len live) out.new result }
{
    let next = put_fields(b"family ", family, b" k ", k, out, 0);
    put_last_fields(b" length ", len, b" live ", live, out, next)
}

// `1 1 4 5`: a step's four bytes, from place `at` on.
fn put_step_line(round: u8, node: u8, smaller: u8, larger: u8, out: &mut [u8], at: usize) -> usize
    requires { at + length (step_line (record { round = round; node = node; smaller = smaller; larger = larger })) ≤ length out.old }
    ensures { Put out.old at (step_line (record { round = round; node = node; smaller = smaller; larger = larger })) out.new result }
{
    let next = put_fields(b"", usize::from(round), b" ", usize::from(node), out, at);
    put_last_fields(
        b" ",
        usize::from(smaller),
        b" ",
        usize::from(larger),
        out,
        next,
    )
}

// A line for each step in a list of bytes, four bytes a step.
pub fn put_step_lines(steps: &[u8], out: &mut [u8], at: usize) -> usize
    requires { at + 16 * (length steps.now / 4) ≤ length out.old }
    ensures put { Put out.old at (flat_map step_line (steps_in steps.now (length steps.now / 4))) out.new result }
    ensures upper_bound { result ≤ at + 16 * (length steps.now / 4) }
{
    let mut next = at;
    for i in 0..steps.len() / 4 {
        let byte = 4 * i;
        next = put_step_line(
            steps[byte],
            steps[byte + 1],
            steps[byte + 2],
            steps[byte + 3],
            out,
            next,
        );
    }
    next
}

// `steps 4 rounds 4 left 0`, from place `at` on.
pub fn put_last_line(steps: usize, rounds: usize, left: usize, out: &mut [u8], at: usize) -> usize
    requires { at + length (last_line steps rounds left) ≤ length out.old }
    ensures { Put out.old at (last_line steps rounds left) out.new result }
{
    let next = put_field(b"steps ", steps, out, at);
    put_last_fields(b" rounds ", rounds, b" left ", left, out, next)
}

// `refused 7`, at the front of `out`.
pub fn put_refusal_line(number: usize, out: &mut [u8]) -> usize
    requires { 29 ≤ length out.old }
    ensures value { (result ≡ length (refusal_line number)) × (result ≤ 29) }
    ensures out_after { out.new ≡ refusal_line number ++ drop (length (refusal_line number)) out.old }
{
    put_last_field(b"refused ", number, out, 0)
}
