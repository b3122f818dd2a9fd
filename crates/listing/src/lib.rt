// The lister's text: a box's parameters and live count, the steps of its plan, and what the plan comes to. Besides what both
// programs print of an input that is turned away.
#![tactic(auto)]

mod lines;
pub mod text;

ghost use Rattle.std.specs.Prelude.{◌≡◌, ◌≢◌, false, Ok, ◌+◌, ◌≤◌, IfOk, IfErr, length, drop, replicate};
ghost use mathlib.Core.List.{[], ◌++◌, flat_map};
ghost use Rattle.repair.specs.Answers.{started_as};
ghost use Rattle.repair.specs.Session.{unsound};
ghost use Rattle.repair.specs.Boxed.{checked_box};
ghost use Rattle.repair.specs.Repairs.{plan_in, repairs_of};
ghost use Rattle.listing.specs.Inner.{Put};
ghost use Rattle.listing.specs.Text.{step_line, last_line, too_long_line};
ghost use Rattle.listing.specs.Listing.{said_in, answer_of, listing_in, listing_of};

use crate::lines::{put_first_line, put_last_line, put_refusal_line, put_step_lines};
use crate::text::put;
use repair::Session;

// The most bytes that an input may have, and a box that is written.
pub const MOST_BYTES: usize = 65536;

// Room for one byte more than the longest box, by which a longer input is known.
pub fn input_room() -> [u8; 65537]
    ensures value { result ≡ replicate 65537 0 }
    ensures value_2 { 65537 ≡ length result }
{
    [0u8; 65537]
}

// `too long`, at the front of `out`; gives its length.
pub fn put_too_long(out: &mut [u8]) -> usize
    requires { 9 ≤ length out.old }
    ensures value { result ≡ 9 }
    ensures out_after { out.new ≡ too_long_line ++ drop 9 out.old }
{
    put(b"too long\n", out, 0)
}

// The session of an accepted input. Of any other, what is printed is at the front of `out`, and its length is given.
pub fn session_in(input: &[u8], out: &mut [u8]) -> Result<Session, usize>
    requires { 29 ≤ length out.old }
    ensures value { (said_in result ≡ length (answer_of input.now [])) × (said_in result ≤ 29) }
    ensures session { IfOk result (λ s. started_as (Ok s) ≡ checked_box input.now) }
    ensures turned_away { IfErr result (λ said. said ≢ 0) }
    ensures out_after { out.new ≡ answer_of input.now [] ++ drop (length (answer_of input.now [])) out.old }
{
    if MOST_BYTES < input.len() {
        return Err(put_too_long(out));
    }
    match Session::check(input) {
        Ok(session) => Ok(session),
        Err(refusal) => Err(put_refusal_line(usize::from(u8::from(refusal)), out)),
    }
}

// The plan of an accepted box's session, a line for each step and the last line, from place `at` on; gives the place after it.
// There is room for 255 steps, 16 bytes each, and 81 bytes more.
fn put_plan(session: Session, out: &mut [u8], at: usize) -> usize
    requires session_value { unsound session ≡ false }
    requires at_in_bounds { at + 4161 ≤ length out.old }
    ensures { Put out.old at (flat_map step_line (plan_in session) ++ last_line (repairs_of session session).steps (repairs_of session session).rounds (repairs_of session session).left) out.new result }
{
    let mut steps = repair::plan_room();
    let made = session.plan(&mut steps);
    let totals = made.result.unwrap();
    let last = put_step_lines(&steps[..4 * totals.steps], out, at);
    put_last_line(totals.steps, totals.rounds, totals.left, out, last)
}

// The listing of an accepted box's session, at the front of `out`; gives its length.
fn put_listing(session: Session, out: &mut [u8]) -> usize
    requires session_value { unsound session ≡ false }
    requires in_bounds { 8192 ≤ length out.old }
    ensures { Put out.old 0 (listing_in session) out.new result }
{
    let code = session.code().unwrap();
    let live = session.live;
    let count = lists::count_live(&live, code.node_count());
    let next = put_first_line(session.family, session.k, session.len, count, out);
    put_plan(session, out, next)
}

// What the lister prints of its input, at the front of `out`; gives its length. `out` beyond it is not written.
pub fn list(input: &[u8], out: &mut [u8; 8192]) -> usize
    ensures value { (result ≡ length (listing_of input.now)) × (result ≤ 8192) }
    ensures out_after { out.new ≡ listing_of input.now ++ drop (length (listing_of input.now)) out.old }
{
    match session_in(input, out) {
        Ok(session) => put_listing(session, out),
        Err(said) => said,
    }
}
