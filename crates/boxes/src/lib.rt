// Boxes of nodes: their checks, the body of a node, and bodies copied between a box and a nodes buffer.
#![tactic(auto)]

ghost use Rattle.std.specs.Prelude.{◌≡◌, ◌+◌, ◌*◌, ◌/◌, ◌%◌, ◌≤◌, ◌<◌, IfOk, length, drop};
ghost use mathlib.Core.List.{◌∷◌, ◌++◌, flat_map};
ghost use Rattle.families.specs.Families.{KInRange, family_of};
ghost use Rattle.checks.specs.Checks.{first_met};
ghost use Rattle.checks.specs.Refusals.{number_in, IsCodeOf};
ghost use Rattle.blocks.specs.Blocks.{block_of};
ghost use Rattle.lists.specs.Lists.{place_in};
ghost use Rattle.boxes.specs.Box.{family_in, k_in, block_length_in, held_count_in, zeros_in, names_in, bodies_in, node_count_in, box_length, page_checks, box_checks, body_checks, body_place, body_start, body_of};
ghost use Rattle.boxes.specs.Bodies.{box_of, with_bodies};
ghost use Rattle.boxes.specs.Inner.{ListIn, Stretch};

use checks::Refusal;
use families::Code;

// The fields of a box, public as docs/LAYERS.md has them. Each asks for 8 bytes by a clause, which is one comparison: a type of 8 bytes or
// more would have to be made by `check` and by every caller.

// The number of a box's family.
pub fn family(bytes: &[u8]) -> usize
    requires { 8 ≤ length bytes.now }
    ensures { result ≡ family_in bytes.now }
{
    usize::from(bytes[0])
}

// k of a box.
pub fn block_count(bytes: &[u8]) -> usize
    requires { 8 ≤ length bytes.now }
    ensures { result ≡ k_in bytes.now }
{
    usize::from(bytes[1])
}

// L of a box.
pub fn block_length(bytes: &[u8]) -> usize
    requires { 8 ≤ length bytes.now }
    ensures { result ≡ block_length_in bytes.now }
{
    usize::from(u16::from_le_bytes([bytes[2], bytes[3]]))
}

// E of a box, the number of nodes held.
pub fn held_count(bytes: &[u8]) -> usize
    requires { 8 ≤ length bytes.now }
    ensures { result ≡ held_count_in bytes.now }
{
    usize::from(bytes[4])
}

// The node numbers of a box.
pub fn names(bytes: &[u8]) -> &[u8]
    requires { (8 ≤ length bytes.now) × (8 + held_count_in bytes.now ≤ length bytes.now) }
    ensures { result.now ≡ names_in bytes.now }
{
    let count = held_count(bytes);
    &bytes[8..8 + count]
}

// The bodies of a box, one after the other.
pub fn bodies(bytes: &[u8]) -> &[u8]
    requires { (8 ≤ length bytes.now) × (8 + held_count_in bytes.now ≤ length bytes.now) }
    ensures { result.now ≡ bodies_in bytes.now }
{
    let count = held_count(bytes);
    &bytes[8 + count..]
}

// The code of a box.
pub fn code(bytes: &[u8]) -> Code
    requires in_bounds { 8 ≤ length bytes.now }
    requires kin_range { KInRange (family_of (family_in bytes.now)) (k_in bytes.now) }
    ensures { IsCodeOf (family_in bytes.now) (k_in bytes.now) result }
{
    Code {
        family: families::family_of(family(bytes)),
        k: block_count(bytes),
    }
}

// n of a box's family and k.
pub fn node_count(bytes: &[u8]) -> usize
    requires in_bounds { 8 ≤ length bytes.now }
    requires kin_range { KInRange (family_of (family_in bytes.now)) (k_in bytes.now) }
    ensures { result ≡ node_count_in bytes.now }
{
    code(bytes).node_count()
}

// Whether bytes 5 to 7 are zero.
fn zeros(bytes: &[u8]) -> bool
    requires { 8 ≤ length bytes.now }
    ensures { result ≡ zeros_in bytes.now }
{
    bytes[5] == 0 && bytes[6] == 0 && bytes[7] == 0
}

// The first check of the page of contents that is met, if one is, of a box of 8 bytes or more with this code.
fn check_page(bytes: &[u8], code: Code) -> Result<(), Refusal>
    requires in_bounds { 8 ≤ length bytes.now }
    requires code_value { IsCodeOf (family_in bytes.now) (k_in bytes.now) code }
    ensures { number_in result ≡ first_met (page_checks bytes.now) }
{
    let zero = zeros(bytes);
    let count = held_count(bytes);
    let len = block_length(bytes);
    let n = code.node_count();
    let full = 8 + count + count * len;
    if !zero {
        return Err(Refusal::NotZero);
    }
    if n < count {
        return Err(Refusal::HeldCount);
    }
    // the numbers and bodies are looked at only once the length is as E says
    if bytes.len() != full {
        return Err(Refusal::BoxLength);
    }
    lists::check(n, names(bytes))
}

// The code of a box, or the first check of the box that is met.
pub fn check(bytes: &[u8]) -> Result<Code, Refusal>
    ensures number { number_in result ≡ first_met (box_checks bytes.now) }
    ensures code { IfOk result (IsCodeOf (family_in bytes.now) (k_in bytes.now)) }
{
    if bytes.len() < 8 {
        return Err(Refusal::BoxLength);
    }
    let code = checks::parameters(family(bytes), block_count(bytes), block_length(bytes))?;
    check_page(bytes, code)?;
    Ok(code)
}

// The first check of the body of node j that is met, if one is.
pub fn check_body(bytes: &[u8], j: usize) -> Result<(), Refusal>
    ensures { number_in result ≡ first_met (body_checks bytes.now j) }
{
    let code = check(bytes)?;
    if base::is_outside(1, code.node_count(), j) {
        return Err(Refusal::UnknownNode);
    }
    if held_count(bytes) <= lists::place_in(names(bytes), j) {
        return Err(Refusal::NodeMissing);
    }
    Ok(())
}

// The place of node j's body among the bodies, from 0: that of its number among the node numbers, of which it is one.
fn body_place(names: &[u8], j: usize) -> usize
    requires { place_in names.now j < length names.now }
    ensures { result ≡ body_place names.now j }
{
    lists::place_in(names, j)
}

// Where the body of node j begins in the box.
pub fn body_start(bytes: &[u8], j: usize) -> usize
    requires { first_met (body_checks bytes.now j) ≡ 0 }
    ensures { result ≡ body_start bytes.now j }
{
    let len = block_length(bytes);
    8 + held_count(bytes) + body_place(names(bytes), j) * len
}

// The body of node j, as that part of the box; empty where `check_body` refuses it.
pub fn body(bytes: &[u8], j: usize) -> &[u8]
    ensures { result.now ≡ body_of bytes.now j }
{
    match check_body(bytes, j) {
        Ok(()) => {
            let len = block_length(bytes);
            let from = body_start(bytes, j);
            &bytes[from..from + len]
        }
        Err(_) => &bytes[0..0],
    }
}

// A count of numbers of a list, from place i on, that follow each other without a gap: one at least. It is the most there is, but
// no caller needs that.
fn stretch_length(list: &[u8], i: usize) -> usize
    requires { i < length list.now }
    ensures { Stretch list.now i result }
{
    for count in 1..list.len() - i {
        if usize::from(list[i + count]) != usize::from(list[i]) + count {
            return count;
        }
    }
    list.len() - i
}

// The bodies of a list of nodes become those nodes' blocks; the other places keep their bytes. Nodes whose numbers follow each
// other lie side by side in a box and in a nodes buffer: each stretch of them is one copy.
pub fn read_bodies(len: usize, nodes: &mut [u8], list: &[u8], bodies: &[u8])
    requires list_in { ListIn len nodes.old list.now }
    requires bodies_len { length bodies.now ≡ length list.now * len }
    ensures { nodes.new ≡ with_bodies len nodes.old list.now bodies.now }
{
    let mut i = 0;
    // each step is as long as its stretch, so this is no range to go over
    while i < list.len() {
        let stretch = stretch_length(list, i);
        blocks::copy_blocks(len, stretch, bodies, i + 1, nodes, usize::from(list[i]));
        i += stretch;
    }
}

// The first 8 bytes of a box. Family and k are numbers, here and in `write_box`, and no `Code`: the definition `box_of` is over any numbers.
// `as`: the clause bounds each number; `try_from` would add a case that has no answer.
fn write_header(family: usize, k: usize, len: usize, count: usize, out: &mut [u8])
    requires family_bound { (family < 256) × (k < 256) × (len < 65536) × (count < 256) }
    requires in_bounds { 8 ≤ length out.old }
    ensures { out.new ≡ family ∷ k ∷ len % 256 ∷ len / 256 ∷ count ∷ 0 ∷ 0 ∷ 0 ∷ drop 8 out.old }
{
    let [low, high] = (len as u16).to_le_bytes();
    out[0] = family as u8;
    out[1] = k as u8;
    out[2] = low;
    out[3] = high;
    out[4] = count as u8;
    out[5] = 0;
    out[6] = 0;
    out[7] = 0;
}

// The bodies of a list of nodes, in that order, fill `out`, a stretch of them at a time.
fn write_bodies(len: usize, list: &[u8], nodes: &[u8], out: &mut [u8])
    requires list_in { ListIn len nodes.now list.now }
    requires out_len { length out.old ≡ length list.now * len }
    ensures { out.new ≡ flat_map (block_of len nodes.now) list.now }
{
    let count = list.len();
    let mut i = 0;
    // each step is as long as its stretch, so this is no range to go over
    while i < count {
        let stretch = stretch_length(list, i);
        blocks::copy_blocks(len, stretch, nodes, usize::from(list[i]), out, i + 1);
        i += stretch;
    }
}

// The box of a list of nodes; `out` beyond it is not written.
pub fn write_box(family: usize, k: usize, len: usize, list: &[u8], nodes: &[u8], out: &mut [u8])
    requires family_bound { (family < 256) × (k < 256) × (len < 65536) × (length list.now < 256) }
    requires list_in { ListIn len nodes.now list.now }
    requires len_in_bounds { box_length (length list.now) len ≤ length out.old }
    ensures { out.new ≡ box_of family k len list.now nodes.now ++ drop (box_length (length list.now) len) out.old }
{
    let count = list.len();
    let start = 8 + count;
    let end = start + count * len;
    write_header(family, k, len, count, out);
    blocks::copy_block(&mut out[8..start], list);
    write_bodies(len, list, nodes, &mut out[start..end]);
}
