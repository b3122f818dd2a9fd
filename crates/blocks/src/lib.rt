// Blocks: copied, and the XOR of two blocks of a nodes buffer put in the place of a third.
#![tactic(auto)]

ghost use Rattle.std.specs.Prelude.{◌≡◌, ◌⊎◌, ◌+◌, ◌-◌, ◌*◌, ◌≤◌, length};
ghost use borrow.Rule.Slice.PartMut.{mid_of, put_mid};
ghost use Rattle.blocks.specs.Blocks.{xor_bytes, block_of, with_block};
ghost use Rattle.blocks.specs.Inner.{InBuffer, BlocksIn};

// N bytes of dst from a place on become those of src from the same place on, by value: for a constant N the compiler makes loads and
// stores of this, with no call and no test of whether the two overlap.
fn copy_piece_at<const N: usize>(dst: &mut [u8], src: &[u8], at: usize)
    requires { (at + N ≤ length dst.old) × (at + N ≤ length src.now) }
    ensures { dst.new ≡ put_mid at N dst.old (mid_of at N src.now) }
{
    let mut piece = [0u8; N];
    piece.copy_from_slice(&src[at..at + N]);
    dst[at..at + N].copy_from_slice(&piece);
}

// dst, of N bytes or more, becomes src, of the same length, by pieces of N bytes. The last piece ends with the last byte and may
// overlap the one before it.
fn copy_by_pieces<const N: usize>(dst: &mut [u8], src: &[u8])
    requires { (1 ≤ N) × (N ≤ length dst.old) × (length src.now ≡ length dst.old) }
    ensures { dst.new ≡ src.now }
{
    for piece in 0..src.len() / N {
        copy_piece_at::<N>(dst, src, piece * N);
    }
    copy_piece_at::<N>(dst, src, src.len() - N);
}

// 64 bytes of dst from a place on become those of src, by four pieces. A piece is one register, stored before the next is loaded:
// of 64 bytes by value the compiler stores the last ones first, which is slower where dst is not aligned.
fn copy_chunk_at(dst: &mut [u8], src: &[u8], at: usize)
    requires { (at + 64 ≤ length dst.old) × (at + 64 ≤ length src.now) }
    ensures { dst.new ≡ put_mid at 64 dst.old (mid_of at 64 src.now) }
{
    copy_piece_at::<16>(dst, src, at);
    copy_piece_at::<16>(dst, src, at + 16);
    copy_piece_at::<16>(dst, src, at + 32);
    copy_piece_at::<16>(dst, src, at + 48);
}

// dst, 64 bytes or more, becomes src, of the same length, by chunks. The last chunk ends with the last byte and may overlap
// the one before it, so that no tail is left to copy byte by byte.
fn copy_by_chunks(dst: &mut [u8], src: &[u8])
    requires { (64 ≤ length dst.old) × (length src.now ≡ length dst.old) }
    ensures { dst.new ≡ src.now }
{
    for chunk in 0..src.len() / 64 {
        copy_chunk_at(dst, src, 64 * chunk);
    }
    let done = 64 * (src.len() / 64);
    if done == src.len() {
        return;
    }
    copy_chunk_at(dst, src, src.len() - 64);
}

// dst becomes src, of the same length. By pieces and chunks of constant sizes, as `copy_from_slice` is a call of the C library's
// memmove where the size is no constant, and a caller's program need not have that.
pub fn copy_block(dst: &mut [u8], src: &[u8])
    requires { length src.now ≡ length dst.old }
    ensures { dst.new ≡ src.now }
{
    if 64 <= src.len() {
        copy_by_chunks(dst, src);
        return;
    }
    match src.len() {
        0 => {}
        1..4 => copy_by_pieces::<1>(dst, src),
        4..16 => copy_by_pieces::<4>(dst, src),
        _ => copy_by_pieces::<16>(dst, src),
    }
}

// `count` blocks of the target from block b on become those of the source from block a on. They lie side by side in both, so
// that one copy takes them all.
pub fn copy_blocks(len: usize, count: usize, source: &[u8], a: usize, target: &mut [u8], b: usize)
    requires { BlocksIn len count source.now a × BlocksIn len count target.old b }
    ensures { target.new ≡ put_mid ((b - 1) * len) (count * len) target.old (mid_of ((a - 1) * len) (count * len) source.now) }
{
    let size = count * len;
    let from = (a - 1) * len;
    let to = (b - 1) * len;
    copy_block(&mut target[to..to + size], &source[from..from + size]);
}

// Block b of the target becomes block a of the source.
pub fn copy_between(len: usize, source: &[u8], a: usize, target: &mut [u8], b: usize)
    requires { InBuffer len source.now a × InBuffer len target.old b }
    ensures { target.new ≡ with_block len target.old b (block_of len source.now a) }
{
    copy_blocks(len, 1, source, a, target, b);
}

// The XOR of two parts of 64 bytes, by value: it stays in registers on its way to its place.
fn xor_chunk(a: &[u8], b: &[u8]) -> [u8; 64]
    requires { (length a.now ≡ 64) × (length b.now ≡ 64) }
    ensures { result ≡ xor_bytes a.now b.now }
{
    let mut chunk = [0u8; 64];
    for i in 0..64 {
        chunk[i] = a[i] ^ b[i];
    }
    chunk
}

// 64 bytes from place d on become the XOR of those from a on and those from b on.
fn xor_chunk_at(nodes: &mut [u8], d: usize, a: usize, b: usize)
    requires { (d + 64 ≤ length nodes.old) × (a + 64 ≤ length nodes.old) × (b + 64 ≤ length nodes.old) }
    ensures { nodes.new ≡ put_mid d 64 nodes.old (xor_bytes (mid_of a 64 nodes.old) (mid_of b 64 nodes.old)) }
{
    let chunk = xor_chunk(&nodes[a..a + 64], &nodes[b..b + 64]);
    nodes[d..d + 64].copy_from_slice(&chunk);
}

// len bytes, 64 or more, from place d on become the XOR of those from a on and those from b on, by chunks. The last chunk
// ends with the last byte and may overlap the one before it, so that no tail is left to do byte by byte: with one, lengths such as 100
// and 255 take a third more time, or half more.
fn xor_by_chunks(nodes: &mut [u8], len: usize, d: usize, a: usize, b: usize)
    requires le_len { 64 ≤ len }
    requires len_in_bounds { (d + len ≤ length nodes.old) × (a + len ≤ length nodes.old) × (b + len ≤ length nodes.old) }
    requires fact { ((a + len ≤ d) ⊎ (d + len ≤ a)) × ((b + len ≤ d) ⊎ (d + len ≤ b)) }
    ensures { nodes.new ≡ put_mid d len nodes.old (xor_bytes (mid_of a len nodes.old) (mid_of b len nodes.old)) }
{
    for chunk in 0..len / 64 {
        let done = 64 * chunk;
        xor_chunk_at(nodes, d + done, a + done, b + done);
    }
    if len % 64 != 0 {
        let at = len - 64;
        xor_chunk_at(nodes, d + at, a + at, b + at);
    }
}

// The same for any len, byte by byte.
fn xor_by_bytes(nodes: &mut [u8], len: usize, d: usize, a: usize, b: usize)
    requires len_in_bounds { (d + len ≤ length nodes.old) × (a + len ≤ length nodes.old) × (b + len ≤ length nodes.old) }
    requires fact { ((a + len ≤ d) ⊎ (d + len ≤ a)) × ((b + len ≤ d) ⊎ (d + len ≤ b)) }
    ensures { nodes.new ≡ put_mid d len nodes.old (xor_bytes (mid_of a len nodes.old) (mid_of b len nodes.old)) }
{
    for i in 0..len {
        nodes[d + i] = nodes[a + i] ^ nodes[b + i];
    }
}

// Node j's block becomes the XOR of the blocks of nodes a and b, two other nodes.
pub fn xor_block(nodes: &mut [u8], len: usize, j: usize, a: usize, b: usize)
    requires in_buffer { InBuffer len nodes.old j × InBuffer len nodes.old a × InBuffer len nodes.old b }
    requires fact { (j ≡ a → ⊥) × (j ≡ b → ⊥) }
    ensures { nodes.new ≡ with_block len nodes.old j (xor_bytes (block_of len nodes.old a) (block_of len nodes.old b)) }
{
    let d = (j - 1) * len;
    let p = (a - 1) * len;
    let q = (b - 1) * len;
    if len < 64 {
        xor_by_bytes(nodes, len, d, p, q);
    } else {
        xor_by_chunks(nodes, len, d, p, q);
    }
}
