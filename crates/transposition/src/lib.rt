// Matrices of bytes, row by row in a buffer, transposed into another buffer: by tiles of 128 bytes, which stay in registers on
// their way, and byte by byte where no tile suits the matrix. No struct of the two buffers, `rows` and `columns`: the contract of
// `transpose` speaks of slices, and each tile reads one buffer and writes the other, so that it would be taken apart for each.
#![tactic(auto)]

ghost use Rattle.std.specs.Prelude.{◌≡◌, ◌+◌, ◌-◌, ◌*◌, ◌^◌, ◌≤◌, length};
ghost use Rattle.transposition.specs.Inner.{transposed, PiecesIn, Nears, Strided, Loaded, Stored, Turned, TileIn, Start, Suits, Spans};

// `count` bytes of src from a place on, `from_stride` apart, become those of dst from a place on, `to_stride` apart.
fn copy_strided(
    src: &[u8],
    from: usize,
    from_stride: usize,
    dst: &mut [u8],
    to: usize,
    to_stride: usize,
    count: usize,
)
    requires { PiecesIn count 1 from from_stride (length src.now) × PiecesIn count 1 to to_stride (length dst.old) }
    ensures { Strided src.now from from_stride dst.old dst.new to to_stride count }
{
    for i in 0..count {
        dst[to + i * to_stride] = src[from + i * from_stride];
    }
}

// The transpose byte by byte, a column of the matrix at a time: for many rows, so that the inner loop is the long one.
fn by_columns(src: &[u8], rows: usize, columns: usize, dst: &mut [u8])
    requires { (length src.now ≡ rows * columns) × (length dst.old ≡ rows * columns) }
    ensures { dst.new ≡ transposed rows columns src.now }
{
    for c in 0..columns {
        copy_strided(src, c, columns, dst, c * rows, 1, rows);
    }
}

// The transpose byte by byte, a row of the matrix at a time: for many columns. One function of this and `by_columns` would take six
// numbers, as each number that the copy is handed differs.
fn by_rows(src: &[u8], rows: usize, columns: usize, dst: &mut [u8])
    requires { (length src.now ≡ rows * columns) × (length dst.old ≡ rows * columns) }
    ensures { dst.new ≡ transposed rows columns src.now }
{
    for r in 0..rows {
        copy_strided(src, r * columns, 1, dst, r, rows, columns);
    }
}

// A tile's first half and second half, a byte of each by turns: the perfect shuffle, which transposes two rows of 64 bytes. The
// compiler makes it eight instructions, each of which interleaves halves of two registers.
fn shuffle(tile: [u8; 128]) -> [u8; 128]
    ensures { result ≡ transposed 2 64 tile }
{
    let mut shuffled = [0u8; 128];
    for i in 0..64 {
        shuffled[2 * i] = tile[i];
        shuffled[2 * i + 1] = tile[64 + i];
    }
    shuffled
}

// A tile of 2^LOG rows, transposed by LOG shuffles.
fn turn<const LOG: usize>(tile: [u8; 128]) -> [u8; 128]
    requires { LOG ≤ 7 }
    ensures { result ≡ transposed (2 ^ LOG) (2 ^ (7 - LOG)) tile }
{
    let mut turned = tile;
    for _ in 0..LOG {
        // by way of a name, as the check does not cover a call whose result goes into an array that holds its argument
        let shuffled = shuffle(turned);
        turned = shuffled;
    }
    turned
}

// A tile of `count` rows of `size` bytes, which are pieces of src, each `from_stride` after the one before.
fn load(src: &[u8], from: usize, from_stride: usize, count: usize, size: usize) -> [u8; 128]
    requires { (count * size ≡ 128) × PiecesIn count size from from_stride (length src.now) }
    ensures { Loaded src.now from from_stride count size result }
{
    let mut tile = [0u8; 128];
    for i in 0..count {
        let row = i * size;
        let piece = from + i * from_stride;
        tile[row..row + size].copy_from_slice(&src[piece..piece + size]);
    }
    tile
}

// The rows of a tile become pieces of dst, each `to_stride` after the one before.
fn store(dst: &mut [u8], to: usize, to_stride: usize, count: usize, size: usize, tile: [u8; 128])
    requires { (count * size ≡ 128) × PiecesIn count size to to_stride (length dst.old) }
    ensures { Stored tile dst.old dst.new to to_stride count size }
{
    for i in 0..count {
        let row = i * size;
        let piece = to + i * to_stride;
        dst[piece..piece + size].copy_from_slice(&tile[row..row + size]);
    }
}

// A tile of 2^LOG rows of 2^(7 − LOG) bytes. LOG is a constant, so that the compiler makes it straight code.
fn move_tile<const LOG: usize>(
    src: &[u8],
    from: usize,
    from_stride: usize,
    dst: &mut [u8],
    to: usize,
    to_stride: usize,
)
    requires { (LOG ≤ 7) × TileIn LOG from from_stride (length src.now) to to_stride (length dst.old) }
    ensures { Turned src.now from from_stride dst.old dst.new to to_stride LOG }
{
    let rows = base::power(LOG);
    let size = base::power(7 - LOG);
    let tile = load(src, from, from_stride, rows, size);
    let turned = turn::<LOG>(tile);
    store(dst, to, to_stride, size, rows, turned);
}

// 64 whole rows of a matrix of two columns lie side by side: one piece.
fn move_64_by_2(src: &[u8], from: usize, dst: &mut [u8], to: usize, to_stride: usize)
    requires { TileIn 6 from 2 (length src.now) to to_stride (length dst.old) }
    ensures { Turned src.now from 2 dst.old dst.new to to_stride 6 }
{
    let tile = load(src, from, 0, 1, 128);
    let turned = turn::<6>(tile);
    store(dst, to, to_stride, 2, 64, turned);
}

// 64 whole columns of a matrix of two rows come to lie side by side.
fn move_2_by_64(src: &[u8], from: usize, from_stride: usize, dst: &mut [u8], to: usize)
    requires { TileIn 1 from from_stride (length src.now) to 2 (length dst.old) }
    ensures { Turned src.now from from_stride dst.old dst.new to 2 1 }
{
    let tile = load(src, from, from_stride, 2, 64);
    let turned = turn::<1>(tile);
    store(dst, to, 0, 1, 128, turned);
}

// Where a tile that would begin at `at` begins, so that it ends by the end: the last one may overlap the one before it.
fn tile_start(at: usize, size: usize, end: usize) -> usize
    requires { size ≤ end }
    ensures { Start at size end result }
{
    at.min(end - size)
}

// 2^LOG rows of a matrix, from row r on, by tiles.
fn move_rows<const LOG: usize>(src: &[u8], rows: usize, columns: usize, dst: &mut [u8], r: usize)
    requires src_len { (length src.now ≡ rows * columns) × (length dst.old ≡ rows * columns) }
    requires suits { Suits rows columns LOG × (r + 2 ^ LOG ≤ rows) }
    ensures { Nears (transposed rows columns src.now) dst.old dst.new columns (2 ^ LOG) r rows }
{
    let size = base::power(7 - LOG);
    for t in 0..columns.div_ceil(size) {
        let c = tile_start(t * size, size, columns);
        move_tile::<LOG>(src, r * columns + c, columns, dst, r + c * rows, rows);
    }
}

// The transpose by tiles of 2^LOG rows. Out of line, so that the other ways are spared what the compiler works out beforehand for tiles.
#[inline(never)]
fn by_tiles<const LOG: usize>(src: &[u8], rows: usize, columns: usize, dst: &mut [u8])
    requires src_len { (length src.now ≡ rows * columns) × (length dst.old ≡ rows * columns) }
    requires suits { Suits rows columns LOG }
    ensures { dst.new ≡ transposed rows columns src.now }
{
    let size = base::power(LOG);
    for t in 0..rows.div_ceil(size) {
        let r = tile_start(t * size, size, rows);
        move_rows::<LOG>(src, rows, columns, dst, r);
    }
}

// The transpose of a matrix of two columns. A loop of its own spares it what the other tiles need.
fn of_two_columns(src: &[u8], rows: usize, dst: &mut [u8])
    requires { (64 ≤ rows) × (length src.now ≡ rows * 2) × (length dst.old ≡ rows * 2) }
    ensures { dst.new ≡ transposed rows 2 src.now }
{
    for t in 0..rows.div_ceil(64) {
        let r = tile_start(t * 64, 64, rows);
        move_64_by_2(src, r * 2, dst, r, rows);
    }
}

// The transpose of a matrix of two rows, with a loop of its own for the same reason.
fn of_two_rows(src: &[u8], columns: usize, dst: &mut [u8])
    requires { (64 ≤ columns) × (length src.now ≡ 2 * columns) × (length dst.old ≡ 2 * columns) }
    ensures { dst.new ≡ transposed 2 columns src.now }
{
    for t in 0..columns.div_ceil(64) {
        let c = tile_start(t * 64, 64, columns);
        move_2_by_64(src, c, columns, dst, c * 2);
    }
}

// How many of `few` a tile spans; it spans 128 bytes, so 64, 32 or 16 of `many`.
#[derive(Clone, Copy, Debug, PartialEq, Eq)]
enum Span {
    Two,
    Four,
    Eight,
}

// The widest span that fits. None where none does, or `few` is three: pieces of two bytes that lie apart take longer than single bytes.
fn tile_span(few: usize, many: usize) -> Option<Span>
    ensures { Spans few many result }
{
    if 8 <= few && 16 <= many {
        return Some(Span::Eight);
    }
    if 4 <= few && 32 <= many {
        return Some(Span::Four);
    }
    if few == 2 && 64 <= many {
        return Some(Span::Two);
    }
    None
}

// The transpose of a matrix with more rows than columns.
fn transpose_tall(src: &[u8], rows: usize, columns: usize, dst: &mut [u8])
    requires { (length src.now ≡ rows * columns) × (length dst.old ≡ rows * columns) }
    ensures { dst.new ≡ transposed rows columns src.now }
{
    match tile_span(columns, rows) {
        None => by_columns(src, rows, columns, dst),
        Some(Span::Two) => of_two_columns(src, rows, dst),
        Some(Span::Four) => by_tiles::<5>(src, rows, columns, dst),
        Some(Span::Eight) => by_tiles::<4>(src, rows, columns, dst),
    }
}

// The transpose of any other matrix. No one function of this and `transpose_tall`: each of their calls has another order of arguments,
// another constant or another function.
fn transpose_wide(src: &[u8], rows: usize, columns: usize, dst: &mut [u8])
    requires { (length src.now ≡ rows * columns) × (length dst.old ≡ rows * columns) }
    ensures { dst.new ≡ transposed rows columns src.now }
{
    match tile_span(rows, columns) {
        None => by_rows(src, rows, columns, dst),
        Some(Span::Two) => of_two_rows(src, columns, dst),
        Some(Span::Four) => by_tiles::<2>(src, rows, columns, dst),
        Some(Span::Eight) => by_tiles::<3>(src, rows, columns, dst),
    }
}

// dst becomes the transpose of src, `rows` rows of `columns` bytes.
pub fn transpose(src: &[u8], rows: usize, columns: usize, dst: &mut [u8])
    requires { (length src.now ≡ rows * columns) × (length dst.old ≡ rows * columns) }
    ensures { dst.new ≡ transposed rows columns src.now }
{
    if columns < rows {
        transpose_tall(src, rows, columns, dst);
    } else {
        transpose_wide(src, rows, columns, dst);
    }
}
