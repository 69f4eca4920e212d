// Rows of bits in bytes, the high bit first: the bits of a range are taken away, all of them or those that are not set
// in a range of another row, eight at a time.
#![tactic(auto)]

ghost use Rattle.std.specs.Prelude.{◌≡◌, false, [], ◌∷◌, ℕ, ◌+◌, ◌-◌, ◌*◌, ◌/◌, ◌%◌, ◌≤◌, ◌<◌, length, get_or};
ghost use Rattle.limits.specs.Limits.{state_limit, keep_limit};
ghost use Rattle.tables_ranges.specs.Cut.{Cut, from_bit, bit_in, Eight, FullFrom};

// The values of a byte.
const BYTE_VALUES: u16 = 256;

// The byte whose bits are all set.
const FULL_BYTE: u8 = 255;

// The eight bits from bit n on of two neighbouring bytes.
fn shifted(high: u8, low: u8, n: usize) -> u8
    requires { n < 8 }
    ensures { Eight (high ∷ low ∷ []) n result }
{
    let x = BYTE_VALUES * (high as u16) + (low as u16);
    ((x >> (8 - n)) % BYTE_VALUES) as u8
}

// Byte q of a row, 0 behind its end.
fn byte_at(source: &[u8], q: usize) -> u8
    ensures { result ≡ get_or source.now q 0 }
{
    if q < source.len() {
        return source[q];
    }
    0
}

// The eight bits of a row from bit v on; behind its end no bit is set.
fn eight_bits(source: &[u8], v: usize) -> u8
    requires { v / 8 < length source.now }
    ensures { Eight source.now v result }
{
    let q = v / 8;
    let low = byte_at(source, q + 1);
    shifted(source[q], low, v % 8)
}

// The byte whose bits from bit n on are set.
fn bits_from(n: usize) -> u8
    requires { n ≤ 8 }
    ensures { FullFrom n result }
{
    ((FULL_BYTE as u16) >> n) as u8
}

// Bits a to e, which lie in one byte of the row, each kept only if the byte y has it set. The mask has the bits of the
// byte that are not in the range.
fn cut_part(row: &mut [u8], a: usize, e: usize, y: u8)
    requires { (a < e) × ((e ≤ 8 * (a / 8) + 8) × (e ≤ 8 * length row.old)) }
    ensures { Cut a e (λ (i : ℕ). bit_in y (i % 8)) row.old row.new }
{
    let j = a / 8;
    let mask = (FULL_BYTE - bits_from(a % 8)) | bits_from(e - 8 * j);
    row[j] = row[j] & (y | mask);
}

// Bits a to e, which lie in one byte of the row, each kept only if its bit of the source, from bit v on, is set.
fn and_part(row: &mut [u8], source: &[u8], a: usize, e: usize, v: usize)
    requires { (a ≤ e) × ((e ≤ 8 * (a / 8) + 8) × ((e ≤ 8 * length row.old)
        × (v + (e - a) ≤ 8 * length source.now))) }
    ensures { Cut a e (from_bit source.now a v) row.old row.new }
{
    if a < e {
        let y = eight_bits(source, v) >> (a % 8);
        cut_part(row, a, e, y);
    }
}

// m whole bytes of the row, from byte j on, each cut by a byte of the source, from byte q on.
fn and_whole(row: &mut [u8], source: &[u8], j: usize, m: usize, q: usize)
    requires { (j + m ≤ keep_limit) × ((j + m ≤ length row.old) × ((q + m ≤ keep_limit)
        × (q + m ≤ length source.now))) }
    ensures { Cut (8 * j) (8 * j + 8 * m) (from_bit source.now (8 * j) (8 * q)) row.old
        row.new }
{
    for i in 0..m {
        row[j + i] = row[j + i] & source[q + i];
    }
}

// m whole bytes of the row, from byte j on, each cut by eight bits of the source, from bit v on, which is not the first
// of its byte: so the byte after the one that is met is needed each time.
fn and_shifted(row: &mut [u8], source: &[u8], j: usize, m: usize, v: usize)
    requires { (j + m ≤ keep_limit) × ((j + m ≤ length row.old) × ((v + 8 * m ≤ state_limit)
        × ((v + 8 * m ≤ 8 * length source.now) × (0 < v % 8)))) }
    ensures { Cut (8 * j) (8 * j + 8 * m) (from_bit source.now (8 * j) v) row.old
        row.new }
{
    let q = v / 8;
    let n = v % 8;
    for i in 0..m {
        let y = shifted(source[q + i], source[q + i + 1], n);
        row[j + i] = row[j + i] & y;
    }
}

// m whole bytes of the row, from byte j on, by the bits of the source, from bit v on.
fn and_bytes(row: &mut [u8], source: &[u8], j: usize, m: usize, v: usize)
    requires { (j + m ≤ keep_limit) × ((j + m ≤ length row.old) × ((v + 8 * m ≤ state_limit)
        × (v + 8 * m ≤ 8 * length source.now))) }
    ensures { Cut (8 * j) (8 * j + 8 * m) (from_bit source.now (8 * j) v) row.old
        row.new }
{
    if v % 8 == 0 {
        and_whole(row, source, j, m, v / 8);
        return;
    }
    and_shifted(row, source, j, m, v);
}

// Bits a to e of the row, each kept only if its bit of the source, from bit v on, is set: up to the first whole byte,
// the whole bytes, what is left.
pub fn and_range(row: &mut [u8], source: &[u8], a: usize, e: usize, v: usize)
    requires { (a ≤ e) × ((e ≤ state_limit) × ((e ≤ 8 * length row.old) × ((v + (e - a) ≤ state_limit)
        × (v + (e - a) ≤ 8 * length source.now)))) }
    ensures { Cut a e (from_bit source.now a v) row.old row.new }
{
    let j = (a + 7) / 8;
    let up = 8 * j;
    if e <= up {
        and_part(row, source, a, e, v);
        return;
    }
    and_part(row, source, a, up, v);
    let m = (e - up) / 8;
    let x = v + (up - a);
    and_bytes(row, source, j, m, x);
    let g = up + 8 * m;
    let z = v + (g - a);
    and_part(row, source, g, e, z);
}

// Takes away bits a to e, which lie in one byte of the row.
fn clear_part(row: &mut [u8], a: usize, e: usize)
    requires { (a ≤ e) × ((e ≤ 8 * (a / 8) + 8) × (e ≤ 8 * length row.old)) }
    ensures { Cut a e (λ (i : ℕ). false) row.old row.new }
{
    if a < e {
        cut_part(row, a, e, 0);
    }
}

// Takes away the bits of m whole bytes of the row, from byte j on.
fn clear_bytes(row: &mut [u8], j: usize, m: usize)
    requires { (j + m ≤ keep_limit) × (j + m ≤ length row.old) }
    ensures { Cut (8 * j) (8 * j + 8 * m) (λ (i : ℕ). false) row.old row.new }
{
    row[j..j + m].fill(0);
}

// Takes away bits a to e of the row.
pub fn clear_range(row: &mut [u8], a: usize, e: usize)
    requires { (a ≤ e) × ((e ≤ state_limit) × (e ≤ 8 * length row.old)) }
    ensures { Cut a e (λ (i : ℕ). false) row.old row.new }
{
    let j = (a + 7) / 8;
    let up = 8 * j;
    if e <= up {
        clear_part(row, a, e);
        return;
    }
    clear_part(row, a, up);
    let m = (e - up) / 8;
    clear_bytes(row, j, m);
    clear_part(row, up + 8 * m, e);
}
