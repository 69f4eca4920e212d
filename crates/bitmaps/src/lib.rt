// Bitmaps: bytes whose bits, the high bit of byte 0 first, are the entries of a table of Booleans.
#![tactic(auto)]

ghost use Rattle.std.specs.Prelude.{◌≡◌, true, false, ℕ, ◌+◌, ◌-◌, ◌/◌, ◌%◌, ◌^◌, ◌≤◌, ◌<◌, length, get_or, set};
ghost use Rattle.bitmaps.specs.Bits.{bit_at, num, written};
ghost use Rattle.bitmaps.specs.Packed.{bytes_for, Count};
ghost use Rattle.bitmaps.specs.Put.{put_bit};
ghost use Rattle.limits.specs.Limits.{pair_limit};

// The bytes that n bits take.
pub fn bytes_for(n: usize) -> usize
    requires { n ≤ pair_limit }
    ensures { result ≡ bytes_for n }
{
    (n + 7) / 8
}

// Bit i of a bitmap, the high bit of byte 0 first.
#[tactic(auto, unfolding(crate::specs::Bits::bit_at))]
pub fn get(s: &[u8], i: usize) -> bool
    requires { i / 8 < length s.now }
    ensures { result ≡ bit_at s.now i }
{
    let b = s[i / 8];
    let k = 7 - i % 8;
    (b >> k) % 2 == 1
}

// Takes away bit i, which is set.
pub fn clear(s: &mut [u8], i: usize)
    requires { (i / 8 < length s.old) × (bit_at s.old i ≡ true) }
    ensures { s.new ≡ set s.old (i / 8) (get_or s.old (i / 8) 0 - 2 ^ (7 - i % 8)) }
{
    let at = i / 8;
    let k = 7 - i % 8;
    s[at] -= 1u8 << k;
}

// Bit i as a number.
pub fn bit(s: &[u8], i: usize) -> usize
    requires { i / 8 < length s.now }
    ensures { result ≡ num (bit_at s.now i) }
{
    usize::from(get(s, i))
}

// How many of the first n bits are set.
pub fn count(s: &[u8], n: usize) -> usize
    requires { (n ≤ pair_limit) × (bytes_for n ≤ length s.now) }
    ensures { Count n s.now result }
{
    let mut r = 0;
    for i in 0..n {
        r += bit(s, i);
    }
    r
}

// The first m bytes of k, written into s. Kept as a loop: copy_from_slice calls memmove, and the archive for C needs
// memcpy and memset alone (library/megzhoi.h).
pub fn copy(s: &mut [u8], k: &[u8], m: usize)
    requires { (m ≤ length s.old) × (m ≤ length k.now) }
    ensures { s.new ≡ written (λ (i : ℕ). get_or k.now i 0) m s.old }
{
    for i in 0..m {
        s[i] = k[i];
    }
}

// Sets bit i, which is not set, where b says so.
pub fn put(s: &mut [u8], i: usize, b: bool)
    requires { (i / 8 < length s.old) × (bit_at s.old i ≡ false) }
    ensures { s.new ≡ put_bit s.old i b }
{
    if b {
        let at = i / 8;
        let k = 7 - i % 8;
        s[at] += 1u8 << k;
    }
}

// The first m bytes, set to b.
#[tactic(auto, using(crate::specs::BitLaws::written_all))]
pub fn fill(s: &mut [u8], m: usize, b: u8)
    requires { m ≤ length s.old }
    ensures { s.new ≡ written (λ (i : ℕ). b) m s.old }
{
    s[..m].fill(b);
}
