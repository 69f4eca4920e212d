// Finds the token at or after a byte place of a contract text (SPECIFICATION 2.4), and what a numeral comes to.
#![tactic(auto)]

ghost use Rattle.std.specs.Prelude.{◌≡◌, true, ◌+◌, ◌-◌, ◌*◌, ◌≤◌, ◌<◌, length, get_or, drop};
ghost use mathlib.Core.List.{map, flatten};
ghost use Rattle.reader_tokens.specs.Scan.{is_space, is_letter, is_digit, is_part, past, with_digit};
ghost use Rattle.reader_tokens.specs.Scan.{numeral_value, over_numeral, clamped, agree, same};
ghost use Rattle.reader_tokens.specs.Tokens.{is_in, words, word_kind, is_single, is_pair, mark_kind};
ghost use Rattle.reader_tokens.specs.Tokens.{mark_at, word_at, token_from, token_at};

use limits::LARGEST_NUMERAL;

// How many values a byte has.
const BYTE_VALUES: usize = 256;

// The kinds of token. A mark of one byte is its byte, one of two is BYTE_VALUES times the first and the second.
pub const END: usize = 0;

pub const STRAY: usize = 1;

pub const NAME: usize = 2;

pub const NUMERAL: usize = 3;

pub const BROADCAST: usize = 4;

pub const CHAN: usize = 5;

pub const PROCESS: usize = 6;

pub const CLOCK: usize = 7;

pub const STATE: usize = 8;

pub const INIT: usize = 9;

pub const TRANS: usize = 10;

pub const SYSTEM: usize = 11;

pub const GUARD: usize = 12;

pub const SYNC: usize = 13;

pub const ASSIGN: usize = 14;

pub const COMMA: usize = b',' as usize;

pub const SEMICOLON: usize = b';' as usize;

pub const OPEN: usize = b'{' as usize;

pub const CLOSE: usize = b'}' as usize;

pub const LEFT: usize = b'(' as usize;

pub const RIGHT: usize = b')' as usize;

pub const INPUT: usize = b'?' as usize;

pub const OUTPUT: usize = b'!' as usize;

pub const BECOMES: usize = b'=' as usize;

pub const LESS: usize = b'<' as usize;

pub const GREATER: usize = b'>' as usize;

pub const ARROW: usize = BYTE_VALUES * b'-' as usize + b'>' as usize;

pub const AT_MOST: usize = BYTE_VALUES * b'<' as usize + b'=' as usize;

pub const AT_LEAST: usize = BYTE_VALUES * b'>' as usize + b'=' as usize;

pub const EQUAL: usize = BYTE_VALUES * b'=' as usize + b'=' as usize;

pub const BOTH: usize = BYTE_VALUES * b'&' as usize + b'&' as usize;

// The length of `chan`, `init` and `sync`.
const SHORTEST_WORD: usize = 4;

const DIGIT_ZERO: usize = b'0' as usize;

// What `number_at` answers for every number above the largest numeral.
pub const OVER_NUMERAL: usize = LARGEST_NUMERAL + 1;

// A token: its kind, the place of its first byte and the place after its last.
#[derive(Clone, Copy)]
pub struct Token {
    pub kind: usize,
    pub place: usize,
    pub end: usize,
}

// The classes of bytes that a run is made of: white space, what a name goes on with, digits.
#[derive(Clone, Copy)]
enum Class {
    Space,
    Part,
    Digit,
}

#[tactic(auto, unfolding(crate::specs::Scan::is_space))]
fn is_space(b: u8) -> bool
    ensures { result ≡ is_space b }
{
    b" \t\r\n".contains(&b)
}

#[tactic(auto, unfolding(crate::specs::Scan::is_letter))]
fn is_letter(b: u8) -> bool
    ensures { result ≡ is_letter b }
{
    matches!(b, b'_' | b'A'..=b'Z' | b'a'..=b'z')
}

#[tactic(auto, unfolding(crate::specs::Scan::is_digit))]
fn is_digit(b: u8) -> bool
    ensures { result ≡ is_digit b }
{
    matches!(b, b'0'..=b'9')
}

#[tactic(auto, unfolding(crate::specs::Scan::is_part))]
fn is_part(b: u8) -> bool
    ensures { result ≡ is_part b }
{
    is_letter(b) || is_digit(b)
}

fn is_in(c: Class, b: u8) -> bool
    ensures { result ≡ is_in c b }
{
    match c {
        Class::Space => is_space(b),
        Class::Part => is_part(b),
        Class::Digit => is_digit(b),
    }
}

// The first place at or after `at` whose byte is not in the class c.
#[tactic(auto, using(crate::proofs::Scan::past_yes, crate::proofs::Scan::past_no, crate::proofs::Scan::past_end))]
fn run_end(s: &[u8], at: usize, c: Class) -> usize
    ensures { result ≡ past (is_in c) s.now at }
{
    for i in at..s.len() {
        if !is_in(c, s[i]) {
            return i;
        }
    }
    at.max(s.len())
}

// Whether the first n bytes from p on in s and from q on in t are there and equal.
fn agrees(s: &[u8], p: usize, t: &[u8], q: usize, n: usize) -> bool
    ensures { result ≡ agree n (drop p s.now) (drop q t.now) }
{
    let x = &s[p.min(s.len())..];
    let y = &t[q.min(t.len())..];
    if x.len() < n {
        return false;
    }
    if y.len() < n {
        return false;
    }
    for k in 0..n {
        if x[k] != y[k] {
            return false;
        }
    }
    true
}

// Whether the m bytes from p on in s are the n bytes from q on in t.
pub fn is_same(s: &[u8], p: usize, m: usize, t: &[u8], q: usize, n: usize) -> bool
    ensures { result ≡ same m (drop p s.now) n (drop q t.now) }
{
    if m != n {
        return false;
    }
    agrees(s, p, t, q, m)
}

// The kind of the n bytes from p on: of a word, or of a name. The words stand in one row; `lengths` says how long
// each is.
fn word_among(s: &[u8], p: usize, n: usize, row: &[u8], lengths: &[usize]) -> usize
    requires { (row.now ≡ flatten words) × (lengths.now ≡ map length words) }
    ensures { result ≡ word_kind n (drop p s.now) }
{
    let mut i = 0;
    let mut at = 0;
    while i < lengths.len() {
        let l = lengths[i];
        if is_same(s, p, n, row, at, l) {
            return BROADCAST + i;
        }
        at += l;
        i += 1;
    }
    NAME
}

// The same. Most names are shorter than every word.
fn word_kind(s: &[u8], p: usize, n: usize) -> usize
    ensures { result ≡ word_kind n (drop p s.now) }
{
    if n < SHORTEST_WORD {
        return NAME;
    }
    let row = b"broadcastchanprocessclockstateinittranssystemguardsyncassign";
    word_among(s, p, n, row, &[9, 4, 7, 5, 5, 4, 5, 6, 5, 4, 6])
}

// The marks of one byte.
#[tactic(auto, unfolding(crate::specs::Tokens::is_single))]
fn is_single(a: u8) -> bool
    ensures { result ≡ is_single a }
{
    b",;{}()?!=<>".contains(&a)
}

// The marks of two bytes.
fn is_pair(a: u8, b: u8) -> bool
    ensures { result ≡ is_pair a b }
{
    match a {
        b'-' => b == b'>',
        b'<' => b == b'=',
        b'>' => b == b'=',
        b'=' => b == b'=',
        b'&' => b == b'&',
        _ => false,
    }
}

fn wide(b: u8) -> usize
    ensures { result ≡ b }
{
    b as usize
}

// The kind of the mark that starts with the byte a, before the byte b: two bytes before one.
fn mark_kind(a: u8, b: u8) -> usize
    ensures { result ≡ mark_kind a b }
{
    if is_pair(a, b) {
        return BYTE_VALUES * wide(a) + wide(b);
    }
    if is_single(a) {
        return wide(a);
    }
    STRAY
}

// The byte at i, 0 past the end.
fn byte_at(s: &[u8], i: usize) -> u8
    ensures { result ≡ get_or s.now i 0 }
{
    if i < s.len() {
        return s[i];
    }
    0
}

fn mark_at(s: &[u8], p: usize) -> Token
    requires { p < length s.now }
    ensures { result ≡ mark_at s.now p }
{
    let a = byte_at(s, p);
    let b = byte_at(s, p + 1);
    let k = mark_kind(a, b);
    if k < BYTE_VALUES {
        return Token {
            kind: k,
            place: p,
            end: p + 1,
        };
    }
    Token {
        kind: k,
        place: p,
        end: p + 2,
    }
}

fn word_at(s: &[u8], p: usize) -> Token
    ensures { result ≡ word_at s.now p }
{
    let e = run_end(s, p, Class::Part);
    let k = word_kind(s, p, e - p);
    Token {
        kind: k,
        place: p,
        end: e,
    }
}

fn token_from(s: &[u8], p: usize) -> Token
    ensures { result ≡ token_from s.now p }
{
    if p < s.len() {
        let b = s[p];
        if is_letter(b) {
            return word_at(s, p);
        }
        if is_digit(b) {
            let e = run_end(s, p, Class::Digit);
            return Token {
                kind: NUMERAL,
                place: p,
                end: e,
            };
        }
        return mark_at(s, p);
    }
    Token {
        kind: END,
        place: p,
        end: p,
    }
}

// The token at or after `at`.
pub fn token_at(s: &[u8], at: usize) -> Token
    ensures { result ≡ token_at s.now at }
{
    let p = run_end(s, at, Class::Space);
    token_from(s, p)
}

// The number v with the digit b after it, OVER_NUMERAL for any above the largest numeral.
fn with_digit(v: usize, b: u8) -> usize
    requires { (v ≤ over_numeral) × (is_digit b ≡ true) }
    ensures { result ≡ clamped (with_digit v b) }
{
    let d = wide(b);
    let n = v * 10 + (d - DIGIT_ZERO);
    if n <= LARGEST_NUMERAL {
        return n;
    }
    OVER_NUMERAL
}

// The number that the digits from p on are, OVER_NUMERAL for any above the largest numeral.
#[tactic(auto, using(crate::proofs::Scan::value_yes, crate::proofs::Scan::value_no, crate::proofs::Scan::value_end, crate::proofs::Scan::clamped_value, crate::proofs::Scan::clamped_small))]
pub fn number_at(s: &[u8], p: usize) -> usize
    ensures { result ≡ clamped (numeral_value 0 (drop p s.now)) }
{
    let mut v: usize = 0;
    for i in p..s.len() {
        if !is_digit(s[i]) {
            return v;
        }
        v = with_digit(v, s[i]);
    }
    v
}
