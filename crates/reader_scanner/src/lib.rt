// A text and the place that the reader has come to in it, for tokens in their order (SPECIFICATION 4.6). Each function
// is thin; the work is `reader_tokens::token_at`, and callers use `scan`.
#![tactic(auto)]

ghost use Rattle.std.specs.Prelude.{◌≡◌};
ghost use Rattle.reader_tokens.specs.Tokens.{token_at};

use reader_tokens::Token;

// The text, and the byte place come to.
#[derive(Clone, Copy)]
pub struct Scanner<'a> {
    pub text: &'a [u8],
    pub place: usize,
}

pub fn new<'a>(text: &'a [u8], place: usize) -> Scanner<'a>
    ensures { (result.text ≡ text.entry) × (result.place ≡ place) }
{
    Scanner { text, place }
}

// The token here: the one at or after the place.
pub fn token<'a>(s: Scanner<'a>) -> Token
    ensures { result ≡ token_at s.entry.text.now s.entry.place }
{
    reader_tokens::token_at(s.text, s.place)
}

// Moved past a token that was read here.
pub fn moved<'a>(s: Scanner<'a>, t: Token) -> Scanner<'a>
    ensures { (result.text ≡ s.entry.text) × (result.place ≡ t.end) }
{
    Scanner {
        text: s.text,
        place: t.end,
    }
}

pub fn place<'a>(s: Scanner<'a>) -> usize
    ensures { result ≡ s.entry.place }
{
    s.place
}

// The token at or after a place of a text; its end is where the scanner stands after it.
pub fn scan(text: &[u8], at: usize) -> Token
    ensures { result ≡ token_at text.now at }
{
    let s = new(text, at);
    let t = token(s);
    let end = place(moved(s, t));
    Token {
        kind: t.kind,
        place: t.place,
        end,
    }
}
