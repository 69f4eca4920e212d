// Writes the text of a shape into a slice, and notes the first refusal that is known of it.
use super::numbers::{pick, plus};
use super::shape::{At, Change, Shape};
use limits::{
    CHANNEL_LIMIT, CLOCK_LIMIT, COMPARISON_LIMIT, EDGE_LIMIT, LARGEST_CONSTANT, LARGEST_NAME,
    LOCATION_LIMIT,
};
use reader_record::Sign;
use refusals::{File, Refusal};

// What is chosen.
const BLANKS: usize = 68;

const STRAYS: usize = 69;

const WIDTHS: usize = 72;

const PLACES: usize = 73;

const BYTES: usize = 74;

const MOST_BLANKS: usize = 3;

// How often something comes up: one time in so many.
const STRAY_ODDS: usize = 24;

const WIDE_ODDS: usize = 8;

// The letters of names like those that joining makes, and the numbers behind them.
const MADE_LETTERS: usize = 3;

const MADE_DIGITS: usize = 3;

// What the digits of the longest numeral count, and what the first of four does.
const UNITS: [usize; 8] = [10000000, 1000000, 100000, 10000, 1000, 100, 10, 1];

const THOUSAND: usize = 1000;

const TEN: usize = 10;

// How far a text is written, how many edges it has, and the first refusal that is known of it (SPECIFICATION 4.5).
#[derive(Clone, Copy)]
pub struct Pen {
    pub at: usize,
    pub edges: usize,
    pub known: Option<Refusal>,
}

// A text that is being written. Nothing is written past the end.
#[derive(Drop)]
struct Writer<'a> {
    buf: &'a mut [u8],
    shape: &'a Shape,
    pen: Pen,
}

fn even_or_odd(i: usize, even: u8, odd: u8) -> u8 {
    if i % 2 == 0 { even } else { odd }
}

impl Writer<'_> {
    // Notes a refusal, unless one is known before it (SPECIFICATION 4.6).
    fn note(&mut self, f: Refusal) {
        if self.pen.known.is_none() {
            self.pen.known = Some(f);
        }
    }

    fn misfit(&mut self) {
        self.note(Refusal::Misfit(File::Left, self.pen.at));
    }

    fn put(&mut self, x: u8) {
        if let Some(byte) = self.buf.get_mut(self.pen.at) {
            *byte = x;
            self.pen.at = plus(self.pen.at, 1);
        }
    }

    // A byte n times.
    fn again(&mut self, x: u8, n: usize) {
        for _ in 0..n {
            self.put(x);
        }
    }

    fn blanks(&mut self, least: usize) {
        let place = self.pen.at;
        let n = pick(self.shape.gap, BLANKS, place, 0, MOST_BLANKS);
        self.again(self.shape.white(place), plus(least, n));
    }

    // Between two tokens: a byte that starts none, or the place where the text is cut off, if that is the change.
    fn stray(&mut self) {
        let place = self.pen.at;
        let is_due = pick(self.shape.gap, STRAYS, place, 0, STRAY_ODDS) == 0;
        if self.pen.known.is_some() || !is_due {
            return;
        }
        match self.shape.change {
            Change::StrayByte => {
                self.misfit();
                self.put(b'@');
            }
            Change::CutOff => self.misfit(),
            _ => {}
        }
    }

    // Between tokens, or a byte of one.
    fn piece(&mut self, x: u8) {
        match x {
            b' ' => {
                self.stray();
                self.blanks(1);
            }
            b'~' => {
                self.stray();
                self.blanks(0);
            }
            _ => self.put(x),
        }
    }

    // Words and marks: a space stands for one white byte or more, `~` for any number.
    fn words(&mut self, w: &[u8]) {
        for x in w {
            self.piece(*x);
        }
    }

    // A name: a letter n times, then a last byte. Names of one letter differ in their length or in that byte.
    fn name(&mut self, letter: u8, n: usize, last: u8) {
        if LARGEST_NAME <= n {
            self.note(Refusal::NameTooLong(File::Left, self.pen.at));
        }
        self.again(letter, n);
        self.put(last);
    }

    // A name like one that joining makes (SPECIFICATION 18.6): underscores, a letter, and a digit, which is one that no
    // other text has if the channel is renamed.
    fn made_like(&mut self, c: usize, is_renamed: bool) {
        let letter = match c % MADE_LETTERS {
            0 => b'l',
            1 => b'c',
            _ => b'p',
        };
        let n = if is_renamed {
            MADE_DIGITS
        } else {
            self.shape.made_digit(c, MADE_DIGITS)
        };
        self.again(b'_', c / MADE_LETTERS);
        self.put(letter);
        self.put((n % TEN) as u8 + b'0');
    }

    fn channel(&mut self, c: usize) {
        let change = if self.shape.is_about(c) {
            self.shape.change
        } else {
            Change::None
        };
        let is_long = change == Change::LongChannel;
        if self.shape.is_made_like && !is_long {
            self.made_like(c, change == Change::Renamed);
            return;
        }
        let last = if change == Change::Renamed {
            b'c'
        } else {
            even_or_odd(c, b'a', b'b')
        };
        self.name(b'a', self.shape.letters(is_long, c), last);
    }

    fn clock(&mut self, k: usize) {
        let letter = self.shape.letter(0, b'x', b'_');
        let is_long = self.shape.change == Change::LongClock && k == 0;
        let n = self.shape.letters(is_long, k);
        self.name(letter, n, even_or_odd(k, b'X', b'9'));
    }

    // One location may have the name of the first.
    fn location(&mut self, l: usize) {
        let letter = self.shape.letter(1, b'L', b's');
        let change = self.shape.change_there(l);
        if change == Change::SameName {
            self.name(letter, self.shape.letters(false, 0), b'0');
            return;
        }
        let n = self.shape.letters(change == Change::LongLocation, l);
        self.name(letter, n, even_or_odd(l, b'0', b'Z'));
    }

    // A numeral without leading zeros, or of four digits and more.
    fn numeral(&mut self, n: usize) {
        let place = self.pen.at;
        let is_wide = pick(self.shape.gap, WIDTHS, place, 0, WIDE_ODDS) == 0;
        let least = if is_wide { THOUSAND } else { 1 };
        for unit in UNITS {
            if unit <= n || unit <= least {
                let digit = n.checked_div(unit).unwrap_or(0) % TEN;
                self.put(digit as u8 + b'0');
            }
        }
    }

    // A constant of n ticks, in milliseconds. Whether it is too large is a matter of its ticks.
    fn constant(&mut self, n: usize) {
        if LARGEST_CONSTANT < n {
            self.note(Refusal::ConstantTooLarge(File::Left, self.pen.at));
        }
        self.numeral(self.shape.milliseconds(self.pen.at, n));
    }

    fn either(&mut self, is_first: bool, v: &[u8], w: &[u8]) {
        if is_first {
            self.words(v);
        } else {
            self.words(w);
        }
    }

    // What stands before item i of a list, which begins where this ends; an item over the limit is noted.
    fn before(&mut self, i: usize, limit: usize, first: &[u8], between: &[u8]) {
        self.either(i == 0, first, between);
        if i == limit {
            self.note(Refusal::TooManyItems(File::Left, self.pen.at));
        }
    }

    // The end of a list that is written from a place on, if it has items.
    fn after(&mut self, from: usize, w: &[u8]) {
        if self.pen.at != from {
            self.words(w);
        }
    }

    // A sign with what stands before and after it. One that an invariant may not have is noted (SPECIFICATION 3.2).
    fn sign(&mut self, at: At, sign: Sign) {
        self.words(b"~");
        if at.is_invariant() && !matches!(sign, Sign::AtMost | Sign::Less) {
            self.misfit();
        }
        match sign {
            Sign::AtMost => self.words(b"<=~"),
            Sign::AtLeast => self.words(b">=~"),
            Sign::Equal => self.words(b"==~"),
            Sign::Less => self.words(b"<~"),
            Sign::Greater => self.words(b">~"),
        }
    }

    // The comparison that is added to an edge's guard.
    fn added_comparison(&mut self, at: At) {
        self.clock(self.shape.own_clock(at));
        self.sign(at, self.shape.added_sign(at));
        self.constant(self.shape.added_bound(at));
    }

    // Comparison i of a group's edge or an invariant. A bound that an invariant may not have, in ticks, is noted.
    fn own_comparison(&mut self, at: At, i: usize) {
        let sign = self.shape.sign_at(at, i);
        let n = self.shape.written_bound(at, i);
        self.clock(self.shape.clock_at(at, i));
        self.sign(at, sign);
        if at.is_invariant() && sign == Sign::Less && n == 0 {
            self.misfit();
        }
        self.constant(n);
    }

    // The comparisons of a guard or an invariant.
    fn comparisons(&mut self, at: At, first: &[u8], last: &[u8]) {
        let from = self.pen.at;
        for i in 0..self.shape.comparison_count(at) {
            self.before(i, COMPARISON_LIMIT, first, b"~&&~");
            if self.shape.is_added(at, i) {
                self.added_comparison(at);
            } else {
                self.own_comparison(self.shape.original(at), i);
            }
        }
        self.after(from, last);
    }

    // An assignment of n ticks; the list of assignments begins at `from`.
    fn assignment(&mut self, k: usize, n: usize, from: usize) {
        self.either(self.pen.at == from, b"assign ", b"~,~");
        self.clock(k);
        self.words(b"~=~");
        self.constant(n);
    }

    // The assignments that later ones override, by clock, and then those that count.
    fn assignments(&mut self, at: At) {
        let from = self.pen.at;
        for k in 0..CLOCK_LIMIT {
            if self.shape.is_assigned(at, k) {
                if let Some(n) = self.shape.overridden_value(at, k) {
                    self.assignment(k, n, from);
                }
            }
        }
        for k in 0..CLOCK_LIMIT {
            if self.shape.is_assigned(at, k) {
                self.assignment(k, self.shape.value_of(at, k), from);
            }
        }
        self.after(from, b"~;~");
    }

    fn sync(&mut self, at: At) {
        self.words(b"sync ");
        self.channel(at.channel);
        self.either(self.shape.is_input(at), b"~?~;~", b"~!~;~");
    }

    fn target(&mut self, t: usize) {
        self.words(b"~->~");
        if t == self.shape.locations() {
            self.note(Refusal::UnknownName(File::Left, self.pen.at));
        }
        self.location(t);
        self.words(b"~{~");
    }

    fn edge(&mut self, at: At) {
        self.before(self.pen.edges, EDGE_LIMIT, b"trans ", b"~,~");
        self.location(at.location);
        self.target(self.shape.target_of(at));
        self.comparisons(at, b"guard ", b"~;~");
        self.sync(at);
        self.assignments(at);
        self.put(b'}');
        self.pen.edges = plus(self.pen.edges, 1);
    }

    // The edges of a location and a channel.
    fn group(&mut self, location: usize, channel: usize) {
        let group = At {
            location,
            channel,
            edge: 0,
        };
        for edge in 0..self.shape.written_edges(group) {
            let at = At {
                location,
                channel,
                edge,
            };
            self.edge(self.shape.edge_at(at));
        }
    }

    fn edges(&mut self) {
        let from = self.pen.at;
        for l in 0..self.shape.locations() {
            for c in 0..self.shape.channels() {
                self.group(l, c);
            }
        }
        self.after(from, b"~;~");
    }

    fn locations(&mut self) {
        let from = self.pen.at;
        for l in 0..self.shape.locations() {
            self.before(l, LOCATION_LIMIT, b"state ", b"~,~");
            if self.shape.change_there(l) == Change::SameName && 0 < l {
                self.note(Refusal::DeclaredBefore(File::Left, self.pen.at));
            }
            self.location(l);
            self.comparisons(At::invariant(l), b"~{~", b"~}");
        }
        self.after(from, b"~;~");
    }

    fn clocks(&mut self) {
        let from = self.pen.at;
        for k in 0..self.shape.clocks() {
            self.before(k, CLOCK_LIMIT, b"clock ", b"~,~");
            self.clock(k);
        }
        self.after(from, b"~;~");
    }

    fn channels(&mut self) {
        let from = self.pen.at;
        for i in 0..self.shape.channels() {
            self.before(i, CHANNEL_LIMIT, b"broadcast chan ", b"~,~");
            self.channel(self.shape.declared(i));
        }
        self.after(from, b"~;~");
    }

    fn start(&mut self) {
        self.words(b"init ");
        self.location(self.shape.start());
        self.words(b"~;~");
    }

    // The end; a text that is cut off ends before it.
    fn end(&mut self) {
        self.words(b"}~system P~;");
        self.blanks(0);
        if self.shape.change == Change::CutOff {
            if let Some(Refusal::Misfit(_, place)) = self.pen.known {
                self.pen.at = place;
            }
        }
    }

    fn all(&mut self) {
        self.channels();
        self.words(b"process P~(~)~{~");
        self.clocks();
        self.locations();
        self.start();
        self.edges();
        self.end();
    }
}

// Writes the text of a shape; it ends where the pen is.
pub fn text(buf: &mut [u8], shape: &Shape) -> Pen {
    let pen = Pen {
        at: 0,
        edges: 0,
        known: None,
    };
    let mut writer = Writer { buf, shape, pen };
    writer.all();
    writer.pen
}

// A byte of tokens, or one that starts none, in the place of one of the first n bytes.
pub fn damage(buf: &mut [u8], n: usize, seed: u32) {
    let tokens = b" ;,{}axL09=<>&?!_@(-";
    let token = tokens.get(pick(seed, BYTES, 0, 0, tokens.len()));
    let place = buf.get_mut(pick(seed, PLACES, 0, 0, n));
    if let (Some(place), Some(token)) = (place, token) {
        *place = *token;
    }
}
