// Whether given bytes are the joined text of two texts (SPECIFICATION 18.2 to 18.7), token by token from the two
// records. Each token is looked for with the one space behind it, so that nothing else can stand between two.
use super::counts::Both;
use super::names::{CLOCK, LOCATION, PROCESS, Rest, channel_name, made_name, numeral, underscores};
use enumerator::moves::channel_of;
use enumerator::numbers::{plus, times};
use enumerator::pairs::name_of;
use limits::CLOCK_LIMIT;
use reader_record::{Comparison, Constraint, Edge, Label, Sign};

// The joined text of two, with the bytes of the left one, and the underscores of the names that are made.
#[derive(Clone, Copy)]
struct Joined<'a> {
    both: &'a Both<'a>,
    left: &'a [u8],
    underscores: usize,
}

fn either<'a>(s: &'a [u8], is_first: bool, first: &[u8], other: &[u8]) -> Rest<'a> {
    if is_first {
        s.strip_prefix(first)
    } else {
        s.strip_prefix(other)
    }
}

fn sign(s: &[u8], sign: Sign) -> Rest<'_> {
    match sign {
        Sign::AtMost => s.strip_prefix(b"<= "),
        Sign::AtLeast => s.strip_prefix(b">= "),
        Sign::Equal => s.strip_prefix(b"== "),
        Sign::Less => s.strip_prefix(b"< "),
        Sign::Greater => s.strip_prefix(b"> "),
    }
}

fn mark(s: &[u8], label: Label) -> Rest<'_> {
    match label {
        Label::Input(_) => s.strip_prefix(b"? ; "),
        Label::Output(_) => s.strip_prefix(b"! ; "),
    }
}

// What an edge sets its text's clock k to, if it assigns it.
fn value_of(e: &Edge, k: usize) -> Option<usize> {
    match e.assignments.get(k) {
        Some(a) if a.made => Some(usize::from(a.value)),
        _ => None,
    }
}

impl Joined<'_> {
    fn clock<'a>(&self, s: &'a [u8], k: usize) -> Rest<'a> {
        made_name(s, self.underscores, CLOCK, k)
    }

    fn process<'a>(&self, s: &'a [u8]) -> Rest<'a> {
        made_name(s, self.underscores, PROCESS, 0)
    }

    // The name of a pair of locations.
    fn location<'a>(&self, s: &'a [u8], p: usize, q: usize) -> Rest<'a> {
        let number = plus(times(p, self.both.right.location_count), q);
        made_name(s, self.underscores, LOCATION, number)
    }

    // A comparison of a text whose clocks are numbered from `first` on.
    fn comparison<'a>(&self, s: &'a [u8], x: &Comparison, first: usize) -> Rest<'a> {
        let clock = self.clock(s, plus(usize::from(x.clock), first))?;
        numeral(sign(clock, x.sign)?, usize::from(x.bound))
    }

    // The comparisons of one text's constraint; they are the first ones of the two, or stand behind others.
    fn comparisons<'a>(
        &self,
        s: &'a [u8],
        g: &Constraint,
        first: usize,
        is_first: bool,
        opening: &[u8],
    ) -> Rest<'a> {
        let mut rest = s;
        for (k, x) in g.comparisons.iter().take(usize::from(g.count)).enumerate() {
            rest = either(rest, is_first && k == 0, opening, b"&& ")?;
            rest = self.comparison(rest, x, first)?;
        }
        Some(rest)
    }

    // The comparisons of the left, then those of the right; nothing where there are none.
    fn constraint<'a>(
        &self,
        s: &'a [u8],
        g: &Constraint,
        h: &Constraint,
        opening: &[u8],
        closing: &[u8],
    ) -> Rest<'a> {
        if g.count == 0 && h.count == 0 {
            return Some(s);
        }
        let left = self.comparisons(s, g, 0, true, opening)?;
        let clocks = self.both.left.clock_count;
        let right = self.comparisons(left, h, clocks, g.count == 0, opening)?;
        right.strip_prefix(closing)
    }

    // The pairs of locations, those of the first left one first.
    fn locations<'a>(&self, s: &'a [u8]) -> Rest<'a> {
        let l = self.both.left;
        let r = self.both.right;
        let mut rest = s;
        for (p, x) in l.locations.iter().take(l.location_count).enumerate() {
            for (q, y) in r.locations.iter().take(r.location_count).enumerate() {
                rest = either(rest, p == 0 && q == 0, b"state ", b", ")?;
                rest = self.location(rest, p, q)?;
                rest = self.constraint(rest, &x.invariant, &y.invariant, b"{ ", b"} ")?;
            }
        }
        rest.strip_prefix(b"; ")
    }

    // What a pair of edges sets clock k of the joined text to, if it assigns it.
    fn pair_value(&self, e: &Edge, f: &Edge, k: usize) -> Option<usize> {
        match k.checked_sub(self.both.left.clock_count) {
            None => value_of(e, k),
            Some(own) if own < self.both.right.clock_count => value_of(f, own),
            Some(_) => None,
        }
    }

    fn assignment<'a>(&self, s: &'a [u8], k: usize, value: usize) -> Rest<'a> {
        numeral(self.clock(s, k)?.strip_prefix(b"= ")?, value)
    }

    fn assignments<'a>(&self, s: &'a [u8], e: &Edge, f: &Edge) -> Rest<'a> {
        let mut rest = s;
        let mut is_first = true;
        for k in 0..CLOCK_LIMIT {
            if let Some(value) = self.pair_value(e, f, k) {
                rest = either(rest, is_first, b"assign ", b", ")?;
                rest = self.assignment(rest, k, value)?;
                is_first = false;
            }
        }
        if is_first {
            return Some(s);
        }
        rest.strip_prefix(b"; ")
    }

    // What stands between the braces of an edge.
    fn label<'a>(&self, s: &'a [u8], e: &Edge, f: &Edge) -> Rest<'a> {
        let guard = self.constraint(s, &e.guard, &f.guard, b"guard ", b"; ")?;
        let sync = guard.strip_prefix(b"sync ")?;
        let name = name_of(self.both.left, channel_of(e))?;
        let channel = channel_name(sync, self.left, name)?;
        self.assignments(mark(channel, e.label)?, e, f)
    }

    // The edge of a matching pair, whose channel has a name of the left text.
    fn edge<'a>(&self, s: &'a [u8], e: &Edge, f: &Edge) -> Rest<'a> {
        let source = self.location(s, usize::from(e.source), usize::from(f.source))?;
        let arrow = source.strip_prefix(b"-> ")?;
        let target = self.location(arrow, usize::from(e.target), usize::from(f.target))?;
        let label = self.label(target.strip_prefix(b"{ ")?, e, f)?;
        label.strip_prefix(b"} ")
    }

    // The matching pairs, by left edge and then by right edge.
    fn edges<'a>(&self, s: &'a [u8]) -> Rest<'a> {
        let l = self.both.left;
        let r = self.both.right;
        let mut rest = s;
        let mut is_first = true;
        for e in l.edges.iter().take(l.edge_count) {
            for f in r.edges.iter().take(r.edge_count) {
                if self.both.is_match(e, f) {
                    rest = self.edge(either(rest, is_first, b"trans ", b", ")?, e, f)?;
                    is_first = false;
                }
            }
        }
        if is_first {
            return Some(s);
        }
        rest.strip_prefix(b"; ")
    }

    // The left's channels in the left's order.
    fn channels<'a>(&self, s: &'a [u8]) -> Rest<'a> {
        let l = self.both.left;
        let mut rest = s;
        for (i, c) in l.channels.iter().take(l.channel_count).enumerate() {
            rest = either(rest, i == 0, b"broadcast chan ", b", ")?;
            rest = channel_name(rest, self.left, c.name)?;
        }
        if l.channel_count == 0 {
            return Some(s);
        }
        rest.strip_prefix(b"; ")
    }

    fn clocks<'a>(&self, s: &'a [u8]) -> Rest<'a> {
        let n = self.both.clocks();
        let mut rest = s;
        for k in 0..n {
            rest = self.clock(either(rest, k == 0, b"clock ", b", ")?, k)?;
        }
        if n == 0 {
            return Some(s);
        }
        rest.strip_prefix(b"; ")
    }

    // All before the start.
    fn declarations<'a>(&self, s: &'a [u8]) -> Rest<'a> {
        let process = self.channels(s)?.strip_prefix(b"process ")?;
        let brace = self.process(process)?.strip_prefix(b"( ) { ")?;
        self.locations(self.clocks(brace)?)
    }

    fn start<'a>(&self, s: &'a [u8]) -> Rest<'a> {
        let init = s.strip_prefix(b"init ")?;
        let start = self.location(init, self.both.left.init, self.both.right.init)?;
        start.strip_prefix(b"; ")
    }

    fn text<'a>(&self, s: &'a [u8]) -> Rest<'a> {
        let moved = self.edges(self.start(self.declarations(s)?)?)?;
        let system = moved.strip_prefix(b"} system ")?;
        self.process(system)?.strip_prefix(b";\n")
    }
}

// Whether the bytes are the joined text, whole: it ends where they end.
pub fn is_joined(s: &[u8], left: &[u8], both: &Both) -> bool {
    let underscores = underscores(left, both.left, both.clocks(), both.locations());
    let joined = Joined {
        both,
        left,
        underscores,
    };
    match joined.text(s) {
        Some(rest) => rest.is_empty(),
        None => false,
    }
}
