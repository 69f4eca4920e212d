// What a text says: everything that is chosen of it, by its shape.
use super::lengths::ONE_MILLISECOND;
use super::numbers::{minus, pick, plus};
use limits::{
    CHANNEL_LIMIT, CLOCK_LIMIT, COMPARISON_LIMIT, LARGEST_CONSTANT, LARGEST_NAME, LOCATION_LIMIT,
    LONGEST_TICK,
};
use reader_record::Sign;

// What is changed in a text. Those before OtherOutput mostly keep a text accepted, and come up more often.
#[derive(Clone, Copy, PartialEq, Eq)]
pub enum Change {
    None,
    ShiftedBound,
    OtherTarget,
    OtherClocks,
    LongerStay,
    NoInvariant,
    OtherValues,
    OtherOutput,
    DroppedEdge,
    DoubledEdge,
    Overlap,
    Renamed,
    OtherMark,
    OneMark,
    LargeBound,
    TooLargeBound,
    LongChannel,
    LongClock,
    LongLocation,
    ManyChannels,
    ManyClocks,
    ManyLocations,
    LongInvariant,
    LongGuard,
    StrayByte,
    CutOff,
    SameName,
    OtherName,
    ZeroBound,
    OtherSign,
    LargeValue,
    TooLargeValue,
    // in viewpoints alone
    LargeConstants,
}

// The changes that a shape is chosen with, so many of which come up more often.
const CHANGES: [Change; 32] = [
    Change::None,
    Change::ShiftedBound,
    Change::OtherTarget,
    Change::OtherClocks,
    Change::LongerStay,
    Change::NoInvariant,
    Change::OtherValues,
    Change::OtherOutput,
    Change::DroppedEdge,
    Change::DoubledEdge,
    Change::Overlap,
    Change::Renamed,
    Change::OtherMark,
    Change::OneMark,
    Change::LargeBound,
    Change::TooLargeBound,
    Change::LongChannel,
    Change::LongClock,
    Change::LongLocation,
    Change::ManyChannels,
    Change::ManyClocks,
    Change::ManyLocations,
    Change::LongInvariant,
    Change::LongGuard,
    Change::StrayByte,
    Change::CutOff,
    Change::SameName,
    Change::OtherName,
    Change::ZeroBound,
    Change::OtherSign,
    Change::LargeValue,
    Change::TooLargeValue,
];

const OFTEN: usize = 7;

// The kinds of edges that are written again (SPECIFICATION 7.2).
#[derive(Clone, Copy, PartialEq, Eq)]
enum Kind {
    // the same edge
    Same,
    // one whose guard has a comparison more
    Narrower,
    // one that assigns a clock more or one less, where that clock has the value assigned
    OtherSet,
    // one that leads to another location, by a guard that never holds
    Elsewhere,
}

const KIND_LIST: [Kind; 4] = [Kind::Same, Kind::Narrower, Kind::OtherSet, Kind::Elsewhere];

// The signs of a comparison; a number from 1 on stands for one of them, 0 for none.
const SIGN_LIST: [Sign; 5] = [
    Sign::AtMost,
    Sign::AtLeast,
    Sign::Equal,
    Sign::Less,
    Sign::Greater,
];

// What a text is like: `size` rules how many channels it has, `counts` how many clocks and locations and how large its
// constants are, `seed` what it says, `gap` how it is spaced and named, in which order its channels are declared, and
// at which location and channel the change is; `period` is the tick length at which it is written, in range;
// `is_made_like` says that its channels are named like the names that joining makes.
#[derive(Clone, Copy)]
pub struct Shape {
    pub period: usize,
    pub size: u32,
    pub counts: u32,
    pub seed: u32,
    pub gap: u32,
    pub change: Change,
    pub is_made_like: bool,
}

// A location and a channel, by their numbers from 0, and an edge of their group, or the invariant of a location.
#[derive(Clone, Copy, PartialEq, Eq)]
pub struct At {
    pub location: usize,
    pub channel: usize,
    pub edge: usize,
}

// What is chosen. To the first ones the number of an edge in its group or of a comparison is added.
const TARGETS: usize = 8;

const SETS: usize = 16;

const WHOLE_SETS: usize = 24;

const CLOCKS: usize = 32;

const BOUNDS: usize = 40;

const SIGNS: usize = 48;

const STRICTS: usize = 56;

const COUNTS: usize = 64;

const GROUPS: usize = 65;

const WHITES: usize = 67;

const LETTERS: usize = 70;

const EXCESSES: usize = 71;

const CONSTANTS: usize = 75;

const CHANNELS: usize = 76;

const LOCATIONS: usize = 77;

const TURNS: usize = 78;

const CHANGE: usize = 79;

const ROUNDINGS: usize = 81;

// What is chosen of edges that are written again. To the last ones the number of such an edge is added.
const DOUBLING: usize = 83;

const DOUBLES: usize = 84;

const ORIGINALS: usize = 85;

const ORDERS: usize = 86;

const OPEN_DOUBLES: usize = 87;

const KINDS: usize = 88;

const ADDED_CLOCKS: usize = 96;

const ADDED_SIGNS: usize = 104;

const ADDED_BOUNDS: usize = 112;

// What is chosen of assignments. To all but the last one the numbers of an edge and of a clock are added.
const VALUES: usize = 120;

const LATE_VALUES: usize = 136;

const REPEATS: usize = 152;

const OVERRIDDEN: usize = 168;

const LATES: usize = 184;

const STARTS: usize = 66;

// Most texts have fewer channels of a direction, at most as many locations, and constants below this number.
const FEW: usize = 4;

// A clock with so many constants and another one have more states than there may be, in a few locations.
const MANY: usize = 200;

// How often something comes up: one time in so many, or some times in so many.
pub const EITHER: usize = 2;

const CHANGE_ODDS: usize = 32;

const WHITE_ODDS: usize = 6;

const INVARIANT_ODDS: usize = 10;

const GROUP_ODDS: usize = 8;

const OPEN_ODDS: usize = 24;

const SECOND_ODDS: usize = 4;

const LARGE_ODDS: usize = 16;

const SECOND_SIGN_ODDS: usize = 12;

const DOUBLE_ODDS: usize = 8;

const OPEN_DOUBLE_ODDS: usize = 12;

const VALUE_ODDS: usize = 16;

const REPEAT_ODDS: usize = 12;

const ROUNDING_ODDS: usize = 5;

const ENLARGING_ODDS: usize = 4;

const ENLARGING_CHANGES: usize = 4;

// How many signs are refused in an invariant (SPECIFICATION 3.2).
const REFUSED_SIGNS: usize = 3;

// Kept: the channel of an invariant, which has none, is a number, as choices mix it in.
const INVARIANT: usize = CHANNEL_LIMIT + 1;

// All three clocks, a bit each.
const EVERY_CLOCK: usize = 7;

// The first location and channel.
const FIRST: At = At {
    location: 0,
    channel: 0,
    edge: 0,
};

// The milliseconds of n ticks, by adding.
fn whole(period: usize, n: usize) -> usize {
    let mut sum = 0;
    for _ in 0..n {
        sum = plus(sum, period);
    }
    sum
}

// The sign of a number, if it stands for one.
fn sign_by(number: usize) -> Option<Sign> {
    SIGN_LIST.get(number.checked_sub(1)?).copied()
}

// Another location, if there is one; n of them are declared.
fn other_location(t: usize, n: usize) -> usize {
    if plus(t, 1) < n { plus(t, 1) } else { 0 }
}

// A set of one clock.
fn only(k: usize) -> usize {
    match k {
        0 => 1,
        1 => 2,
        _ => 4,
    }
}

impl At {
    // The invariant of a location.
    pub fn invariant(location: usize) -> At {
        At {
            location,
            channel: INVARIANT,
            edge: 0,
        }
    }

    pub fn is_invariant(&self) -> bool {
        self.channel == INVARIANT
    }

    // Another edge of the group.
    fn with_edge(&self, edge: usize) -> At {
        At {
            location: self.location,
            channel: self.channel,
            edge,
        }
    }

    // The number of an assignment: each edge has one for each clock.
    fn assignment(&self, k: usize) -> usize {
        plus(plus(plus(self.edge, self.edge), self.edge), k)
    }
}

impl Shape {
    // 0 or 1.
    pub fn excess(&self) -> usize {
        pick(self.gap, EXCESSES, 0, 0, EITHER)
    }

    // Whether the change is of a comparison in an invariant.
    fn changes_comparison(&self) -> bool {
        matches!(self.change, Change::ZeroBound | Change::OtherSign)
    }

    // The numbers of items. A change makes them as many as there may be, or one more (SPECIFICATION 4.3). A text whose change is
    // of a comparison has a clock.
    pub fn clocks(&self) -> usize {
        if self.change == Change::ManyClocks {
            return plus(CLOCK_LIMIT, self.excess());
        }
        let n = pick(self.counts, CLOCKS, 0, 0, CLOCK_LIMIT + 1);
        n.max(usize::from(self.changes_comparison()))
    }

    pub fn inputs(&self) -> usize {
        pick(self.size, CHANNELS, 0, 0, FEW)
    }

    pub fn channels(&self) -> usize {
        if self.change == Change::ManyChannels {
            return plus(CHANNEL_LIMIT, self.excess());
        }
        plus(self.inputs(), pick(self.size, CHANNELS, 1, 0, FEW))
    }

    pub fn locations(&self) -> usize {
        if self.change == Change::ManyLocations {
            return plus(LOCATION_LIMIT, self.excess());
        }
        plus(pick(self.counts, LOCATIONS, 0, 0, FEW), 1)
    }

    // Constants are below this number, which is small where there are many clocks, so that there are few states.
    fn constants(&self) -> usize {
        if self.change == Change::LargeConstants && self.clocks() <= 1 {
            return MANY;
        }
        if pick(self.counts, CONSTANTS, 0, 0, LARGE_ODDS) == 0 {
            return FEW;
        }
        match self.clocks() {
            0 | 1 => FEW + 1,
            2 => plus(pick(self.counts, CONSTANTS, 1, 0, EITHER), 1),
            _ => 1,
        }
    }

    // Whether the change is at a location, and at a channel.
    pub fn is_there(&self, l: usize) -> bool {
        pick(self.gap, LOCATIONS, 0, 0, self.locations()) == l
    }

    pub fn is_about(&self, c: usize) -> bool {
        pick(self.gap, CHANNELS, 0, 0, self.channels()) == c
    }

    // The change, if it is at a location, and at a channel of it.
    pub fn change_there(&self, l: usize) -> Change {
        if self.is_there(l) {
            self.change
        } else {
            Change::None
        }
    }

    fn change_at(&self, at: At) -> Change {
        if self.is_about(at.channel) {
            self.change_there(at.location)
        } else {
            Change::None
        }
    }

    // What a text says at a location and a channel.
    fn choice(&self, what: usize, at: At, n: usize) -> usize {
        pick(self.seed, what, at.location, at.channel, n)
    }

    // What a text says otherwise than one with the same seed.
    fn gap_choice(&self, what: usize, at: At, n: usize) -> usize {
        pick(self.gap, what, at.location, at.channel, n)
    }

    // Space, tab, CR or LF.
    pub fn white(&self, place: usize) -> u8 {
        match pick(self.gap, WHITES, place, 0, WHITE_ODDS) {
            0 => b'\t',
            1 => b'\r',
            2 => b'\n',
            _ => b' ',
        }
    }

    // The letters before the last byte of name n: few, or as many as there may be, or one more.
    pub fn letters(&self, is_long: bool, n: usize) -> usize {
        if is_long {
            plus(LARGEST_NAME - 1, self.excess())
        } else {
            plus(n / 2, 1)
        }
    }

    // One of two letters for names of a kind.
    pub fn letter(&self, kind: usize, even: u8, odd: u8) -> u8 {
        if pick(self.gap, LETTERS, kind, 0, EITHER) == 0 {
            even
        } else {
            odd
        }
    }

    // The digit of a channel that is named like one that joining makes, below n.
    pub fn made_digit(&self, c: usize, n: usize) -> usize {
        pick(self.size, LETTERS, c, 0, n)
    }

    // The least value that comes to n ticks: half a tick less, as an exact half goes upward (SPECIFICATION 4.7).
    fn least_value(&self, n: usize) -> usize {
        if n == 0 {
            return 0;
        }
        minus(whole(self.period, n), self.period / 2)
    }

    // The largest one: more by less than half a tick.
    fn largest_value(&self, n: usize) -> usize {
        plus(whole(self.period, n), minus(self.period, 1) / 2)
    }

    // A value that comes to n ticks: often one of these two, or the middle.
    pub fn milliseconds(&self, place: usize, n: usize) -> usize {
        let low = self.least_value(n);
        let high = self.largest_value(n);
        match pick(self.gap, ROUNDINGS, place, 0, ROUNDING_ODDS) {
            0 => low,
            1 => high,
            2 => whole(self.period, n),
            _ => {
                let values = plus(minus(high, low), 1);
                plus(low, pick(self.gap, ROUNDINGS, place, 1, values))
            }
        }
    }

    // How many comparisons an invariant has. The last one is changed, if that is the change.
    fn invariant_count(&self, l: usize) -> usize {
        if self.clocks() == 0 {
            return 0;
        }
        match self.change_there(l) {
            Change::NoInvariant => 0,
            Change::LongInvariant => plus(COMPARISON_LIMIT, self.excess()),
            Change::ZeroBound | Change::OtherSign => plus(self.excess(), 1),
            _ => match self.choice(COUNTS, At::invariant(l), INVARIANT_ODDS) {
                0..=2 => 1,
                3 => 2,
                _ => 0,
            },
        }
    }

    // The change, if it is of comparison i in the invariant of a location.
    fn change_of_comparison(&self, l: usize, i: usize) -> Change {
        if self.changes_comparison() && i == self.excess() {
            self.change_there(l)
        } else {
            Change::None
        }
    }

    // How many edges a location and a channel have but for the change: none, one, or two or three that split the values of
    // a clock.
    fn usual_size(&self, at: At) -> usize {
        let n = match self.choice(GROUPS, at, GROUP_ODDS) {
            0 | 1 => 0,
            2..=4 => 1,
            5 | 6 => 2,
            _ => 3,
        };
        if at.channel < self.inputs() && n == 0 || self.clocks() == 0 && 1 < n {
            return 1;
        }
        n
    }

    // The edges of a location and a channel are a group.
    fn group_size(&self, at: At) -> usize {
        let n = self.usual_size(at);
        if self.change_at(at) == Change::OtherOutput {
            return usize::from(n == 0);
        }
        n
    }

    // A sign or the strict one of its direction, for edge or comparison k.
    fn strict_or(&self, at: At, k: usize, strict: Sign, sign: Sign) -> Sign {
        if self.choice(plus(STRICTS, k), at, EITHER) == 0 {
            strict
        } else {
            sign
        }
    }

    // The sign of an edge of a group, if its guard has comparisons: the first edge of several is for the values up to a
    // bound, the last for those from a bound on, one between for a value. A single edge of an output may have any sign.
    fn sign_of(&self, at: At) -> Option<Sign> {
        let n = self.group_size(at);
        if n <= 1 {
            if at.channel < self.inputs() || self.clocks() == 0 {
                return None;
            }
            return sign_by(self.choice(SIGNS, at, SIGN_LIST.len() + 1));
        }
        if at.edge == 0 {
            return Some(self.strict_or(at, at.edge, Sign::Less, Sign::AtMost));
        }
        if plus(at.edge, 1) == n {
            return Some(self.strict_or(at, at.edge, Sign::Greater, Sign::AtLeast));
        }
        Some(Sign::Equal)
    }

    // How many comparisons stand in the guard of an edge of a group.
    fn guard_count(&self, at: At) -> usize {
        if self.sign_of(at).is_none() {
            return 0;
        }
        if self.change_at(at) == Change::LongGuard {
            return plus(COMPARISON_LIMIT, self.excess());
        }
        if self.choice(COUNTS, at, SECOND_ODDS) == 0 {
            2
        } else {
            1
        }
    }

    // How many edges stand beside those of a group, each like one of them. Half of the texts have some; a change brings some
    // to one place.
    fn extra_edges(&self, at: At) -> usize {
        let change = self.change_at(at);
        if change == Change::DroppedEdge || self.group_size(at) == 0 {
            return 0;
        }
        if change == Change::DoubledEdge {
            return plus(self.excess(), 1);
        }
        if pick(self.gap, DOUBLING, 0, 0, EITHER) != 0 {
            return 0;
        }
        match self.gap_choice(DOUBLES, at, DOUBLE_ODDS) {
            0 | 1 => 1,
            2 => 2,
            _ => 0,
        }
    }

    // Edges of a group are numbered from 0; those beside it follow. This is the one of the group that an edge is, or is like.
    pub fn original(&self, at: At) -> At {
        let n = self.group_size(at);
        if at.edge < n {
            return at;
        }
        at.with_edge(self.gap_choice(ORIGINALS, at, n))
    }

    // Whether the edges beside a group have no comparison that keeps them to what the group says: they mostly lead elsewhere.
    fn is_open(&self, at: At) -> bool {
        self.change_at(at) == Change::DoubledEdge
            || self.gap_choice(OPEN_DOUBLES, at, OPEN_DOUBLE_ODDS) == 0
    }

    // Whether a comparison can be added to the guard of an edge.
    fn has_room(&self, at: At) -> bool {
        self.clocks() != 0 && self.guard_count(self.original(at)) < COMPARISON_LIMIT
    }

    // The kind of an edge.
    fn kind_of(&self, at: At) -> Kind {
        let n = self.group_size(at);
        if at.edge < n || !self.is_open(at) && !self.has_room(at) {
            return Kind::Same;
        }
        let kind = self.gap_choice(plus(KINDS, minus(at.edge, n)), at, KIND_LIST.len());
        KIND_LIST.get(kind).copied().unwrap_or(Kind::Same)
    }

    // Whether a comparison is added to the guard of an edge.
    fn is_guarded_more(&self, at: At) -> bool {
        !at.is_invariant() && !self.is_open(at) && self.kind_of(at) != Kind::Same
    }

    // How many comparisons stand in the guard of an edge, or in the invariant of a location.
    pub fn comparison_count(&self, at: At) -> usize {
        if at.is_invariant() {
            return self.invariant_count(at.location);
        }
        let added = usize::from(self.is_guarded_more(at));
        plus(self.guard_count(self.original(at)), added)
    }

    // Whether comparison i is the one that is added.
    pub fn is_added(&self, at: At, i: usize) -> bool {
        self.is_guarded_more(at) && i == self.guard_count(self.original(at))
    }

    // A choice about an edge that is written again.
    fn own_choice(&self, what: usize, at: At, n: usize) -> usize {
        let own = minus(at.edge, self.group_size(at));
        self.gap_choice(plus(what, own), at, n)
    }

    // The clock of the comparison that is added; the one by which assignments differ.
    pub fn own_clock(&self, at: At) -> usize {
        self.own_choice(ADDED_CLOCKS, at, self.clocks())
    }

    // The sign of the comparison that is added: any, one that holds at the value assigned alone, or one that does not hold
    // at 0 either.
    pub fn added_sign(&self, at: At) -> Sign {
        match self.kind_of(at) {
            Kind::Narrower => {
                let sign = self.own_choice(ADDED_SIGNS, at, SIGN_LIST.len());
                sign_by(plus(sign, 1)).unwrap_or(Sign::Equal)
            }
            Kind::OtherSet => {
                let is_first = self.own_choice(ADDED_SIGNS, at, EITHER) == 0;
                if is_first && self.added_bound(at) == 0 {
                    Sign::AtMost
                } else {
                    Sign::Equal
                }
            }
            _ => Sign::Less,
        }
    }

    pub fn added_bound(&self, at: At) -> usize {
        match self.kind_of(at) {
            Kind::Narrower => self.own_choice(ADDED_BOUNDS, at, self.constants()),
            Kind::OtherSet => self.value_of(at, self.own_clock(at)),
            _ => 0,
        }
    }

    // A sign that is refused in an invariant.
    fn refused_sign(&self) -> Sign {
        match pick(self.gap, SIGNS, 0, 0, REFUSED_SIGNS) {
            0 => Sign::AtLeast,
            1 => Sign::Equal,
            _ => Sign::Greater,
        }
    }

    fn invariant_sign(&self, at: At, i: usize) -> Sign {
        match self.change_of_comparison(at.location, i) {
            Change::ZeroBound => Sign::Less,
            Change::OtherSign => self.refused_sign(),
            _ => self.strict_or(at, i, Sign::Less, Sign::AtMost),
        }
    }

    // The sign of comparison i in a guard, after the first. Those of an input's guard are always true; of the others some have
    // any sign.
    fn later_sign(&self, at: At, i: usize) -> Sign {
        if at.channel < self.inputs() {
            return Sign::AtLeast;
        }
        let number = self.choice(plus(SIGNS, i), at, SECOND_SIGN_ODDS);
        sign_by(number).unwrap_or(Sign::AtLeast)
    }

    // The sign of comparison i.
    pub fn sign_at(&self, at: At, i: usize) -> Sign {
        if at.is_invariant() {
            return self.invariant_sign(at, i);
        }
        if i == 0 {
            return self.sign_of(at).unwrap_or(Sign::Equal);
        }
        self.later_sign(at, i)
    }

    // The bound of comparison i, with a sign that is not strict. The other comparisons of an input's guard are always true. The
    // bound of edges that overlap is not 0, so that `>=` may be written as `>`.
    fn bound_at(&self, at: At, i: usize) -> usize {
        if 0 < i && at.channel < self.inputs() {
            return 0;
        }
        let b = self.choice(plus(BOUNDS, i), at, self.constants());
        if at.is_invariant() {
            let is_longer = self.change_there(at.location) == Change::LongerStay;
            return plus(b, usize::from(is_longer));
        }
        match self.change_at(at) {
            Change::ShiftedBound => plus(plus(b, at.edge), 1),
            Change::Overlap => plus(b, 1),
            Change::LargeBound => LARGEST_CONSTANT,
            Change::TooLargeBound => LARGEST_CONSTANT + 1,
            _ => plus(b, at.edge),
        }
    }

    // Whether a strict sign is only another way to write a comparison: in an invariant, and where several edges split the values
    // of a clock. Bounds at the limit stay.
    fn is_rewritten(&self, at: At, i: usize, n: usize) -> bool {
        n < LARGEST_CONSTANT && (at.is_invariant() || i == 0 && 1 < self.group_size(at))
    }

    // The bound as it is written: `x <= n` may be `x < n + 1`, and `x >= n`, where n is not 0, may be `x > n - 1`.
    pub fn written_bound(&self, at: At, i: usize) -> usize {
        let n = self.bound_at(at, i);
        let change = self.change_of_comparison(at.location, i);
        if at.is_invariant() && change == Change::ZeroBound {
            return 0;
        }
        if !self.is_rewritten(at, i, n) {
            return n;
        }
        match self.sign_at(at, i) {
            Sign::Less => plus(n, 1),
            Sign::Greater => n.saturating_sub(1),
            _ => n,
        }
    }

    // The clock of comparison i.
    pub fn clock_at(&self, at: At, i: usize) -> usize {
        self.choice(plus(CLOCKS, i), at, self.clocks())
    }

    // The number of the channel that is declared at a place: they are declared from one of them on.
    pub fn declared(&self, i: usize) -> usize {
        let n = self.channels();
        plus(pick(self.gap, TURNS, 0, 0, n), i)
            .checked_rem(n)
            .unwrap_or(0)
    }

    // How many edges are written: the last one of a group may be dropped.
    pub fn written_edges(&self, at: At) -> usize {
        let n = self.group_size(at);
        if self.change_at(at) == Change::DroppedEdge {
            return n.saturating_sub(1);
        }
        plus(n, self.extra_edges(at))
    }

    // The edge at place i: those beside a group may stand behind it, before it and between its edges.
    pub fn edge_at(&self, at: At) -> At {
        let n = self.written_edges(at);
        if n == 0 || self.extra_edges(at) == 0 {
            return at;
        }
        let turned = plus(at.edge, self.gap_choice(ORDERS, at, n));
        at.with_edge(turned.checked_rem(n).unwrap_or(0))
    }

    // Where an edge of a group leads: one may lead to a location that is not declared.
    fn own_target(&self, at: At) -> usize {
        let n = self.locations();
        let t = self.choice(plus(TARGETS, at.edge), at, n);
        match self.change_at(at) {
            Change::OtherName => n,
            Change::OtherTarget => other_location(t, n),
            _ => t,
        }
    }

    // Where an edge leads.
    pub fn target_of(&self, at: At) -> usize {
        let n = self.locations();
        let t = self.own_target(self.original(at));
        if self.kind_of(at) == Kind::Elsewhere && t < n {
            return other_location(t, n);
        }
        t
    }

    // All clocks are mostly assigned on the way to another location with an invariant, which then mostly holds.
    fn own_set(&self, at: At) -> usize {
        let set = self.choice(plus(SETS, at.edge), at, EVERY_CLOCK + 1);
        if self.change_at(at) == Change::OtherClocks {
            return set ^ EVERY_CLOCK;
        }
        let t = self.own_target(at);
        let is_free = t == at.location || self.invariant_count(t) == 0;
        if is_free || self.choice(plus(WHOLE_SETS, at.edge), at, OPEN_ODDS) == 0 {
            return set;
        }
        EVERY_CLOCK
    }

    // The clocks that an edge assigns.
    fn set_of(&self, at: At) -> usize {
        let set = self.own_set(self.original(at));
        if self.kind_of(at) == Kind::OtherSet {
            return set ^ only(self.own_clock(at));
        }
        set
    }

    // Whether an edge assigns a clock that the text has.
    pub fn is_assigned(&self, at: At, k: usize) -> bool {
        k < self.clocks() && self.set_of(at) & only(k) != 0
    }

    // Whether the edges set clocks to other values than 0 as well.
    fn is_late(&self) -> bool {
        pick(self.seed, LATES, 0, 0, EITHER) == 0
    }

    // The largest value that a location mostly allows.
    fn highest(&self, t: usize) -> usize {
        if self.invariant_count(t) == 0 {
            return self.constants();
        }
        self.bound_at(At::invariant(t), 0)
    }

    // What an edge of a group sets a clock to: 0, a value that the target mostly allows, or one more.
    fn late_value(&self, at: At, k: usize) -> usize {
        let own = at.assignment(k);
        let most = plus(self.highest(self.own_target(at)), 1);
        let n = self.choice(plus(LATE_VALUES, own), at, most);
        match self.choice(plus(VALUES, own), at, VALUE_ODDS) {
            0 => plus(n, 1),
            1..=7 => 0,
            _ => n,
        }
    }

    // The large value, if that is the change: in an assignment that counts (0), or in one that is overridden (1).
    fn large_value(&self, at: At, which: usize) -> Option<usize> {
        match self.change_at(at) {
            Change::LargeValue if self.excess() == which => Some(LARGEST_CONSTANT),
            Change::TooLargeValue if self.excess() == which => Some(LARGEST_CONSTANT + 1),
            _ => None,
        }
    }

    // What an edge sets a clock to; one that is written again sets it to the same.
    pub fn value_of(&self, at: At, k: usize) -> usize {
        if let Some(large) = self.large_value(at, 0) {
            return large;
        }
        let n = if self.is_late() {
            self.late_value(self.original(at), k)
        } else {
            0
        };
        let is_other = self.change_at(at) == Change::OtherValues;
        plus(n, usize::from(is_other))
    }

    // The value of an assignment that a later one overrides, if an edge assigns a clock once more before that one.
    pub fn overridden_value(&self, at: At, k: usize) -> Option<usize> {
        if let Some(large) = self.large_value(at, 1) {
            return Some(large);
        }
        let own = at.assignment(k);
        if !self.is_late() || self.gap_choice(plus(REPEATS, own), at, REPEAT_ODDS) != 0 {
            return None;
        }
        let values = plus(self.constants(), 2);
        Some(self.gap_choice(plus(OVERRIDDEN, own), at, values))
    }

    // Whether the mark is that of an input: the first channels are inputs, but for a change.
    pub fn is_input(&self, at: At) -> bool {
        let is_other = self.change == Change::OtherMark && self.is_about(at.channel)
            || self.change_at(at) == Change::OneMark;
        (at.channel < self.inputs()) != is_other
    }

    // The location at which the text starts.
    pub fn start(&self) -> usize {
        self.choice(STARTS, FIRST, self.locations())
    }

    // The same shape, written in ticks.
    pub fn in_ticks(&self) -> Shape {
        let mut shape = *self;
        shape.period = ONE_MILLISECOND;
        shape
    }

    // The same shape with another number of clocks and locations, and with other names of channels, if that is asked for:
    // texts of one size so have equal channels, but for a change. Some are made larger, so that joining them passes a limit.
    pub fn viewpoint(&self, counts: u32, is_made_like: bool) -> Shape {
        let mut shape = *self;
        shape.counts = counts;
        shape.is_made_like = is_made_like;
        if pick(counts, CHANGE, 0, 0, ENLARGING_ODDS) == 0 {
            shape.change = enlarging(counts);
        }
        shape
    }
}

// A change that makes a text larger and mostly keeps it accepted.
fn enlarging(counts: u32) -> Change {
    match pick(counts, CHANGE, 1, 0, ENLARGING_CHANGES) {
        0 => Change::LargeConstants,
        1 => Change::LongInvariant,
        2 => Change::LongGuard,
        _ => Change::ManyLocations,
    }
}

// A change in `often` of CHANGE_ODDS times.
fn change_of(gap: u32, often: usize) -> Change {
    if often <= pick(gap, CHANGE, 0, 0, CHANGE_ODDS) {
        return Change::None;
    }
    let number = pick(gap, CHANGE, 1, 0, CHANGES.len());
    let usual = if pick(gap, CHANGE, 2, 0, EITHER) == 0 {
        number % OFTEN
    } else {
        number
    };
    CHANGES.get(usual).copied().unwrap_or(Change::None)
}

// A shape with one change in `often` of CHANGE_ODDS times. It is written for a tick length, in ticks if that is out of range.
pub fn shape_of(period: usize, size: u32, seed: u32, gap: u32, often: usize) -> Shape {
    let own = if period == 0 || LONGEST_TICK < period {
        ONE_MILLISECOND
    } else {
        period
    };
    Shape {
        period: own,
        size,
        counts: size,
        seed,
        gap,
        change: change_of(gap, often),
        is_made_like: false,
    }
}
