// Small random texts and pairs of them through the seven operations at random tick lengths, compared with the plain
// enumerator: the answers and everything that is lent. Prints one line: the calls by kind of answer, and the
// differences, which are 0. What it must print comes from tests/random_counts.py.
#![tactic(auto)]

use limits::LARGEST_TEXT;
use random_calls::tally::{NOTHING, Tally};
use random_calls::texts::{Texts, read_both};
use random_texts::{Pen, Shape, part, pick, shape_of, tick_length};
use std::io;

// The number of pairs of texts, and the seed of them all.
const CASES: usize = 4000;

const SEED: u32 = 2026;

// Of 32 texts so many are changed.
const LEFT_CHANGES: usize = 4;

const RIGHT_CHANGES: usize = 24;

// One of so many is damaged, has another seed on the right, or stands beside a text that is too long.
const DAMAGED: usize = 16;

const OTHER: usize = 3;

const LONG: usize = 128;

// Of so many pairs of viewpoints one has channels with names like those that joining makes.
const MADE_LIKE: usize = 3;

// Parts of a seed.
const LEFT: usize = 1;

const RIGHT: usize = 2;

const OTHERS: usize = 3;

const DAMAGES: usize = 4;

const LONGS: usize = 5;

const PERIODS: usize = 6;

const VIEWPOINTS: usize = 7;

const LEFT_COUNTS: usize = 8;

const RIGHT_COUNTS: usize = 9;

const NAMES: usize = 10;

fn is_one_of(seed: u32, what: usize, n: usize) -> bool {
    pick(seed, what, 0, 0, n) == 0
}

fn is_damaged(g: &Shape) -> bool {
    is_one_of(g.gap, DAMAGES, DAMAGED)
}

// Writes the text of a shape.
fn write_text(buf: &mut [u8], g: &Shape) -> Pen {
    let p = random_texts::text(buf, g);
    if is_damaged(g) {
        random_texts::damage(buf, p.at, g.gap);
    }
    p
}

// All operations but reading, on two texts.
fn all_cases(texts: &Texts, seed: u32, tally: &mut Tally) {
    random_calls::cases::all_cases(texts, seed, tally);
    random_joins::join_cases(texts, seed, tally);
}

// A text beside one that is a byte too long (SPECIFICATION 4.3), in both orders.
fn long_beside(period: usize, text: &[u8], seed: u32, tally: &mut Tally) {
    let room = programs::text_room();
    if let Some(long) = room.get(..LARGEST_TEXT + 1) {
        all_cases(&read_both(period, text, long), seed, tally);
        all_cases(&read_both(period, long, text), seed, tally);
    }
}

// At a tick length, and at one that is refused before that (SPECIFICATION 13.3).
fn long_cases(period: usize, text: &[u8], seed: u32, tally: &mut Tally) {
    if is_one_of(seed, LONGS, LONG) {
        long_beside(period, text, seed, tally);
        long_beside(random_texts::length_out_of_range(seed), text, seed, tally);
    }
}

// The same text in ticks beside one that is not damaged.
fn ticks_beside(text: &[u8], p: &Pen, g: &Shape, tally: &mut Tally) {
    let mut room = [0; LARGEST_TEXT];
    let q = random_texts::text(&mut room, &g.in_ticks());
    if let Some(ticks) = room.get(..q.at) {
        random_calls::reading::rounding_case(g, text, p, ticks, &q, tally);
    }
}

// Reading of a text.
fn read_text(period: usize, text: &[u8], p: &Pen, g: &Shape, tally: &mut Tally) {
    let is_damaged = is_damaged(g);
    random_calls::reading::read_case(period, text, g, p, is_damaged, tally);
    if !is_damaged {
        ticks_beside(text, p, g, tally);
    }
}

// The texts of two shapes.
fn text_cases(period: usize, g: &Shape, h: &Shape, seed: u32, tally: &mut Tally) {
    let mut left_room = [0; LARGEST_TEXT];
    let mut right_room = [0; LARGEST_TEXT];
    let p = write_text(&mut left_room, g);
    let q = write_text(&mut right_room, h);
    if let (Some(left), Some(right)) = (left_room.get(..p.at), right_room.get(..q.at)) {
        read_text(period, left, &p, g, tally);
        read_text(period, right, &q, h, tally);
        all_cases(&read_both(period, left, right), seed, tally);
        long_cases(period, left, seed, tally);
    }
}

// A viewpoint of a unit: texts of one size have equal channels, but for a change, and their own clocks and locations.
fn viewpoint(period: usize, size: u32, own: u32, counts: usize) -> Shape {
    let g = shape_of(period, size, own, own, LEFT_CHANGES);
    let is_made_like = is_one_of(size, NAMES, MADE_LIKE);
    g.viewpoint(part(size, counts), is_made_like)
}

// Two viewpoints of one unit (SPECIFICATION 18.1), joined.
fn viewpoint_cases(period: usize, size: u32, tally: &mut Tally) {
    let mut left_room = [0; LARGEST_TEXT];
    let mut right_room = [0; LARGEST_TEXT];
    let g = viewpoint(period, size, part(size, LEFT), LEFT_COUNTS);
    let h = viewpoint(period, size, part(size, RIGHT), RIGHT_COUNTS);
    let p = write_text(&mut left_room, &g);
    let q = write_text(&mut right_room, &h);
    if let (Some(left), Some(right)) = (left_room.get(..p.at), right_room.get(..q.at)) {
        random_joins::join_cases(&read_both(period, left, right), size, tally);
    }
}

// The right text mostly says the same as the left, with one change.
fn one_case(i: usize, tally: &mut Tally) {
    let seed = part(SEED, i);
    let other = if is_one_of(seed, OTHERS, OTHER) {
        part(seed, OTHERS)
    } else {
        seed
    };
    let period = tick_length(part(seed, PERIODS));
    let left = shape_of(period, seed, seed, part(seed, LEFT), LEFT_CHANGES);
    let right = shape_of(period, seed, other, part(seed, RIGHT), RIGHT_CHANGES);
    text_cases(period, &left, &right, seed, tally);
    viewpoint_cases(period, part(seed, VIEWPOINTS), tally);
}

// The refusals by code, from 1 on.
fn put_codes(rt: &impl Print, tally: &Tally) -> io::Result<()> {
    for (code, count) in tally.refused.iter().enumerate().skip(1) {
        print!(rt; " {code}:{count}")?;
    }
    Ok(())
}

fn put_entry(rt: &impl Print, name: &str, count: usize) -> io::Result<()> {
    print!(rt; "{name} {count}")
}

fn put_line(rt: &impl Print, tally: &Tally) -> io::Result<()> {
    put_entry(rt, "differences", tally.differences)?;
    put_entry(rt, ", departures", tally.departures)?;
    put_entry(rt, ", none", tally.no_departure)?;
    put_entry(rt, ", start pairs", tally.with_start)?;
    put_entry(rt, ", implementations", tally.implementations)?;
    put_entry(rt, ", rounded", tally.rounded)?;
    put_entry(rt, ", joined", tally.joined)?;
    put_entry(rt, ", parallel", tally.parallel)?;
    put_entry(rt, ", parallel pairs", tally.parallel_pairs)?;
    put_entry(rt, ", parallel joined", tally.parallel_joined)?;
    put_entry(rt, ", late", tally.late)?;
    put_entry(rt, ", late pairs", tally.late_pairs)?;
    put_entry(rt, ", late joined", tally.late_joined)?;
    put_entry(rt, ", overridden", tally.overridden)?;
    put_entry(rt, ", left out", tally.left_out)?;
    put_entry(rt, ", accepted", tally.accepted)?;
    rt.print(", refused")?;
    put_codes(rt, tally)?;
    rt.print("\n")
}

fn main(rt: HostRuntime) -> io::Result<()> {
    let mut tally = NOTHING;
    for i in 0..CASES {
        one_case(i, &mut tally);
    }
    put_line(&rt, &tally)
}
