// Prints what reading returns, for programs that show it: a line for the answer, then a line for each item of each list.
#![tactic(auto)]

use reader_record::{
    Assignment, Channel, Comparison, Constraint, Direction, Edge, Label, Location, Name, Sign, Text,
};
use refusals::Refusal;
use std::io;

fn put(rt: &impl Print, n: usize) -> io::Result<()> {
    print!(rt; " {n}")
}

// A name: its byte place and its length.
fn name(rt: &impl Print, n: Name) -> io::Result<()> {
    put(rt, n.place as usize)?;
    put(rt, n.len as usize)
}

fn direction(rt: &impl Print, d: Direction) -> io::Result<()> {
    match d {
        Direction::Unused => rt.print(" -"),
        Direction::Input => rt.print(" ?"),
        Direction::Output => rt.print(" !"),
    }
}

fn sign(rt: &impl Print, s: Sign) -> io::Result<()> {
    match s {
        Sign::AtMost => rt.print(" <="),
        Sign::AtLeast => rt.print(" >="),
        Sign::Equal => rt.print(" =="),
        Sign::Less => rt.print(" <"),
        Sign::Greater => rt.print(" >"),
    }
}

fn comparison(rt: &impl Print, c: Comparison) -> io::Result<()> {
    put(rt, c.clock as usize)?;
    sign(rt, c.sign)?;
    put(rt, c.bound as usize)
}

fn constraint(rt: &impl Print, c: Constraint) -> io::Result<()> {
    for x in c.comparisons.iter().take(c.count as usize) {
        comparison(rt, *x)?;
    }
    Ok(())
}

fn label(rt: &impl Print, l: Label) -> io::Result<()> {
    match l {
        Label::Input(c) => {
            rt.print(" ?")?;
            put(rt, c as usize)
        }
        Label::Output(c) => {
            rt.print(" !")?;
            put(rt, c as usize)
        }
    }
}

fn channel(rt: &impl Print, c: Channel) -> io::Result<()> {
    rt.print("  channel")?;
    name(rt, c.name)?;
    direction(rt, c.direction)?;
    rt.print("\n")
}

fn clock(rt: &impl Print, n: Name) -> io::Result<()> {
    rt.print("  clock")?;
    name(rt, n)?;
    rt.print("\n")
}

fn location(rt: &impl Print, l: Location) -> io::Result<()> {
    rt.print("  location")?;
    name(rt, l.name)?;
    constraint(rt, l.invariant)?;
    rt.print("\n")
}

// A clock that is assigned, its value and the largest one written.
fn assignment(rt: &impl Print, clock: usize, a: Assignment) -> io::Result<()> {
    if a.made {
        rt.print(" assign")?;
        put(rt, clock)?;
        put(rt, a.value as usize)?;
        put(rt, a.largest as usize)?;
    }
    Ok(())
}

fn edge(rt: &impl Print, e: Edge) -> io::Result<()> {
    rt.print("  edge")?;
    put(rt, e.source as usize)?;
    put(rt, e.target as usize)?;
    label(rt, e.label)?;
    constraint(rt, e.guard)?;
    for (clock, a) in e.assignments.iter().enumerate() {
        assignment(rt, clock, *a)?;
    }
    rt.print("\n")
}

// A line for each item of each list.
fn items(rt: &impl Print, t: Text) -> io::Result<()> {
    for c in t.channels.iter().take(t.channel_count) {
        channel(rt, *c)?;
    }
    for n in t.clocks.iter().take(t.clock_count) {
        clock(rt, *n)?;
    }
    for l in t.locations.iter().take(t.location_count) {
        location(rt, *l)?;
    }
    for e in t.edges.iter().take(t.edge_count) {
        edge(rt, *e)?;
    }
    Ok(())
}

fn accepted(rt: &impl Print, t: Text) -> io::Result<()> {
    rt.print(" accepted")?;
    put(rt, t.channel_count)?;
    put(rt, t.clock_count)?;
    put(rt, t.location_count)?;
    put(rt, t.edge_count)?;
    put(rt, t.init)?;
    rt.print("\n")?;
    items(rt, t)
}

fn refused(rt: &impl Print, f: Refusal) -> io::Result<()> {
    rt.print(" refused")?;
    put(rt, f.code())?;
    put(rt, f.file().mark())?;
    put(rt, f.p())?;
    put(rt, f.q())?;
    rt.print("\n")
}

// ` refused` code file p q, or ` accepted`, the counts of channels, clocks, locations and edges and the init
// location, and every item of each list.
pub fn print(rt: &impl Print, read: Result<Text, Refusal>) -> io::Result<()> {
    match read {
        Ok(t) => accepted(rt, t),
        Err(f) => refused(rt, f),
    }
}
