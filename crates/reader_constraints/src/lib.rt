// Reads a guard or an invariant of a contract text (SPECIFICATION 3.1, 3.2) at a tick length, `period` (SPECIFICATION
// 4.7).
#![tactic(auto)]

ghost use Rattle.std.specs.Prelude.{◌≡◌, ◌+◌, ◌≤◌, ◌<◌, Ok, length};
ghost use Rattle.reader_constraints.specs.Constraints.{in_ticks, constant_of, constant, least_after, least_constant};
ghost use Rattle.reader_constraints.specs.Constraints.{sign_of, sign_next, comparison_next};
ghost use Rattle.reader_constraints.specs.Constraints.{blank_constraint, with_comparison, constraint, optional};
ghost use Rattle.reader_constraints.specs.Constraints.{guard, invariant};
ghost use Rattle.reader_constraints.specs.SoFar.{comparison_so_far, constraint_so_far, optional_so_far};
ghost use Rattle.reader_constraints.specs.SoFar.{guard_so_far, invariant_so_far};
ghost use Rattle.reader_tokens.specs.Scan.{over_numeral};
ghost use Rattle.reader_record.specs.Record.{no_comparison};
ghost use Rattle.reader_parts.specs.Stages.{onward};
ghost use Rattle.reader_parts.specs.SoFar.{beside};
ghost use Rattle.limits.specs.Limits.{TickLength, largest_text, comparison_limit};

use limits::{CLOCK_LIMIT, COMPARISON_LIMIT, LARGEST_CONSTANT};
use reader_parts::{FIRST_CLOCK, Fault, NAME_SLOTS, Stopped};
use reader_record::{Comparison, Constraint, Name, Sign};
use reader_tokens::Token;

// A constant in ticks, and the place behind it.
#[derive(Clone, Copy, PartialEq, Eq)]
pub struct Amount {
    pub value: usize,
    pub end: usize,
}

// A number of milliseconds in ticks: the nearest whole number, an exact half upward (SPECIFICATION 4.7).
#[tactic(auto, unfolding(crate::specs::Constraints::in_ticks))]
fn in_ticks(period: usize, n: usize) -> usize
    requires { TickLength period × (n ≤ over_numeral) }
    ensures { result ≡ in_ticks period n }
{
    (2 * n + period) / (2 * period)
}

// A token that has to be a numeral that comes to at least `least` ticks and at most the largest constant.
#[tactic(auto, unfolding(crate::specs::Constraints::constant_of))]
fn constant_of(period: usize, s: &[u8], t: Token, least: usize) -> Result<Amount, Fault>
    requires { TickLength period }
    ensures { result ≡ constant_of period least s.now t }
{
    if t.kind != reader_tokens::NUMERAL {
        return Err(Fault::Misfit(t.place));
    }
    let n = reader_tokens::number_at(s, t.place);
    let value = in_ticks(period, n);
    if LARGEST_CONSTANT < value {
        return Err(Fault::TooLarge(t.place));
    }
    if value < least {
        return Err(Fault::Misfit(t.place));
    }
    Ok(Amount { value, end: t.end })
}

// The next token as a constant of at least `least` ticks: else code 2, and 6 where it is too large (SPECIFICATION 4.5).
// A fault of the stage before stays.
#[tactic(auto, unfolding(crate::specs::Constraints::constant))]
pub fn constant(
    period: usize,
    s: &[u8],
    at: Result<usize, Fault>,
    least: usize,
) -> Result<Amount, Fault>
    requires { TickLength period }
    ensures { result ≡ onward (constant period least s.now) at }
{
    constant_of(period, s, reader_scanner::scan(s, at?), least)
}

// The sign that a token of this kind is (SPECIFICATION 3.1, in an invariant 3.2).
#[tactic(auto, unfolding(crate::specs::Constraints::sign_of))]
fn sign_of(k: usize, invariant: bool) -> Option<Sign>
    ensures { result ≡ sign_of invariant k }
{
    match k {
        reader_tokens::AT_MOST => Some(Sign::AtMost),
        reader_tokens::LESS => Some(Sign::Less),
        _ if invariant => None,
        reader_tokens::AT_LEAST => Some(Sign::AtLeast),
        reader_tokens::GREATER => Some(Sign::Greater),
        reader_tokens::EQUAL => Some(Sign::Equal),
        _ => None,
    }
}

// A sign, and the place behind it.
#[derive(Clone, Copy, PartialEq, Eq)]
pub struct SignRead {
    pub sign: Sign,
    pub end: usize,
}

// The next token as a sign.
#[tactic(auto, unfolding(crate::specs::Constraints::sign_next))]
fn sign_next(s: &[u8], p: usize, invariant: bool) -> Result<SignRead, Fault>
    ensures { result ≡ sign_next s.now p invariant }
{
    let t = reader_scanner::scan(s, p);
    let sign = sign_of(t.kind, invariant).ok_or(Fault::Misfit(t.place))?;
    Ok(SignRead { sign, end: t.end })
}

// The least constant that may stand after a sign in an invariant: `x < 0` would forbid the whole location.
#[tactic(auto, unfolding(crate::specs::Constraints::least_after))]
fn least_after(sign: Sign) -> usize
    ensures { result ≡ least_after sign }
{
    if sign == Sign::Less { 1 } else { 0 }
}

// The same in a guard or an invariant (SPECIFICATION 3.2).
#[tactic(auto, unfolding(crate::specs::Constraints::least_constant))]
fn least_constant(invariant: bool, sign: Sign) -> usize
    ensures { result ≡ least_constant invariant sign }
{
    if invariant { least_after(sign) } else { 0 }
}

// A comparison, and the place behind it.
#[derive(Clone, Copy, PartialEq, Eq)]
pub struct ComparisonRead {
    pub comparison: Comparison,
    pub end: usize,
}

// A comparison of which nothing is read.
fn no_comparison() -> Comparison
    ensures { result ≡ no_comparison }
{
    Comparison {
        clock: 0,
        sign: Sign::AtMost,
        bound: 0,
    }
}

// A clock, a sign and a numeral. `over`: it is one comparison too many.
#[tactic(auto, unfolding(crate::specs::Constraints::comparison_next, crate::specs::SoFar::comparison_so_far))]
fn comparison_next(
    period: usize,
    s: &[u8],
    p: usize,
    names: &[Name; NAME_SLOTS],
    invariant: bool,
    over: bool,
) -> Result<ComparisonRead, Stopped<Comparison>>
    requires { TickLength period × (length s.now ≤ largest_text) }
    ensures { result ≡ beside (comparison_so_far period s.now (Ok p) names.now invariant over)
        (comparison_next period s.now p names.now invariant over) }
{
    let mut x = no_comparison();
    let used = reader_parts::use_name(s, Ok(p), names, FIRST_CLOCK, CLOCK_LIMIT, over);
    let clock = reader_parts::beside(x, used)?;
    x.clock = clock.number as u8;
    let read = reader_parts::beside(x, sign_next(s, clock.end, invariant))?;
    x.sign = read.sign;
    let least = least_constant(invariant, read.sign);
    let bound = reader_parts::beside(x, constant(period, s, Ok(read.end), least))?;
    x.bound = bound.value as u16;
    Ok(ComparisonRead {
        comparison: x,
        end: bound.end,
    })
}

#[tactic(auto, unfolding(crate::specs::Constraints::blank_constraint))]
pub fn blank_constraint() -> Constraint
    ensures { result ≡ blank_constraint }
{
    Constraint {
        comparisons: [no_comparison(); COMPARISON_LIMIT],
        count: 0,
    }
}

#[tactic(auto, unfolding(crate::specs::Constraints::with_comparison))]
fn with_comparison(c: Constraint, x: Comparison) -> Constraint
    requires { c.count < comparison_limit }
    ensures { result ≡ with_comparison c x }
{
    let mut d = c;
    d.comparisons[d.count as usize] = x;
    d.count += 1;
    d
}

// A guard or an invariant, and the place behind it.
#[derive(Clone, Copy, PartialEq, Eq)]
pub struct ConstraintRead {
    pub constraint: Constraint,
    pub end: usize,
}

// Comparisons joined by `&&`, then the closing token.
fn constraint(
    period: usize,
    s: &[u8],
    p: usize,
    names: &[Name; NAME_SLOTS],
    invariant: bool,
    closing: usize,
) -> Result<ConstraintRead, Stopped<Constraint>>
    requires { TickLength period × (length s.now ≤ largest_text) }
    ensures { result ≡ beside
        (constraint_so_far period comparison_limit s.now names.now invariant (Ok p) blank_constraint)
        (constraint period s.now p names.now invariant closing) }
{
    let mut c = blank_constraint();
    let mut q = p;
    for _ in 0..COMPARISON_LIMIT {
        let x = match comparison_next(period, s, q, names, invariant, false) {
            Ok(x) => x,
            Err(e) => return reader_parts::beside(with_comparison(c, e.read), Err(e.fault)),
        };
        c = with_comparison(c, x.comparison);
        if !reader_parts::ahead(s, Ok(x.end), reader_tokens::BOTH) {
            let end = reader_parts::beside(c, reader_parts::take(s, Ok(x.end), closing))?;
            return Ok(ConstraintRead { constraint: c, end });
        }
        q = reader_parts::beside(c, reader_parts::take(s, Ok(x.end), reader_tokens::BOTH))?;
    }
    match comparison_next(period, s, q, names, invariant, true) {
        Ok(x) => Ok(ConstraintRead {
            constraint: c,
            end: x.end,
        }),
        Err(e) => reader_parts::beside(c, Err(e.fault)),
    }
}

// An optional constraint: the token that opens it, its comparisons and the token that closes it.
#[tactic(auto, unfolding(crate::specs::Constraints::optional, crate::specs::Constraints::constraint, crate::specs::SoFar::optional_so_far))]
fn optional(
    period: usize,
    s: &[u8],
    at: Result<usize, Fault>,
    names: &[Name; NAME_SLOTS],
    opening: usize,
    invariant: bool,
    closing: usize,
) -> Result<ConstraintRead, Stopped<Constraint>>
    requires { TickLength period × (length s.now ≤ largest_text) }
    ensures { result ≡ beside (optional_so_far period opening invariant s.now at names.now)
        (onward (λ p. optional period opening invariant closing s.now p names.now) at) }
{
    let none = blank_constraint();
    if !reader_parts::ahead(s, at, opening) {
        return Ok(ConstraintRead {
            constraint: none,
            end: reader_parts::beside(none, at)?,
        });
    }
    let q = reader_parts::beside(none, reader_parts::take(s, at, opening))?;
    constraint(period, s, q, names, invariant, closing)
}

// The guard of an edge, where there is one (SPECIFICATION 3.1). A fault of the stage before stays. Beside a fault stand
// the comparisons so far, the one with the fault too where it is not one too many.
pub fn guard(
    period: usize,
    s: &[u8],
    at: Result<usize, Fault>,
    names: &[Name; NAME_SLOTS],
) -> Result<ConstraintRead, Stopped<Constraint>>
    requires { TickLength period × (length s.now ≤ largest_text) }
    ensures { result ≡ beside (guard_so_far period s.now at names.now)
        (onward (λ p. guard period s.now p names.now) at) }
{
    optional(
        period,
        s,
        at,
        names,
        reader_tokens::GUARD,
        false,
        reader_tokens::SEMICOLON,
    )
}

// The invariant of a location, where there is one (SPECIFICATION 3.1). A fault of the stage before stays. Beside a fault
// stand the comparisons so far, the one with the fault too where it is not one too many.
pub fn invariant(
    period: usize,
    s: &[u8],
    at: Result<usize, Fault>,
    names: &[Name; NAME_SLOTS],
) -> Result<ConstraintRead, Stopped<Constraint>>
    requires { TickLength period × (length s.now ≤ largest_text) }
    ensures { result ≡ beside (invariant_so_far period s.now at names.now)
        (onward (λ p. invariant period s.now p names.now) at) }
{
    optional(
        period,
        s,
        at,
        names,
        reader_tokens::OPEN,
        true,
        reader_tokens::CLOSE,
    )
}
