// A refusal, and its four numbers: code, file mark, p and q (SPECIFICATION 13.1, 13.2).
#![tactic(auto)]

ghost use Rattle.std.specs.Prelude.{◌≡◌, ◌≤◌, ◌<◌};
ghost use Rattle.limits.specs.Limits.{state_limit};
ghost use Rattle.refusals.specs.Refusals.{mark, code, file, p, q, in_file, rule_broken};

use steps::Step;

// The file that a refusal concerns: none, the left or only text, the right text (SPECIFICATION 13.2).
#[derive(Clone, Copy, PartialEq, Eq, Debug)]
pub enum File {
    None,
    Left,
    Right,
}

impl File {
    pub fn mark(self) -> usize
        ensures { result ≡ mark self }
    {
        match self {
            File::None => 0,
            File::Left => 1,
            File::Right => 2,
        }
    }
}

// A variant for each code, with the file that it concerns. The operations give codes 13 to 16, 18 to 21 and 24 to 26
// with no file, and 17 with the left one (SPECIFICATION 13.1, 13.2).
#[derive(Clone, Copy, PartialEq, Eq, Debug)]
pub enum Refusal {
    // 1: a text over its limit (SPECIFICATION 4.5)
    TextTooLong(File),
    // 2: a token in a place where it does not fit (SPECIFICATION 4.5)
    Misfit(File, usize),
    // 3: a name over its limit (SPECIFICATION 4.5)
    NameTooLong(File, usize),
    // 4: a second declaration of a name (SPECIFICATION 4.5)
    DeclaredBefore(File, usize),
    // 5: the use of a name that has no declaration, or one of another kind (SPECIFICATION 4.5)
    UnknownName(File, usize),
    // 6: a constant over its limit (SPECIFICATION 4.5)
    ConstantTooLarge(File, usize),
    // 7: one item too many (SPECIFICATION 4.5)
    TooManyItems(File, usize),
    // 8: a channel that has both marks (SPECIFICATION 3.6, 4.5)
    OtherMark(File, usize),
    // 9: more states than the limit (SPECIFICATION 6.5)
    TooManyStates(File, usize),
    // 10: a state in which an input has no move (SPECIFICATION 7.2)
    InputWithoutMove(File, usize, usize),
    // 11: a state in which two edges give moves by one channel that lead to different states (SPECIFICATION 7.2)
    TwoEdges(File, usize, usize),
    // 12: a channel that the two texts do not have alike (SPECIFICATION 9.1)
    UnmatchedChannel(File, usize),
    // 13: too few bytes of keep (SPECIFICATION 8.4)
    KeepTooShort(File, usize),
    // 14: too few bytes for the widest table (SPECIFICATION 12.6)
    TableTooShort(File, usize),
    // 15: too few entries of back or of line (SPECIFICATION 12.4)
    QueueTooShort(File, usize),
    // 16: a given table that is not laid out for these two texts (SPECIFICATION 11.1, 11.2)
    OtherTable(File),
    // 17: a left text whose start is not among its safe states (SPECIFICATION 8.3)
    StartNotSafe(File, usize),
    // 18: a given table without the pair of starts (SPECIFICATION 11.5)
    StartPairNotSet(File, usize, usize),
    // 19: a pair in a given table that its s or its t alone rules out (SPECIFICATION 11.5)
    PairNotAllowed(File, usize, usize),
    // 20: a pair in a given table that fails the rules for a step (SPECIFICATION 11.5)
    RuleBroken(File, Step, usize),
    // 21: a departure that is longer than the run slice (SPECIFICATION 12.4)
    RunTooShort(File, usize),
    // 22: a reachable state in which an output and a tick are both possible (SPECIFICATION 12.9)
    OutputBesideTick(File, usize, usize),
    // 23: a reachable state in which neither is possible (SPECIFICATION 12.9)
    NeitherPossible(File, usize),
    // 24: a tick length that is not allowed (SPECIFICATION 4.7)
    TickOutOfRange(File, usize),
    // 25: two texts whose joined text would pass a limit (SPECIFICATION 18.8)
    LimitExceeded(File),
    // 26: too few bytes for the joined text (SPECIFICATION 18.9)
    OutTooShort(File, usize),
}

impl Refusal {
    // A pair that fails the rules for a step, by its number in a table that is `width` wide.
    pub fn rule_broken(width: usize, step: Step, s: usize, t: usize) -> Refusal
        requires { (width ≤ state_limit) × ((s < state_limit) × (t < width)) }
        ensures { result ≡ rule_broken width step s t }
    {
        Refusal::RuleBroken(File::None, step, s * width + t)
    }

    pub fn code(self) -> usize
        ensures { result ≡ code self }
    {
        match self {
            Refusal::TextTooLong(_) => 1,
            Refusal::Misfit(..) => 2,
            Refusal::NameTooLong(..) => 3,
            Refusal::DeclaredBefore(..) => 4,
            Refusal::UnknownName(..) => 5,
            Refusal::ConstantTooLarge(..) => 6,
            Refusal::TooManyItems(..) => 7,
            Refusal::OtherMark(..) => 8,
            Refusal::TooManyStates(..) => 9,
            Refusal::InputWithoutMove(..) => 10,
            Refusal::TwoEdges(..) => 11,
            Refusal::UnmatchedChannel(..) => 12,
            Refusal::KeepTooShort(..) => 13,
            Refusal::TableTooShort(..) => 14,
            Refusal::QueueTooShort(..) => 15,
            Refusal::OtherTable(_) => 16,
            Refusal::StartNotSafe(..) => 17,
            Refusal::StartPairNotSet(..) => 18,
            Refusal::PairNotAllowed(..) => 19,
            Refusal::RuleBroken(..) => 20,
            Refusal::RunTooShort(..) => 21,
            Refusal::OutputBesideTick(..) => 22,
            Refusal::NeitherPossible(..) => 23,
            Refusal::TickOutOfRange(..) => 24,
            Refusal::LimitExceeded(_) => 25,
            Refusal::OutTooShort(..) => 26,
        }
    }

    pub fn file(self) -> File
        ensures { result ≡ file self }
    {
        match self {
            Refusal::TextTooLong(file)
            | Refusal::Misfit(file, _)
            | Refusal::NameTooLong(file, _)
            | Refusal::DeclaredBefore(file, _)
            | Refusal::UnknownName(file, _)
            | Refusal::ConstantTooLarge(file, _)
            | Refusal::TooManyItems(file, _)
            | Refusal::OtherMark(file, _)
            | Refusal::TooManyStates(file, _)
            | Refusal::InputWithoutMove(file, _, _)
            | Refusal::TwoEdges(file, _, _)
            | Refusal::UnmatchedChannel(file, _)
            | Refusal::KeepTooShort(file, _)
            | Refusal::TableTooShort(file, _)
            | Refusal::QueueTooShort(file, _)
            | Refusal::OtherTable(file)
            | Refusal::StartNotSafe(file, _)
            | Refusal::StartPairNotSet(file, _, _)
            | Refusal::PairNotAllowed(file, _, _)
            | Refusal::RuleBroken(file, _, _)
            | Refusal::RunTooShort(file, _)
            | Refusal::OutputBesideTick(file, _, _)
            | Refusal::NeitherPossible(file, _)
            | Refusal::TickOutOfRange(file, _)
            | Refusal::LimitExceeded(file)
            | Refusal::OutTooShort(file, _) => file,
        }
    }

    pub fn p(self) -> usize
        ensures { result ≡ p self }
    {
        match self {
            Refusal::Misfit(_, place)
            | Refusal::NameTooLong(_, place)
            | Refusal::DeclaredBefore(_, place)
            | Refusal::UnknownName(_, place)
            | Refusal::ConstantTooLarge(_, place)
            | Refusal::TooManyItems(_, place)
            | Refusal::OtherMark(_, place) => place,
            Refusal::TooManyStates(_, states) => states,
            Refusal::InputWithoutMove(_, state, _)
            | Refusal::TwoEdges(_, state, _)
            | Refusal::OutputBesideTick(_, state, _)
            | Refusal::NeitherPossible(_, state) => state,
            Refusal::UnmatchedChannel(_, channel) => channel,
            Refusal::KeepTooShort(_, bytes)
            | Refusal::TableTooShort(_, bytes)
            | Refusal::OutTooShort(_, bytes) => bytes,
            Refusal::QueueTooShort(_, entries) => entries,
            Refusal::StartNotSafe(_, start) => start,
            Refusal::StartPairNotSet(_, s, _) | Refusal::PairNotAllowed(_, s, _) => s,
            Refusal::RuleBroken(_, step, _) => step.number,
            Refusal::RunTooShort(_, steps) => steps,
            Refusal::TickOutOfRange(_, period) => period,
            Refusal::TextTooLong(_) | Refusal::OtherTable(_) | Refusal::LimitExceeded(_) => 0,
        }
    }

    pub fn q(self) -> usize
        ensures { result ≡ q self }
    {
        match self {
            Refusal::InputWithoutMove(_, _, channel)
            | Refusal::TwoEdges(_, _, channel)
            | Refusal::OutputBesideTick(_, _, channel) => channel,
            Refusal::StartPairNotSet(_, _, t) | Refusal::PairNotAllowed(_, _, t) => t,
            Refusal::RuleBroken(_, _, pair) => pair,
            _ => 0,
        }
    }

    // The same refusal for another file: a text is read as the only one, and may be the right one of two.
    pub fn in_file(self, file: File) -> Refusal
        ensures { result ≡ in_file file self }
    {
        match self {
            Refusal::TextTooLong(_) => Refusal::TextTooLong(file),
            Refusal::Misfit(_, place) => Refusal::Misfit(file, place),
            Refusal::NameTooLong(_, place) => Refusal::NameTooLong(file, place),
            Refusal::DeclaredBefore(_, place) => Refusal::DeclaredBefore(file, place),
            Refusal::UnknownName(_, place) => Refusal::UnknownName(file, place),
            Refusal::ConstantTooLarge(_, place) => Refusal::ConstantTooLarge(file, place),
            Refusal::TooManyItems(_, place) => Refusal::TooManyItems(file, place),
            Refusal::OtherMark(_, place) => Refusal::OtherMark(file, place),
            Refusal::TooManyStates(_, states) => Refusal::TooManyStates(file, states),
            Refusal::InputWithoutMove(_, state, channel) => Refusal::InputWithoutMove(
                file, state, channel,
            ),
            Refusal::TwoEdges(_, state, channel) => Refusal::TwoEdges(file, state, channel),
            Refusal::UnmatchedChannel(_, channel) => Refusal::UnmatchedChannel(file, channel),
            Refusal::KeepTooShort(_, bytes) => Refusal::KeepTooShort(file, bytes),
            Refusal::TableTooShort(_, bytes) => Refusal::TableTooShort(file, bytes),
            Refusal::QueueTooShort(_, entries) => Refusal::QueueTooShort(file, entries),
            Refusal::OtherTable(_) => Refusal::OtherTable(file),
            Refusal::StartNotSafe(_, start) => Refusal::StartNotSafe(file, start),
            Refusal::StartPairNotSet(_, s, t) => Refusal::StartPairNotSet(file, s, t),
            Refusal::PairNotAllowed(_, s, t) => Refusal::PairNotAllowed(file, s, t),
            Refusal::RuleBroken(_, step, pair) => Refusal::RuleBroken(file, step, pair),
            Refusal::RunTooShort(_, steps) => Refusal::RunTooShort(file, steps),
            Refusal::OutputBesideTick(_, state, channel) => Refusal::OutputBesideTick(
                file, state, channel,
            ),
            Refusal::NeitherPossible(_, state) => Refusal::NeitherPossible(file, state),
            Refusal::TickOutOfRange(_, period) => Refusal::TickOutOfRange(file, period),
            Refusal::LimitExceeded(_) => Refusal::LimitExceeded(file),
            Refusal::OutTooShort(_, bytes) => Refusal::OutTooShort(file, bytes),
        }
    }
}
