// The limits of a text (SPECIFICATION 4.3) and of the tick length (SPECIFICATION 4.7), and what follows from them.
// Every other crate takes a limit from here.
#![tactic(auto)]

ghost use Rattle.std.specs.Prelude.{◌≡◌};
ghost use Rattle.limits.specs.Limits.{tick_allowed};

// Bytes of a text, and of a name.
pub const LARGEST_TEXT: usize = 32768;

pub const LARGEST_NAME: usize = 31;

// Items of a text.
pub const CHANNEL_LIMIT: usize = 16;

pub const CLOCK_LIMIT: usize = 3;

pub const LOCATION_LIMIT: usize = 32;

pub const EDGE_LIMIT: usize = 128;

// Comparisons of a guard or an invariant, and what a clock is compared with.
pub const COMPARISON_LIMIT: usize = 4;

pub const LARGEST_CONSTANT: usize = 1000;

// The tick length in milliseconds (SPECIFICATION 4.7).
pub const SHORTEST_TICK: usize = 1;

pub const LONGEST_TICK: usize = 60000;

// A numeral above this one comes to more ticks than the largest constant at every tick length.
pub const LARGEST_NUMERAL: usize = (LARGEST_CONSTANT + 1) * LONGEST_TICK;

pub const STATE_LIMIT: usize = 4096;

// The steps of a text: the tick and its channels.
pub const STEP_LIMIT: usize = CHANNEL_LIMIT + 1;

// The entries of a move table: one for each state and step.
pub const MOVE_LIMIT: usize = STATE_LIMIT * STEP_LIMIT;

// The bytes that hold a bit for each state.
pub const KEEP_LIMIT: usize = (STATE_LIMIT + 7) / 8;

// The pairs of a left and a right state.
pub const PAIR_LIMIT: usize = STATE_LIMIT * STATE_LIMIT;

// A text of at most so many states gets small slices: a large move table takes longer to make than such a text takes
// to read.
pub const FEW_STATES: usize = 256;

pub const FEW_MOVES: usize = FEW_STATES * STEP_LIMIT;

pub const FEW_BYTES: usize = (FEW_STATES + 7) / 8;

// Whether a number is a tick length.
pub fn is_tick_length(period: usize) -> bool
    ensures { result ≡ tick_allowed period }
{
    if period < SHORTEST_TICK {
        return false;
    }
    period <= LONGEST_TICK
}
