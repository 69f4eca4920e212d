// Whether a record means what two records mean together (SPECIFICATION 18.1): an invariant holds where both hold, a
// step is possible where both make it, and it leads to the pair of where they go. Clocks are not capped: the values
// that are tried are those of the states of the two texts, which go past every constant of either.
use enumerator::moves::make_step;
use enumerator::numbers::{plus, remainder, times};
use enumerator::pairs::Two;
use enumerator::safe::Reading;
use enumerator::states::{Configuration, configuration_of, invariant_holds};
use limits::CLOCK_LIMIT;
use reader_record::Text;

// At most so many pairs of states are tried. They are taken at this distance, a prime that is above the number of pairs
// where all are tried, so that each is taken once.
const TRIED: usize = 256;

const DISTANCE: usize = 8191;

// The record of a joined text, and the two texts.
#[derive(Clone, Copy)]
struct Joining<'a> {
    joined: &'a Text,
    left: &'a Reading,
    right: &'a Reading,
    two: &'a Two,
}

// The value of a clock, 0 for one that no text has.
fn value_of(c: &Configuration, k: usize) -> usize {
    c.values.get(k).copied().unwrap_or(0)
}

impl Joining<'_> {
    // The joined configuration of two: the left's clocks stand before the right's (SPECIFICATION 18.2, 18.3).
    fn pair_of(&self, c: &Configuration, d: &Configuration) -> Configuration {
        let mut values = [0; CLOCK_LIMIT];
        for (k, x) in values.iter_mut().enumerate() {
            *x = match k.checked_sub(self.left.text.clock_count) {
                Some(own) => value_of(d, own),
                None => value_of(c, k),
            };
        }
        Configuration {
            location: plus(
                times(c.location, self.right.text.location_count),
                d.location,
            ),
            values,
        }
    }

    // Whether two configurations have one location, and one value for each clock.
    fn are_same(&self, c: &Configuration, d: &Configuration) -> bool {
        let clocks = plus(self.left.text.clock_count, self.right.text.clock_count);
        let values = c.values.iter().zip(d.values.iter());
        c.location == d.location && values.take(clocks).all(|(x, y)| *x == *y)
    }

    // Whether a step of the joined record from the pair of two configurations is the pair of their steps.
    fn is_step_right(&self, c: &Configuration, d: &Configuration, step: usize) -> bool {
        let x = make_step(&self.left.text, c, step);
        let y = match self.two.right_step(step) {
            Some(own) => make_step(&self.right.text, d, own),
            None => None,
        };
        let z = make_step(self.joined, &self.pair_of(c, d), step);
        match (x, y, z) {
            (Some(x), Some(y), Some(z)) => self.are_same(&z, &self.pair_of(&x, &y)),
            (Some(_), Some(_), None) => false,
            (_, _, z) => z.is_none(),
        }
    }

    // The invariant, and every step.
    fn is_pair_right(&self, c: &Configuration, d: &Configuration) -> bool {
        let holds = invariant_holds(self.joined, &self.pair_of(c, d));
        let is_due = invariant_holds(&self.left.text, c) && invariant_holds(&self.right.text, d);
        holds == is_due
            && (0..=self.left.text.channel_count).all(|step| self.is_step_right(c, d, step))
    }

    // Pair k of those that are tried.
    fn is_right_at(&self, k: usize) -> bool {
        let i = remainder(times(k, DISTANCE), self.two.pairs());
        let c = configuration_of(&self.left.ranges, self.two.left_of(i));
        let d = configuration_of(&self.right.ranges, self.two.right_of(i));
        self.is_pair_right(&c, &d)
    }
}

// Whether the record of a joined text means what the two texts mean, in the pairs that are tried.
pub fn is_right(joined: &Text, left: &Reading, right: &Reading, two: &Two) -> bool {
    let joining = Joining {
        joined,
        left,
        right,
        two,
    };
    (0..TRIED.min(two.pairs())).all(|k| joining.is_right_at(k))
}
