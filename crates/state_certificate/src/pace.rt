ghost use Rattle.std.specs.Prelude.{◌<◌, ◌≤◌};

/// One, in the unit of all factors.
pub(crate) const ONE: u64 = 64;

/// How many factors there are.
const FACTORS: usize = 9;

/// The factors of a sweep. Each past 1 moves a mass past its aim, which settles masses sooner that hold each other back.
const FACTOR: [u64; FACTORS] = [ONE, 80, 96, 104, 112, 116, 120, 124, 126];

/// How many bits of the distance the sweeps between two marks take off, by each factor, if it is past the best one: the
/// distance is then multiplied by the factor less 1 in each sweep. From the best factor down it is less.
const FULL_LOSS: [u32; FACTORS] = [99, 64, 32, 21, 13, 9, 6, 3, 1];

/// The distance is marked after so many sweeps: fewer would tell little of a small factor.
const MARKED_SWEEPS: u32 = 32;

/// After so many sweeps with no smaller distance than before, only rounding is left.
const STALE_SWEEPS: u32 = 16;

/// Rounding never leaves so large a distance: masses that are further from balance are still on their way.
const LARGE_DISTANCE: u64 = 1 << 20;

/// A sweep that finds no mass so far from balance is the last.
const LEAST_DISTANCE: u64 = 8;

/// How far each sweep moves the masses, learnt from how fast they have come nearer to balance.
#[derive(Drop)]
pub(crate) struct Pace {
    factor: usize,
    highest: usize,
    sweeps: u32,
    mark: u64,
    least: u64,
    stale: u32,
    ghost in_range: { factor < 9 },
    ghost at_most: { highest < 9 },
}

impl Pace {
    /// The pace of the first sweep: each mass moves just to its aim.
    pub(crate) fn first() -> Pace {
        Pace::capped(0, FACTORS - 1)
    }

    /// A pace that knows nothing yet of the masses, with this factor and no higher one than the other.
    fn capped(factor: usize, highest: usize) -> Pace
        requires factor { factor < 9 }
        requires highest { highest < 9 }
    {
        Pace {
            factor,
            highest,
            sweeps: 0,
            mark: u64::MAX,
            least: u64::MAX,
            stale: 0,
        }
    }

    /// The factor by which the next sweep moves each mass.
    pub(crate) fn factor(&self) -> u64 {
        FACTOR[self.factor]
    }

    /// Takes note of how far the sweep found a mass from balance at most, and answers whether it was the last.
    pub(crate) fn is_last(&mut self, distance: u64) -> bool {
        self.count(distance);
        if distance < LEAST_DISTANCE {
            return true;
        }
        if self.stale < STALE_SWEEPS || distance >= LARGE_DISTANCE {
            self.learn(distance);
            return false;
        }
        let was_plain = self.factor == 0;
        *self = Pace::capped(self.factor / 2, self.factor / 2);
        was_plain
    }

    /// Counts the sweeps since the least distance.
    fn count(&mut self, distance: u64) {
        self.stale = if distance < self.least {
            0
        } else {
            self.stale.saturating_add(1)
        };
        self.least = self.least.min(distance);
    }

    /// Marks the distance after some sweeps, and takes another factor if this one brought the masses nearer too slowly.
    fn learn(&mut self, distance: u64) {
        self.sweeps = self.sweeps.saturating_add(1);
        if self.sweeps < MARKED_SWEEPS {
            return;
        }
        let (before, now) = (bits(self.mark), bits(distance));
        let lost = before.saturating_sub(now);
        let full = u64::from(FULL_LOSS[self.factor]);
        if now > before && self.factor > 0 {
            self.give_way();
        } else if 2 * lost < full {
            self.faster();
        } else if 5 * lost >= 4 * full {
            self.slower();
        }
        self.mark = distance;
        self.sweeps = 0;
    }

    /// Takes the next factor. If it was too high before, it may be tried again only after one mark more.
    fn faster(&mut self) {
        if self.factor < self.highest {
            self.factor += 1;
        } else if self.highest < FACTORS - 1 {
            self.highest += 1;
        }
    }

    /// Takes the factor before this one.
    fn slower(&mut self) {
        self.factor = self.factor.saturating_sub(1);
    }

    /// Takes the factor before this one, as the masses go further from balance by this one.
    fn give_way(&mut self) {
        self.slower();
        self.highest = self.factor;
    }
}

/// The number of binary digits.
fn bits(number: u64) -> u64
    ensures { result ≤ 64 }
{
    u64::from(u64::BITS - number.leading_zeros())
}
