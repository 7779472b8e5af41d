// How many lines were carried, and how many refused.
ghost use Rattle.std.specs.Prelude.{◌≡◌, ◌+◌, ◌-◌, ◌^◌, min, ◌++◌, if◌then◌else◌, Some, codes, decimal};

use std::fmt;

#[derive(Clone, Copy, Default)]
pub struct Tally {
    pub carried: u64,
    pub refused: u64,
}

impl Tally {
    // One line more; a count stays at the largest number once it is there. It takes the flag alone: an answer in its place would
    // ask more of whoever counts.
    pub fn count(self, carried: bool) -> Tally
        ensures carried { result.carried ≡ min (self.carried + (if carried then 1 else 0)) (2 ^ 64 - 1) }
        ensures refused { result.refused ≡ min (self.refused + (if carried then 0 else 1)) (2 ^ 64 - 1) }
    {
        if carried {
            Tally {
                carried: self.carried.saturating_add(1),
                ..self
            }
        } else {
            Tally {
                refused: self.refused.saturating_add(1),
                ..self
            }
        }
    }
}

impl fmt::Display for Tally {
    ghost output = { λ t. Some (decimal t.carried ++ (codes " carried, " ++ (decimal t.refused ++ codes " refused"))) };

    fn fmt<W: fmt::Write>(&self, f: &mut fmt::Formatter<W>) -> fmt::Result {
        let Tally { carried, refused } = *self;
        write!(f, "{carried} carried, {refused} refused")
    }
}
