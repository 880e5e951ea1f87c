// The figures of a line of readings, in a form that can be copied.
ghost use Rattle.std.specs.Prelude.{◌≡◌, ◌≤◌, length};
ghost use Rattle.domain.specs.Limits.{periods};

use crate::MAX_FIGURES;
use crate::numbers::padded;
use arrayvec::ArrayVec;

// The first `count` of the array; the others are 0. It is no `ArrayVec`: that cannot be copied, and an entry can.
#[derive(Clone, Copy, Debug, PartialEq, Eq)]
pub struct Figures {
    all: [u32; MAX_FIGURES],
    count: u8,
    ghost few: { count ≤ periods },
}

impl Figures {
    ghost use Rattle.seasonlines.specs.Lists.{figures_of, figures_in};

    pub fn of(numbers: &ArrayVec<u32, MAX_FIGURES>) -> Figures
        ensures is { result ≡ figures_of numbers.now.items }
        ensures holds { figures_in result ≡ numbers.now.items }
    {
        Figures {
            all: padded(numbers),
            count: numbers.len() as u8,
        }
    }

    pub fn as_slice(&self) -> &[u32]
        ensures is { result.now ≡ figures_in self.now }
        ensures few { length result.now ≤ periods }
    {
        &self.all[..usize::from(self.count)]
    }
}
