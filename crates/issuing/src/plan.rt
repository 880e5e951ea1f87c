// A day that is to be issued, and what is in force on it.
ghost use Rattle.std.specs.Prelude.{◌≡◌, ◌<◌, length};
ghost use Rattle.domain.specs.Slots.{reading_slots};

use super::Order;
use super::sheet::Sheet;

// Its day is one of its terms, and the readings have the size that they give.
#[derive(Drop)]
pub struct Plan<'a, 's, R> {
    pub order: Order<'a, R>,
    pub sheet: &'s Sheet,
    ghost day: { order.day < order.terms.days },
    ghost meter: { length order.readings.now ≡ reading_slots order.terms.days },
}
