// The rule of the house: seven methods, each a rule, and each row by the method that it names.
ghost use Rattle.std.specs.Prelude.{◌≡◌, false, ◌&&◌, MatchResult, nat_le};
ghost use Rattle.rules.specs.House.{method, house};
ghost use Rattle.rules.specs.Housed.{house_laws, method_laws};
ghost use Rattle.rules.specs.Methods.{number_of_method};

use super::{Blocks, CappedBlock, FirstBlock, FixedBlock, MultipleBlock, Percentage, Row, Rule};
use domain::UnknownNumber;

// The methods, by the numbers that rows have for them.
#[derive(Clone, Copy, PartialEq, Eq, Debug)]
enum Method {
    Percentage = 1,
    CappedBlock = 2,
    FixedBlock = 3,
    MultipleBlock = 4,
    PercentageAfterOne = 5,
    MultipleAfterOne = 6,
    PercentageAfterTwo = 7,
}

impl TryFrom<u8> for Method {
    type Error = UnknownNumber;

    ghost try_from_gives = { λ number r. MatchResult r (λ m. number_of_method m ≡ number) (λ e. (e.number ≡ number) × ((nat_le 1 number && nat_le number 7) ≡ false)) };

    fn try_from(number: u8) -> Result<Self, UnknownNumber> {
        match number {
            1 => Ok(Method::Percentage),
            2 => Ok(Method::CappedBlock),
            3 => Ok(Method::FixedBlock),
            4 => Ok(Method::MultipleBlock),
            5 => Ok(Method::PercentageAfterOne),
            6 => Ok(Method::MultipleAfterOne),
            7 => Ok(Method::PercentageAfterTwo),
            _ => Err(UnknownNumber { number }),
        }
    }
}

const PERCENTAGE_AFTER_ONE: FirstBlock<Percentage> = FirstBlock { below: Percentage };

const MULTIPLE_AFTER_ONE: FirstBlock<MultipleBlock> = FirstBlock { below: Blocks };

const PERCENTAGE_AFTER_TWO: FirstBlock<FirstBlock<Percentage>> = FirstBlock {
    below: PERCENTAGE_AFTER_ONE,
};

// What the rule of a method answers to a question. A macro, since no bound can be stated yet of a closure that takes a `&dyn Rule`.
macro_rules! ask {
    ($method:expr, $question:ident($($given:expr),+)) => {
        match $method {
            Method::Percentage => Percentage.$question($($given),+),
            Method::CappedBlock => CappedBlock.$question($($given),+),
            Method::FixedBlock => FixedBlock {}.$question($($given),+),
            Method::MultipleBlock => MultipleBlock {}.$question($($given),+),
            Method::PercentageAfterOne => PERCENTAGE_AFTER_ONE.$question($($given),+),
            Method::MultipleAfterOne => MULTIPLE_AFTER_ONE.$question($($given),+),
            Method::PercentageAfterTwo => PERCENTAGE_AFTER_TWO.$question($($given),+),
        }
    };
}

impl Rule for Method {
    ghost meaning = { λ m. method (number_of_method m) };

    ghost laws = { λ m. method_laws (number_of_method m) };

    fn is_lawful(&self, row: Row) -> bool {
        ask!(self, is_lawful(row))
    }

    fn share(&self, row: Row, period: u8, energy: u32, place: usize) -> i64 {
        ask!(self, share(row, period, energy, place))
    }
}

// The rule of the house: each row by the method that it names.
#[derive(Clone, Copy, PartialEq, Eq, Debug)]
pub struct House;

impl Rule for House {
    ghost meaning = { λ _. house };

    ghost laws = { λ x. house_laws };

    fn is_lawful(&self, row: Row) -> bool {
        match Method::try_from(row.method) {
            Ok(method) => method.is_lawful(row),
            Err(_) => false,
        }
    }

    fn share(&self, row: Row, period: u8, energy: u32, place: usize) -> i64 {
        // Of the rules of this crate only this one reads the method.
        match Method::try_from(row.method) {
            Ok(method) => method.share(row, period, energy, place),
            Err(_) => 0,
        }
    }
}
