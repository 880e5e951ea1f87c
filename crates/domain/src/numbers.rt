// What tables, files and calls give as a number: the run of an issue and the quality of a reading.
ghost use Rattle.std.specs.Prelude.{◌≡◌};
ghost use Rattle.domain.specs.Numbers.{run_of, quality_of};

// The run of an issue. The final one closes its day.
#[derive(Clone, Copy, PartialEq, Eq, Debug)]
pub enum Run {
    Initial = 1,
    Final = 2,
}

const _: () = prove!(Run::Initial as u8 == 1 && Run::Final as u8 == 2);

// How the energy of a reading was found.
#[derive(Clone, Copy, PartialEq, Eq, Debug)]
pub enum Quality {
    Estimated = 1,
    Actual = 2,
}

const _: () = prove!(Quality::Estimated as u8 == 1 && Quality::Actual as u8 == 2);

// A number that stands for nothing of the kind asked for.
#[derive(Clone, Copy, PartialEq, Eq, Debug)]
pub struct UnknownNumber {
    pub number: u8,
}

impl TryFrom<u8> for Run {
    type Error = UnknownNumber;

    ghost try_from_gives = { λ number r. r ≡ run_of number };

    fn try_from(number: u8) -> Result<Self, UnknownNumber> {
        match number {
            1 => Ok(Run::Initial),
            2 => Ok(Run::Final),
            _ => Err(UnknownNumber { number }),
        }
    }
}

impl TryFrom<u8> for Quality {
    type Error = UnknownNumber;

    ghost try_from_gives = { λ number r. r ≡ quality_of number };

    fn try_from(number: u8) -> Result<Self, UnknownNumber> {
        match number {
            1 => Ok(Quality::Estimated),
            2 => Ok(Quality::Actual),
            _ => Err(UnknownNumber { number }),
        }
    }
}
