// The numbers that a field of a line may be.
ghost use Rattle.std.specs.Prelude.{ℕ, ◌≤◌, SomeIff};
ghost use Rattle.std.specs.Option.{option_map};
ghost use Rattle.text.specs.Fields.{most8, most16, most32, most64};

// An unsigned number of a fixed width. The four impls are written out, since a verdict takes no impl that a macro writes.
pub trait Number: Drop {
    // The number that a value of this type is.
    ghost value: { Self → ℕ };

    ghost MOST: { ℕ };

    // The largest number of this type.
    const MOST: u64;

    // The number as this type, if it fits.
    fn fitting(number: u64) -> Option<Self>
        ensures { SomeIff (option_map value result) (number ≤ MOST) number };
}

impl Number for u8 {
    ghost value = { λ n. n };

    ghost MOST = { most8 };

    const MOST: u64 = u8::MAX as u64;

    fn fitting(number: u64) -> Option<u8> {
        u8::try_from(number).ok()
    }
}

impl Number for u16 {
    ghost value = { λ n. n };

    ghost MOST = { most16 };

    const MOST: u64 = u16::MAX as u64;

    fn fitting(number: u64) -> Option<u16> {
        u16::try_from(number).ok()
    }
}

impl Number for u32 {
    ghost value = { λ n. n };

    ghost MOST = { most32 };

    const MOST: u64 = u32::MAX as u64;

    fn fitting(number: u64) -> Option<u32> {
        u32::try_from(number).ok()
    }
}

impl Number for u64 {
    ghost value = { λ n. n };

    ghost MOST = { most64 };

    const MOST: u64 = u64::MAX;

    fn fitting(number: u64) -> Option<u64> {
        Some(number)
    }
}
