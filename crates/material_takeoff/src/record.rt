//! The material list of a design.
ghost use Rattle.std.specs.Prelude.{◌≡◌};
ghost use Rattle.material_takeoff.specs.declared.record.TakeOffError.TheVariants.{NoMemory as out_of_memory};

use duct_units::{List, Name, NoMemory};

/// What the sections of one size take together.
#[derive(Clone, Copy)]
pub struct SizeUse {
    /// The name of the size.
    pub name: Name,
    /// How many sections are listed in it.
    pub count: u32,
    /// The length of these sections, mm.
    pub length: u64,
    /// The price of these sections, cents.
    pub price: u128,
}

/// The sizes of a design in order of first use, each with what is taken of it.
#[derive(Drop)]
pub struct TakeOff {
    /// The sizes, in order of first use.
    pub sizes: List<SizeUse>,
}

/// Why a design has no material list.
#[derive(Debug, Drop, PartialEq, Eq)]
pub enum TakeOffError {
    /// The section, counted from 1, that isn't listed by its name, or stands in one of the two lists alone.
    Names(u32),
    /// The listed total isn't the sum of the listed prices and the listed costs of the fans.
    Total,
    /// Memory ran out.
    NoMemory,
}

impl From<NoMemory> for TakeOffError {
    ghost from_gives = { λ _ error. error ≡ out_of_memory };

    fn from(_error: NoMemory) -> TakeOffError {
        TakeOffError::NoMemory
    }
}
