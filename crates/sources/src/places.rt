//! Where a carrier or a job is, and how far it is from one place to another.
ghost use Rattle.std.specs.Prelude.{◌≡◌};
ghost use Rattle.sources.specs.Travel.{travel_of, worth_between};

/// A place in the warehouse: the numbers of its aisle and of its level.
#[derive(Clone, Copy, PartialEq, Eq, Debug)]
pub struct Place {
    pub aisle: u16,
    pub level: u16,
}

/// 4 for each aisle between the places, and 7 for each level. The way back is as long.
pub fn travel(from: Place, to: Place) -> u32
    ensures value { result ≡ travel_of from to }
    ensures symmetric { result ≡ travel_of to from }
{
    4 * u32::from(from.aisle.abs_diff(to.aisle)) + 7 * u32::from(from.level.abs_diff(to.level))
}

/// What is left of the reach after the travel; 0 if the travel is not below the reach. The way back is worth the same.
pub fn worth(reach: u32, from: Place, to: Place) -> u32
    ensures value { result ≡ worth_between reach from to }
    ensures symmetric { result ≡ worth_between reach to from }
{
    reach.saturating_sub(travel(from, to))
}
