//! Lists of places.
ghost use Rattle.esto_table.specs.Places.{IsRising, AreFrom};

/// The places at or after the given one.
pub fn places_from(places: &[usize], least: usize) -> &[usize]
    requires { IsRising places.now }
    ensures { AreFrom least places.now result.now }
{
    let low = places.partition_point(|place| *place < least);
    &places[low..]
}
