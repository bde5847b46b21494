// How many: the majority of a rack, and whether a rack is of two.
ghost use Rattle.std.specs.Prelude.{◌≡◌};
ghost use Rattle.rack.specs.Racks as racks;

// More than half of n keys.
pub fn majority(n: u8) -> u8
    ensures { result ≡ racks.majority n }
{
    n / 2 + 1
}

// Whether a rack is of two keys.
pub fn is_of_two(rack: &[u8]) -> bool
    ensures { result ≡ racks.is_of_two rack.now }
{
    rack.first() == Some(&2)
}
