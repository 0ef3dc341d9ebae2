// The large areas, each made in a function of its own: where one is made and used in one function, the check of every call
// that takes it goes through all its elements.
ghost use Rattle.std.specs.Prelude.{◌≡◌, ◌≤◌, length};

// The most bytes of a column or of a store.
pub(crate) const BYTES: usize = 400_064;

// As many positions as there are values at most.
pub(crate) const POSITIONS: usize = 400_000;

// Entry words for as many blocks as the values can take.
pub(crate) const ENTRIES: usize = 6_252;

pub(crate) fn area<T: Copy, const N: usize>(zero: T) -> [T; N]
    ensures { N ≡ length result }
{
    [zero; N]
}

// How many bytes of the area are lent for so many values. A number that the compiler does not know, as the length of a
// caller's data is not known.
pub(crate) fn bytes_lent(count: u32) -> usize
    ensures { result ≤ 400064 }
{
    BYTES.min(8 * count as usize + 64)
}
