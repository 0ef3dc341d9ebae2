// The width of an amplitude, and the lowest and highest of a list: src/lib.rs of the Rust.
#![tactic(auto)]

ghost use Rattle.std.specs.Prelude.{◌≡◌, Bool, cond};
ghost use Rattle.std.specs.List.{position};
ghost use Rattle.bit_rule.specs.Width.{width_of};
ghost use Rattle.num_bits.specs.MinMax.{minmax_of};
ghost use Rattle.num_bits.specs.Order.{Ranks};

// A type whose `<` ranks its numbers, so that of some of them one is the lowest and one the highest.
// PartialOrd alone says less: by it a may be below c, and b neither above a nor below c.
pub trait Ranked: PartialOrd {
    // A value that is no number, as NaN, is below nothing and above nothing, and differs from itself.
    ghost is_number: { Self → Bool };

    // What `<` answers.
    ghost below: { Self → Self → Bool };

    ghost ranks: { Ranks Self.eq Self.partial_cmp is_number below };
}

impl Ranked for u64 {
    ghost use Rattle.std.specs.Prelude.{ltb};
    ghost use Rattle.num_bits.specs.Ranked.{every, whole_ranks};

    ghost is_number = { every };

    ghost below = { ltb };

    ghost ranks = { whole_ranks };
}

impl Ranked for f64 {
    ghost use Rattle.std.specs.Float.Ieee.{lt};
    ghost use Rattle.num_bits.specs.Ranked.{no_nan, float_ranks};

    ghost is_number = { no_nan };

    ghost below = { lt };

    ghost ranks = { float_ranks };
}

// The fewest bits that hold every value up to n, among the widths that can be read: document 01's
// width of n.
pub fn compute_num_bits(n: u64) -> u8
    ensures { result ≡ width_of n }
{
    let amplitude = 64 - n.leading_zeros();
    if amplitude <= 56 { amplitude as u8 } else { 64 }
}

// The lower of a value and the lowest so far, which is kept where the two are equal and where the
// value is NaN, since no comparison with a NaN holds.
fn lower<T: Ranked + Copy>(val: T, so_far: T) -> T
    ensures { result ≡ cond (T.below val so_far) val so_far }
{
    if val < so_far { val } else { so_far }
}

fn higher<T: Ranked + Copy>(val: T, so_far: T) -> T
    ensures { result ≡ cond (T.below so_far val) val so_far }
{
    if so_far < val { val } else { so_far }
}

// Where the first number stands. Only what is no number, as NaN, differs from itself.
fn first_number<T: Ranked>(vals: &[T]) -> Option<usize>
    ensures { result ≡ position T.is_number vals.now }
{
    vals.iter().position(|val| *val == *val)
}

// The lowest and the highest of some values, NaN left out, or nothing where that leaves none. Of equal
// values the one met first is kept.
pub fn minmax<T: Ranked + Copy>(vals: &[T]) -> Option<(T, T)>
    ensures { result ≡ minmax_of T.below T.is_number vals.now }
{
    let first = first_number(vals)?;
    let first_el = vals[first];
    let mut min_so_far = first_el;
    let mut max_so_far = first_el;
    let rest = &vals[first + 1..];
    for val in rest {
        min_so_far = lower(*val, min_so_far);
        max_so_far = higher(*val, max_so_far);
    }
    Some((min_so_far, max_so_far))
}
