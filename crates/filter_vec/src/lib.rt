// Keeps the ids of the values in an interval: the scalar `filter_vec_in_place` of the Rust's
// src/filter_vec/scalar.rs. The values are lent as a slice, which cannot be cut short, so the answer
// says how many ids there are.
#![tactic(auto)]

ghost use Rattle.std.specs.Prelude.{◌≡◌, ◌-◌, ◌^◌, min};
ghost use Rattle.bit_rule.specs.Search.{lies_between};
ghost use Rattle.filter_vec.specs.Filter.{filtered, filter_of};

// Whether a value lies in lo..=hi.
pub fn lies_between(lo: u64, hi: u64, val: u64) -> bool
    ensures { result ≡ lies_between lo hi val }
{
    (lo..=hi).contains(&val)
}

// How many of so many values have an id: those whose id, counted from the offset on, is a u32.
fn values_with_id(offset: u32, values: usize) -> usize
    ensures { result ≡ min (2 ^ 32 - offset) values }
{
    (0x1_0000_0000 - offset as usize).min(values)
}

// The ids of the values that lie in lo..=hi, at the start of the slice in place of the values; the
// rest of the slice stays. The id of the value at i is offset + i. A value whose id would pass
// 2^32 - 1 has none and is left alone.
pub fn filter_vec_in_place(lo: u32, hi: u32, offset: u32, output: &mut [u32]) -> usize
    ensures { filtered result output.new ≡ filter_of lo hi offset output.old }
{
    let end = values_with_id(offset, output.len());
    let mut count = 0;
    // A range and no iterator over the slice: one place is read and another written.
    for i in 0..end {
        if lies_between(u64::from(lo), u64::from(hi), u64::from(output[i])) {
            output[count] = offset + i as u32;
            count += 1;
        }
    }
    count
}
