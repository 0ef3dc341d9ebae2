// What is asked of values alone.
use crate::areas;
use crate::areas::front;
use crate::line::{first, low_u32};
use crate::say::{say, say_area};

// `N`, answered by its width.
pub fn num_bits(rt: &impl Print, step: &[u64]) {
    let [number] = first::<1>(step);
    say(rt, &[u64::from(num_bits::compute_num_bits(number))]);
}

fn say_both(rt: &impl Print, port: Option<(u64, u64)>) {
    match port {
        None => say(rt, &[0]),
        Some((lowest, highest)) => say(rt, &[1, lowest, highest]),
    }
}

// `V0 V1 ..`, answered by 0 for none, or by 1, the lowest and the highest.
pub fn minmax(rt: &impl Print, values: &[u64]) {
    say_both(rt, num_bits::minmax(values));
}

const SIGN: u64 = 0x8000_0000_0000_0000;

// The pattern of infinity: those above it, but for the sign, are the NaNs'.
const INFINITY: u64 = 0x7ff0_0000_0000_0000;

const NAN: u64 = 0x7ff8_0000_0000_0000;

// Which NaN it is makes no difference to any comparison.
#[tactic(auto, using(std::proofs::lemmas::Float::not_nan_f64_bits))]
fn float_of(pattern: u64) -> f64 {
    if pattern % SIGN > INFINITY {
        return f64::NAN;
    }
    f64::from_bits(pattern)
}

// No recorded answer is a NaN, so one of the port's is a difference whatever its pattern.
fn pattern_of(x: f64) -> u64 {
    if x.is_nan() { NAN } else { x.to_bits() }
}

fn patterns_of(port: Option<(f64, f64)>) -> Option<(u64, u64)> {
    let (lowest, highest) = port?;
    Some((pattern_of(lowest), pattern_of(highest)))
}

// The same of floats with these patterns.
pub fn minmax_of_patterns(rt: &impl Print, patterns: &[u64]) {
    let mut room = areas::room(0.0);
    let floats = front(&mut room, patterns.len() as u64);
    for (float, pattern) in floats.iter_mut().zip(patterns) {
        *float = float_of(*pattern);
    }
    say_both(rt, patterns_of(num_bits::minmax(floats)));
}

// Puts the values, which have 32 bits, into as many places.
fn narrow(values: &[u64], places: &mut [u32]) {
    for (place, value) in places.iter_mut().zip(values) {
        *place = low_u32(*value);
    }
}

// `LO HI OFFSET V0 V1 ..`, answered by 0, by how many ids there are, and by every place of the slice.
pub fn filter(rt: &impl Print, step: &[u64]) {
    let [lo, hi, offset, values @ ..] = step else {
        say(rt, &[0xbad]);
        return;
    };
    let mut room = areas::room(areas::POSITION);
    let places = front(&mut room, values.len() as u64);
    narrow(values, places);
    let found = filter_vec::filter_vec_in_place(
        low_u32(*lo),
        low_u32(*hi),
        low_u32(*offset),
        places,
    );
    say_area(rt, &[0, found as u64], places);
}
