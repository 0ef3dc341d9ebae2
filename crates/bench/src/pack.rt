// Packing.
use crate::areas::{BYTES, area};
use crate::load::Load;
use bitpacker::BitPacker;

// Every spacing-th value is 1.
pub fn value_at(i: u32, spacing: u32) -> u64 {
    if spacing == 0 {
        return 0;
    }
    u64::from(i % spacing == 0)
}

// Packs the values, each made of its index, at the start of the bytes, and answers how many bytes were emitted, or nothing
// where a value is refused.
pub fn fill(width: u8, count: u32, spacing: u32, bytes: &mut [u8]) -> Option<u64> {
    let mut packer = BitPacker::new();
    let mut at: usize = 0;
    for i in 0..count {
        // Not `get_mut(at..)?`, which takes two instructions more for each value, nor a `Result`, whose `?` takes three.
        if at > bytes.len() {
            return None;
        }
        let written = packer
            .write(value_at(i, spacing), width, &mut bytes[at..])
            .ok()?;
        packer = written.packer;
        at = at.wrapping_add(written.emitted);
    }
    let written = packer.flush(bytes.get_mut(at..)?).ok()?;
    Some(at.wrapping_add(written.emitted) as u64)
}

// Twice the same would be done once: the spacing is now one, now the next.
pub fn work(load: Load) -> u64 {
    let mut bytes = area::<u8, BYTES>(0);
    load.total(|turn| {
        let spacing = load.spacing.wrapping_add((turn % 2) as u32);
        fill(load.width, load.count, spacing, &mut bytes).unwrap_or(0)
    })
}
