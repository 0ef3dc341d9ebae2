// The bit rule of document 01: specs/ has the definitions that every other crate's contracts cite,
// proofs/ the laws about them. The code is what the crates above compute of the rule in common.
#![tactic(auto)]

ghost use Rattle.std.specs.Prelude.{◌≡◌, ◌*◌, ◌%◌, ◌^◌, ◌≤◌, ◌<◌};
ghost use Rattle.bit_rule.specs.Bytes.{bytes_for};

// How many bytes so many values of a width take, ceil(values * width / 8), in the low 64 bits: the
// product is taken in 128 bits, since in 64 it could wrap.
pub fn column_bytes(values: usize, width: usize) -> usize
    ensures cut { result ≡ bytes_for (values * width) % 2 ^ 64 }

    // Nothing is cut off below 2 ^ 61 values of at most 64 bits, more than the memory can hold.
    ensures whole { (values < 2 ^ 61) × (width ≤ 64) → result ≡ bytes_for (values * width) }
{
    let bits = values as u128 * width as u128;
    ((bits + 7) / 8 % 0x1_0000_0000_0000_0000) as usize
}
