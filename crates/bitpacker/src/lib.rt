// Packs values of any widths into a stream of bits: `BitPacker` of the Rust's src/bitpacker.rs. The
// output is lent at each call, and a call that cannot be met is refused and changes nothing.
#![tactic(auto)]

ghost use Rattle.std.specs.Prelude.{◌≡◌, ◌^◌, ◌≤◌, leb, length};
ghost use Rattle.bitpacker.specs.Packer.{outcome, fresh, emit, damaged_packer, write_of, flush_of};

use refusal::Refusal;

// The bits that wait until 64 are complete, lowest first, and how many they are. The fields are open, as
// in the Rust, so a packer may come in with any values in them: each call judges it first.
#[derive(Clone, Copy, Debug, PartialEq, Eq)]
pub struct BitPacker {
    pub mini_buffer: u64,
    pub mini_buffer_written: usize,
}

// The packer as it goes on, and how many bytes were emitted.
#[derive(Clone, Copy, Debug, PartialEq, Eq)]
pub struct Written {
    pub packer: BitPacker,
    pub emitted: usize,
}

// Whether x has a bit at `bits` or above.
#[tactic(auto, using(crate::proofs::Laws::over_law, crate::proofs::Laws::none_over))]
pub fn exceeds(x: u64, bits: usize) -> bool
    ensures { result ≡ leb (2 ^ bits) x }
{
    bits < 64 && x >> bits != 0
}

// The eight bytes of x, least first, at the start of the output. It compiles to one store.
fn store_word(x: u64, output: &mut [u8])
    requires { 8 ≤ length output.old }
    ensures { output.new ≡ emit 8 x output.old }
{
    output[..8].copy_from_slice(&x.to_le_bytes());
}

// The n lowest bytes of x, least first, at the start of the output. Byte by byte: to copy as many as n says is a call of the C
// library, with which the functions for C would have to be linked.
fn store_bytes(x: u64, n: usize, output: &mut [u8])
    requires { (n ≤ 8) × (n ≤ length output.old) }
    ensures { output.new ≡ emit n x output.old }
{
    let mut rest = x;
    for place in output[..n].iter_mut() {
        *place = (rest % 256) as u8;
        rest /= 256;
    }
}

impl BitPacker {
    // A packer that holds nothing.
    pub fn new() -> BitPacker
        ensures { result ≡ fresh }
    {
        BitPacker {
            mini_buffer: 0,
            mini_buffer_written: 0,
        }
    }

    // Document 01's "Damaged", of a packer.
    #[tactic(auto, unfolding(crate::specs::Packer::damaged_packer))]
    fn damaged(self) -> bool
        ensures { result ≡ damaged_packer self }
    {
        64 <= self.mini_buffer_written || exceeds(self.mini_buffer, self.mini_buffer_written)
    }

    // Puts a value of num_bits bits above those held. Once 64 are complete, eight bytes go to the start
    // of the output.
    pub fn write(self, val: u64, num_bits: u8, output: &mut [u8]) -> Result<Written, Refusal>
        ensures { outcome result output.new ≡ write_of self val num_bits output.old }
    {
        if self.damaged() {
            return Err(Refusal::Damaged);
        }
        if 64 < num_bits {
            return Err(Refusal::BadWidth);
        }
        let width = usize::from(num_bits);
        if exceeds(val, width) {
            return Err(Refusal::TooWide);
        }
        let held = self.mini_buffer;
        let held_bits = self.mini_buffer_written;
        let bits = held_bits + width;
        let word = held | val << held_bits;
        if bits < 64 {
            return Ok(Written {
                packer: BitPacker {
                    mini_buffer: word,
                    mini_buffer_written: bits,
                },
                emitted: 0,
            });
        }
        if output.len() < 8 {
            return Err(Refusal::NoRoom);
        }
        store_word(word, output);
        Ok(Written {
            packer: BitPacker {
                mini_buffer: val >> 1 >> (63 - held_bits),
                mini_buffer_written: bits - 64,
            },
            emitted: 8,
        })
    }

    // Emits what is held, the last byte filled up with zero bits, and holds nothing then.
    pub fn flush(self, output: &mut [u8]) -> Result<Written, Refusal>
        ensures { outcome result output.new ≡ flush_of self output.old }
    {
        if self.damaged() {
            return Err(Refusal::Damaged);
        }
        let n = self.mini_buffer_written.div_ceil(8);
        if output.len() < n {
            return Err(Refusal::NoRoom);
        }
        store_bytes(self.mini_buffer, n, output);
        Ok(Written {
            packer: BitPacker::new(),
            emitted: n,
        })
    }

    // The same as a flush, as in the Rust.
    pub fn close(self, output: &mut [u8]) -> Result<Written, Refusal>
        ensures { outcome result output.new ≡ flush_of self output.old }
    {
        self.flush(output)
    }
}
