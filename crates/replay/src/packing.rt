// What is written by a packer, or by nobody.
use crate::areas::within;
use crate::line::{first, low_u8};
use crate::say::{number_of, say};
use bitpacker::{BitPacker, Written};
use refusal::Refusal;

// A packer, and how many bytes it has emitted.
#[derive(Clone, Copy)]
pub struct Packing {
    packer: BitPacker,
    emitted: usize,
}

impl Packing {
    // It has emitted nothing yet.
    pub fn new(packer: BitPacker) -> Packing {
        Packing { packer, emitted: 0 }
    }

    // A step of the packer is lent so many bytes behind those that it has emitted.
    fn behind<'a>(&self, room: u64, bytes: &'a mut [u8]) -> &'a mut [u8] {
        let from = self.emitted.min(bytes.len());
        let rest = &mut bytes[from..];
        let count = within(room, rest.len());
        &mut rest[..count]
    }

    // `ROOM WIDTH VALUE`
    pub fn write(&mut self, rt: &impl Print, step: &[u64], bytes: &mut [u8]) {
        let [room, width, value] = first::<3>(step);
        let output = self.behind(room, bytes);
        let port = self.packer.write(value, low_u8(width), output);
        self.after(rt, port);
    }

    // `ROOM`
    pub fn flush(&mut self, rt: &impl Print, step: &[u64], bytes: &mut [u8]) {
        let [room] = first::<1>(step);
        let output = self.behind(room, bytes);
        let port = self.packer.flush(output);
        self.after(rt, port);
    }

    // Answered by 0 and how many bytes were emitted, or by the number of the refusal, after which the packer goes
    // on as it was.
    fn after(&mut self, rt: &impl Print, port: Result<Written, Refusal>) {
        match port {
            Ok(written) => {
                self.packer = written.packer;
                self.emitted = self.emitted.wrapping_add(written.emitted);
                say(rt, &[0, written.emitted as u64]);
            }
            Err(_) => say(rt, &[number_of(port)]),
        }
    }
}

// Byte i of eight to a word, least first. The words are gone through again and again.
fn byte_of(words: &[u64], i: usize) -> u8 {
    if words.is_empty() {
        return 0;
    }
    words[i / 8 % words.len()].to_le_bytes()[i % 8]
}

// `FROM TO`, of a lent area: what lies from FROM to before TO.
fn part<'a, T>(step: &[u64], area: &'a mut [T]) -> &'a mut [T] {
    let [from, to] = first::<2>(step);
    let to = within(to, area.len());
    &mut area[within(from, to)..to]
}

// `FROM TO WORD0 WORD1 ..`: the bytes from FROM to before TO.
pub fn set_bytes(rt: &impl Print, step: &[u64], bytes: &mut [u8]) {
    let words = step.get(2..).unwrap_or(&[]);
    for (i, byte) in part(step, bytes).iter_mut().enumerate() {
        *byte = byte_of(words, i);
    }
    say(rt, &[0]);
}

// `FROM TO WORD`: the entry words from FROM to before TO.
pub fn set_entries(rt: &impl Print, step: &[u64], entries: &mut [u64]) {
    let [_, _, word] = first::<3>(step);
    part(step, entries).fill(word);
    say(rt, &[0]);
}
