// How much work is done.
ghost use Rattle.std.specs.Prelude.{◌≡◌};

// The most values, and the widest spacing.
const VALUES: u32 = 400_000;

// So many values of this width, of which every spacing-th is 1, and so many times the work.
#[derive(Clone, Copy)]
pub struct Load {
    pub width: u8,
    pub count: u32,
    pub spacing: u32,
    pub times: usize,
}

impl Load {
    pub fn new(width: u64, count: u64, spacing: u64, times: u64) -> Option<Load> {
        let width = u8::try_from(width).ok()?;
        let count = u32::try_from(count).ok()?;
        let spacing = u32::try_from(spacing).ok()?;
        if width > 64 || count > VALUES || spacing > VALUES {
            return None;
        }
        Some(Load {
            width,
            count,
            spacing,
            times: times as usize,
        })
    }

    // Does the work so many times, the turn's number handed in, and adds up what it answers.
    pub fn total<F: FnMut(usize) -> u64>(self, mut turn: F) -> u64
        requires { F.IsAlwaysCallable turn }
    {
        let mut sum = 0u64;
        for i in 0..self.times {
            sum = sum.wrapping_add(turn(i));
        }
        sum
    }
}
