ghost use Rattle.std.specs.Prelude.{◌≡◌, ◌+◌, ◌-◌, ◌<◌, ◌≤◌};
ghost use Rattle.sink.specs.Answers.{begin_answer, take_answer};

use crate::refusal::{NoRoom, TooLong};

/// How many bytes were announced to a sink, and how many of them it has taken.
#[derive(Drop)]
pub struct Meter {
    announced: usize,
    taken: usize,
    pub ghost within: { taken ≤ announced },
}

impl Meter {
    /// Nothing announced and nothing taken, as after begin with 0.
    pub fn new() -> Meter
        ensures { (result.announced ≡ 0) × (result.taken ≡ 0) }
    {
        Meter {
            announced: 0,
            taken: 0,
        }
    }

    /// How many bytes were taken.
    pub fn taken(&self) -> usize
        ensures { result ≡ self.now.taken }
    {
        self.taken
    }

    /// How many bytes may still come.
    pub fn room(&self) -> usize
        ensures { result ≡ self.now.announced - self.now.taken }
    {
        self.announced - self.taken
    }

    /// Announces `n` bytes to a sink of this capacity and starts afresh, or refuses and changes nothing.
    pub fn begin(&mut self, n: usize, capacity: usize) -> Result<(), TooLong>
        ensures answer { result ≡ begin_answer n capacity }
        ensures announced { n ≤ capacity → self.new.announced ≡ n }
        ensures taken { n ≤ capacity → self.new.taken ≡ 0 }
        ensures refused { capacity < n → self.new ≡ self.old }
        ensures fits { self.old.announced ≤ capacity → self.new.announced ≤ capacity }
    {
        if n > capacity {
            return Err(TooLong { capacity });
        }
        self.announced = n;
        self.taken = 0;
        Ok(())
    }

    /// Counts `n` more bytes as taken, or refuses and changes nothing.
    pub fn take(&mut self, n: usize) -> Result<(), NoRoom>
        ensures answer { result ≡ take_answer self.old.taken self.old.announced n }
        ensures taken { self.old.taken + n ≤ self.old.announced → self.new.taken ≡ self.old.taken + n }
        ensures announced { self.new.announced ≡ self.old.announced }
        ensures refused { self.old.announced < self.old.taken + n → self.new ≡ self.old }
    {
        let room = self.room();
        if n > room {
            return Err(NoRoom { room });
        }
        self.taken += n;
        Ok(())
    }
}
