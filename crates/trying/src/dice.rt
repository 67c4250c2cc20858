// Numbers by chance, the same for the same seed: a generator of Marsaglia's, by shifts.
ghost use Rattle.std.specs.Prelude.{◌≡◌, ◌<◌};

#[derive(Clone, Copy)]
pub struct Dice {
    state: u64,
}

impl Dice {
    // A state of 0 would stay 0, so that it becomes another.
    pub fn new(seed: u64) -> Dice {
        let state = seed ^ 0x9E37_79B9_7F4A_7C15;
        Dice {
            state: if state == 0 { 1 } else { state },
        }
    }

    pub fn throw(&mut self) -> u64 {
        let mut x = self.state;
        x ^= x << 13;
        x ^= x >> 7;
        x ^= x << 17;
        self.state = x;
        x
    }

    // A number below another; 0 where there is none.
    pub fn below(&mut self, limit: u64) -> u64
        ensures { 0 < limit → result < limit }
    {
        let number = self.throw();
        if limit == 0 { 0 } else { number % limit }
    }
}
