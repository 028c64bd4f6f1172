// Numbers that look random and follow from a seed alone.
ghost use Rattle.std.specs.Prelude.{◌-◌, ◌≤◌};

// A large odd number, without order in its bits.
const FACTOR: u64 = 0x2545_f491_4f6c_dd1d;

// A xorshift generator.
#[derive(Clone, Copy)]
pub struct Xorshift {
    state: u64,
}

impl Xorshift {
    // The bits of the seed are spread first. The state is never 0, where it would stay.
    pub fn new(seed: u64) -> Xorshift {
        Xorshift {
            state: seed.wrapping_mul(FACTOR) | 1,
        }
    }

    fn next(&mut self) -> u64 {
        let mut x = self.state;
        x ^= x >> 12;
        x ^= x << 25;
        x ^= x >> 27;
        self.state = x;
        x.wrapping_mul(FACTOR)
    }

    // A number of 32 bits.
    pub fn word(&mut self) -> u32 {
        (self.next() >> 32) as u32
    }

    // A number of 32 bits of which few are set, so that many such numbers begin alike.
    pub fn sparse(&mut self) -> u32 {
        self.word() & self.word() & self.word()
    }

    // A number below a bound; 0 where the bound is 0.
    pub fn below(&mut self, bound: u16) -> u16
        ensures { result ≤ bound - 1 }
    {
        let number = (self.next() >> 48) as u16;
        if bound == 0 { 0 } else { number % bound }
    }
}
