//! The generator of a drill.
ghost use Rattle.std.specs.Prelude.{◌≡◌, ◌+◌, ◌*◌, ◌/◌, ◌^◌, [], ◌∷◌, ℕ};
ghost use Rattle.drill_case.specs.Draws.{next_state, state_after, draw};

// These numbers make every drill what it is: never change them.
const MULTIPLIER: u64 = 6_364_136_223_846_793_005;

const INCREMENT: u64 = 1_442_695_040_888_963_407;

/// The draws of a drill, from some place on.
#[derive(Drop)]
pub(crate) struct Draws {
    state: u64,
}

impl Draws {
    /// All draws of a drill.
    pub(crate) fn new(number: u32) -> Draws
        ensures { result.state ≡ state_after number 0 }
    {
        Draws {
            state: u64::from(number),
        }
    }

    fn next(&mut self) -> u32
        ensures state { self.new.state ≡ next_state self.old.state }
        ensures drawn { result ≡ self.new.state / 2 ^ 33 }
    {
        self.state = self.state.wrapping_mul(MULTIPLIER).wrapping_add(INCREMENT);
        (self.state >> 33) as u32
    }

    /// The next four draws.
    pub(crate) fn four(&mut self) -> [u32; 4]
        ensures { (number place : ℕ) → self.old.state ≡ state_after number place
            → (self.new.state ≡ state_after number (place + 4))
            × (result ≡ draw number place ∷ draw number (place + 1) ∷ draw number (place + 2) ∷ draw number (place + 3) ∷ []) }
    {
        let first = self.next();
        let second = self.next();
        let third = self.next();
        [first, second, third, self.next()]
    }

    /// Passes over so many times four draws.
    pub(crate) fn skip_fours(&mut self, count: u16)
        ensures { (number : ℕ) → self.old.state ≡ state_after number 0 → self.new.state ≡ state_after number (4 * count) }
    {
        for _four in 0..count {
            self.four();
        }
    }
}
