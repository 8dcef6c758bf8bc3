//! The draws of the generator.

ghost use Rattle.std.specs.Prelude.{◌≡◌, ◌/◌, ◌^◌};
ghost use Rattle.dl_work.specs.Draws.{next_state, first_drawn};

const FACTOR: u64 = 6364136223846793005;

const TERM: u64 = 1442695040888963407;

/// Where the generator stands.
#[derive(Drop)]
pub struct Draws {
    pub state: u64,
}

impl Draws {
    /// Makes a draw.
    pub fn draw(&mut self) -> u32
        ensures state { self.new.state ≡ next_state self.old.state }
        ensures number { result ≡ first_drawn self.old.state }
    {
        self.state = self.state.wrapping_mul(FACTOR).wrapping_add(TERM);
        (self.state >> 32) as u32
    }
}
