ghost use Rattle.std.specs.Prelude.{◌≡◌, ◌<◌, ◌^◌};
ghost use Rattle.cal_gen.specs.Draws.{drawn, next};

/// The draws of the generator: each makes a number of 31 bits of the last one.
#[derive(Clone, Copy, Debug)]
pub struct Draws {
    /// The last one, or the seed.
    pub x: u32,
}

impl Draws {
    /// Draws from so many, of which there is at least one.
    #[tactic(auto, unfolding(crate::specs::Draws::next, crate::specs::Draws::drawn))]
    pub fn draw(&mut self, count: u32) -> u32
        requires { 0 < count }
        ensures next { self.new.x ≡ next self.old.x }
        ensures drawn { result ≡ drawn count self.new.x }
        ensures below { result < count }
    {
        let x = (1_103_515_245 * u64::from(self.x) + 12_345) % 2_147_483_648;
        self.x = x as u32;
        self.x / 65_536 % count
    }
}
