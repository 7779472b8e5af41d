// What stands for a number of a byte at the most.
ghost use Rattle.std.specs.Prelude.{◌≡◌, ℕ};

pub trait Numbered {
    ghost number: { Self → ℕ };

    fn number(&self) -> u8
        ensures { result ≡ number self.now };
}

impl Numbered for u8 {
    ghost number = { λ n. n };

    fn number(&self) -> u8 {
        *self
    }
}
