ghost use Rattle.std.specs.Prelude.{◌*◌, ◌^◌, ◌<◌, ◌≤◌};

// A division of bits by a polynomial over two elements, under way: bit k of the divisor is the factor of x^k.
#[derive(Clone, Copy, PartialEq, Eq, Debug)]
pub struct Division {
    pub degree: u32,
    pub divisor: u16,
    pub rest: u16,
    ghost small: { degree ≤ 8 },
    ghost leading: { 2 ^ degree ≤ divisor },
    ghost whole: { divisor < 2 * 2 ^ degree },
    ghost below: { rest < 2 ^ degree },
}
