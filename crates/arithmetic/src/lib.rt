// Numbers as digits in a base, and division of polynomials over two elements.
#![tactic(auto)]

mod bits;
mod divide;
mod division;
mod numbered;

pub use bits::Bits;
pub use division::Division;
pub use numbered::Numbered;
