// The line that frames go over, and the seal that closes their blocks. It borrows both, so that whoever has only borrowed a line
// can open and build.
#[derive_where(Clone, Copy)]
pub struct Wire<'a, L, S> {
    pub line: &'a L,
    pub seal: &'a S,
}
