// A line that is not understood.
#[derive(Clone, Copy, PartialEq, Eq, Debug)]
pub struct Misread {
    // of the first word not understood, missing or left over, or where a line grows too long
    pub column: usize,
}
