// The two words of a cell. A value and no closure that picks one, since definitions and contracts name it.
#[derive(Clone, Copy)]
pub enum Side {
    Head,
    Tail,
}
