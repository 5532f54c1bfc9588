// What a register shows: never an address.
#[derive(Clone, Copy, PartialEq, Eq, Debug)]
pub enum Sight<A> {
    Nil,
    Cell,
    Atom(A),
}
