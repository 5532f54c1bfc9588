// What a console line asks of the list memory. Numbers are as written: registers may be any.
use atom::axis::AxisWord;

#[derive(Clone, Copy)]
pub enum Command {
    Open(usize, usize),
    Set(usize, AxisWord),
    Cons(usize, usize, usize),
    Car(usize, usize),
    Cdr(usize, usize),
    Rplaca(usize, usize),
    Rplacd(usize, usize),
    Load(usize, usize),
    Clear(usize),
    Look(usize),
    Same(usize, usize),
}
