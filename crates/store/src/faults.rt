// The one refusal of a store.
ghost use Rattle.std.specs.Prelude.{◌≡◌, if◌then◌else◌, Ok, Err, nat_lt};
ghost use Rattle.store.specs.Answers.{store_report};

use fault::{Layer, Refusal, Report};

#[derive(Clone, Copy, PartialEq, Eq, Debug)]
pub enum StoreFault {
    // a place at or past the end
    Outside(usize),
}

impl Refusal for StoreFault {
    ghost told = { store_report };

    fn report(self) -> Report {
        let StoreFault::Outside(place) = self;
        Report {
            number: 14,
            layer: Layer::Store,
            place,
        }
    }
}

// Refuses a place outside a store of this size.
pub fn inside(place: usize, size: usize) -> Result<(), StoreFault>
    ensures answer { result ≡ (if nat_lt place size then Ok tt else Err (StoreFault.Outside place)) }
{
    if place < size {
        Ok(())
    } else {
        Err(StoreFault::Outside(place))
    }
}
