// The one refusal of an atom kind.
ghost use Rattle.atom.specs.Refused.{kind_report};

use fault::{Layer, Refusal, Report};

#[derive(Clone, Copy, PartialEq, Eq, Debug)]
pub enum KindFault {
    // an atom outside its kind's ranges
    OutOfRange,
}

impl Refusal for KindFault {
    ghost told = { kind_report };

    fn report(self) -> Report {
        let KindFault::OutOfRange = self;
        Report {
            number: 8,
            layer: Layer::Kind,
            place: 0,
        }
    }
}
