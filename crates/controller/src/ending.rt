// How a feed stops.
ghost use Rattle.controller.specs.Endings.{is_ended};
ghost use Rattle.controller.specs.Told.{ending_text};
ghost use Rattle.std.specs.Prelude.{◌≡◌, Some};

use std::fmt;

// At the end of the list, or short of it.
#[derive(Clone, Copy)]
pub enum Ending {
    Ended,
    GoesOn,
}

impl From<bool> for Ending {
    ghost from_gives = { λ ended ending. is_ended ending ≡ ended };

    fn from(ended: bool) -> Ending {
        if ended { Ending::Ended } else { Ending::GoesOn }
    }
}

impl fmt::Display for Ending {
    ghost output = { λ ending. Some (ending_text ending) };

    fn fmt<W: fmt::Write>(&self, f: &mut fmt::Formatter<W>) -> fmt::Result {
        f.write_str(match self {
            Ending::Ended => "the list ended",
            Ending::GoesOn => "the list goes on",
        })
    }
}
