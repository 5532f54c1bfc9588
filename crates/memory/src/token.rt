// What a hold hands out, and what a refused back hands back.
ghost use Rattle.std.specs.Prelude.{◌≡◌, ◌<◌, true, false};

use machine::faults::MemoryFault;

// The right to one taken hold place. Only a hold makes one, and it is let go only once a back has spent it.
pub struct Token {
    number: u32,
    place: usize,
    // a flag and no type of its own: what may be dropped is the very token that a back has spent
    spent: bool,
    ghost there: { place < 8 },
}

impl Drop for Token {
    fn drop(self)
        requires { self.spent ≡ true }
    {
        let Token {
            number: _,
            place: _,
            spent: _,
        } = self;
    }
}

// A refusal of back, with the token that was not spent.
#[derive(Drop)]
pub struct Kept {
    pub fault: MemoryFault,
    pub token: Token,
}

impl Token {
    pub(crate) fn new(number: u32, place: usize) -> Token
        requires { place < 8 }
        ensures number { result.number ≡ number }
        ensures place { result.place ≡ place }
        ensures spent { result.spent ≡ false }
    {
        Token {
            number,
            place,
            spent: false,
        }
    }

    pub(crate) fn number(&self) -> u32
        ensures { result ≡ self.now.number }
    {
        self.number
    }

    pub(crate) fn place(&self) -> usize
        ensures answer { result ≡ self.now.place }
        ensures there { result < 8 }
    {
        self.place
    }

    // A spent token may be let go.
    pub(crate) fn spend(self) {
        let mut token = self;
        token.spent = true;
    }
}
