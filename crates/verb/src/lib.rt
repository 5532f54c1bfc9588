// The command words of the console.
#![tactic(auto)]

ghost use Rattle.std.specs.Prelude.{◌≡◌};
ghost use Rattle.std.specs.Result.{result_ok};
ghost use Rattle.verb.specs.Verbs.{verb_of};

#[derive(Clone, Copy)]
pub enum Verb {
    Open,
    Set,
    Cons,
    Car,
    Cdr,
    Rplaca,
    Rplacd,
    Load,
    Clear,
    Look,
    Same,
}

// A word that is no command word.
#[derive(Clone, Copy, PartialEq, Eq, Debug)]
pub struct NoVerb;

impl<'a> TryFrom<&'a [u8]> for Verb {
    type Error = NoVerb;

    ghost try_from_gives = { λ word res. result_ok res ≡ verb_of word.now };

    fn try_from(word: &'a [u8]) -> Result<Self, NoVerb> {
        match word {
            b"open" => Ok(Verb::Open),
            b"set" => Ok(Verb::Set),
            b"cons" => Ok(Verb::Cons),
            b"car" => Ok(Verb::Car),
            b"cdr" => Ok(Verb::Cdr),
            b"rplaca" => Ok(Verb::Rplaca),
            b"rplacd" => Ok(Verb::Rplacd),
            b"load" => Ok(Verb::Load),
            b"clear" => Ok(Verb::Clear),
            b"look" => Ok(Verb::Look),
            b"same" => Ok(Verb::Same),
            _ => Err(NoVerb),
        }
    }
}
