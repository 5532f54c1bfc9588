// Laws of the console's language: words and lines, spelling, and commands that are read as they are written.
#![tactic(auto)]

ghost use Rattle.language.specs.Laws.{WordsRejoin, LinesReturn, SpellingDecides, CommandsReturn};

#[tactic(auto, using(crate::proofs::Words::words_make_the_line, crate::proofs::Words::words_have_no_space, crate::proofs::Words::words_cut_again))]
pub fn words_rejoin()
    ensures answer { WordsRejoin }
{}

#[tactic(auto, using(crate::proofs::Lines::lines_cut_again))]
pub fn lines_return()
    ensures answer { LinesReturn }
{}

#[tactic(auto, using(crate::proofs::Spelling::spelling_decides))]
pub fn spelling_decides()
    ensures answer { SpellingDecides }
{}

#[tactic(auto, using(crate::proofs::Commands::commands_return))]
pub fn commands_return()
    ensures answer { CommandsReturn }
{}
