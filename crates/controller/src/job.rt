// The job: passes over a pocket, each tallied, and a contour too long for the memory.
ghost use Rattle.machine.specs.Machine.{shut_machine};
ghost use Rattle.std.specs.Prelude.{◌≡◌};

use crate::lists::Lists;
use crate::lists::fed::Fed;
use crate::pocket::{DOWN, depth, pass_at, retract, spiral, worn_depth};
use crate::stop::Stop;
use crate::told::{Outcome, tell_moves, tell_tally};
use atom::axis::AxisWord;
use atom::count::Count;
use machine::faults::MemoryFault;
use store::words::Store;

const PASSES: u8 = 6;

// the register that lists are built in, and the one that a list set aside comes back to
const LIST: usize = 0;

const KEPT: usize = 1;

// The moves of a pocket in one memory, and the tallies of its passes in another.
pub struct Job<S: Store, T: Store> {
    moves: Lists<S, AxisWord>,
    tallies: Lists<T, Count>,
}

impl<S: Store, T: Store> Job<S, T> {
    // Over two stores, with both memories shut.
    pub(crate) fn new(moves: S, tallies: T) -> Self
        ensures moves { result.moves.memory ≡ shut_machine (S.words moves) }
        ensures tallies { result.tallies.memory ≡ shut_machine (T.words tallies) }
    {
        Job {
            moves: Lists::new(moves),
            tallies: Lists::new(tallies),
        }
    }

    // The stores of the moves and of the tallies, as the memories leave them.
    pub(crate) fn finish(self) -> (S, T)
        ensures moves { S.words result.0 ≡ self.moves.memory.heap.words }
        ensures tallies { T.words result.1 ≡ self.tallies.memory.heap.words }
    {
        let Job { moves, tallies } = self;
        (moves.finish(), tallies.finish())
    }

    // Builds a pass, corrects its depth, and builds the retract while the pass is set aside.
    fn prepare(&mut self, pass: u8) -> Result<(), MemoryFault> {
        self.moves.build(LIST, &pass_at(depth(pass)))?;
        self.moves
            .replace(LIST, DOWN, AxisWord::Z(worn_depth(pass)))?;
        self.moves.build_next(LIST, &retract(), KEPT)
    }

    // Feeds the moves in a register and drops them.
    fn feed_out(&mut self, list: usize) -> Result<Fed<AxisWord>, MemoryFault> {
        let fed = self.moves.feed(list, AxisWord::T(0))?;
        self.moves.clear(list)?;
        Ok(fed)
    }

    // Drops the last tally for the next: passes done, words fed in all, and the depth.
    fn tally(&mut self, pass: u8, words: usize) -> Result<Fed<Count>, MemoryFault> {
        let counts = [
            Count {
                value: i32::from(pass),
            },
            Count {
                value: i32::try_from(words).unwrap_or(i32::MAX),
            },
            Count {
                value: worn_depth(pass),
            },
        ];
        self.tallies.build(LIST, &counts)?;
        self.tallies.feed(LIST, Count { value: 0 })
    }

    // Mills one pass, and says how many words were fed.
    fn mill(&mut self, rt: &HostRuntime, pass: u8) -> Result<usize, Stop> {
        println!(rt; "pass {pass}")?;
        self.prepare(pass)?;
        let moves = self.feed_out(KEPT)?;
        let retract = self.feed_out(LIST)?;
        tell_moves(rt, "moves", &moves)?;
        tell_moves(rt, "retract", &retract)?;
        Ok(moves.atoms().len().saturating_add(retract.atoms().len()))
    }

    // Mills and tallies every pass of the pocket.
    fn mill_pocket(&mut self, rt: &HostRuntime) -> Result<(), Stop> {
        let mut words = 0usize;
        for pass in 1..=PASSES {
            words = words.saturating_add(self.mill(rt, pass)?);
            tell_tally(rt, &self.tally(pass, words)?)?;
        }
        println!(rt; "tallies: {}", self.tallies.room())?;
        Ok(())
    }

    // Tries a spiral that is too long, feeds what was built of it and drops it.
    fn try_spiral(&mut self, rt: &HostRuntime) -> Result<(), Stop> {
        let answer = self.moves.build(LIST, &spiral());
        println!(rt; "spiral of 40 words: {}", Outcome(answer))?;
        let fed = self.feed_out(LIST)?;
        tell_moves(rt, "what stands of it", &fed)?;
        println!(rt; "  dropped, and there is room again")?;
        Ok(())
    }

    // The whole job, on two memories that are still shut.
    pub(crate) fn run(&mut self, rt: &HostRuntime) -> Result<(), Stop> {
        self.moves.open(2, 16, 1)?;
        self.tallies.open(2, 3, 2)?;
        self.mill_pocket(rt)?;
        self.try_spiral(rt)?;
        let _ = self.mill(rt, PASSES)?;
        println!(rt; "moves: {}", self.moves.room())?;
        Ok(())
    }
}
