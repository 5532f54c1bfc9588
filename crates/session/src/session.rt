// A whole text: the transcript of its lines.
ghost use Rattle.semispace.specs.Formed.{FormedThrough};
ghost use Rattle.session.specs.Transcript.{machine_after, transcript};
ghost use Rattle.std.specs.Prelude.{◌≡◌, IfOk, string_bytes, OnOk};
ghost use Rattle.words.specs.Pieces.{lines_of};

use super::obey::respond;
use answer::reply::Reply;
use atom::axis::AxisWord;
use memory::memory::ListMemory;
use std::alloc::{AllocError, Global};
use store::words::Store;
use words::lines::Lines;

// Fails only for want of memory to write the transcript in.
#[tactic(auto, using(crate::proofs::Transcripts::one_more_reply, crate::proofs::Transcripts::one_more_turn, crate::proofs::Transcripts::all_written, crate::proofs::Transcripts::all_done))]
pub fn session<S: Store>(
    heap: Global,
    memory: &mut ListMemory<S, AxisWord>,
    text: &[u8],
) -> Result<String, AllocError>
    ensures answer { IfOk result (λ s. string_bytes s ≡ transcript 1 memory.old (lines_of text.now)) }
    ensures after { OnOk result (memory.new ≡ machine_after memory.old (lines_of text.now)) }
    ensures formed { FormedThrough memory.old memory.new }
{
    memory.formed();
    let mut out = String::new(heap);
    for (index, line) in Lines::new(text).enumerate() {
        let reply = Reply {
            line: index + 1,
            outcome: respond(memory, line),
        };
        out.push_str(format!(in heap; "{reply}\n")?.as_str())?;
    }
    Ok(out)
}
