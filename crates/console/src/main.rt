// The console: commands from standard input, a transcript to standard output.
#![tactic(auto)]

ghost use Rattle.console.specs.Console.{console_machine};
ghost use Rattle.session.specs.Transcript.{transcript};
ghost use Rattle.std.specs.Prelude.{◌≡◌, IfOk, string_bytes};
ghost use Rattle.words.specs.Pieces.{lines_of};

use memory::memory::ListMemory;
use session::session::session;
use std::alloc::{AllocError, Global};
use std::io;
use std::io::Read;
use store::bank::BankStore;
use write_back::WriteBack;

const MOST_INPUT: u64 = 16_384;

fn main(rt: HostRuntime) -> io::Result<()> {
    let mut text = Vec::new(rt.alloc());
    rt.stdin().take(MOST_INPUT).read_to_end(&mut text)?;
    rt.print(run(rt.alloc(), text.as_slice())?)
}

// A session on a fresh memory, over the write-back layer on two banks of 32 words.
fn run(heap: Global, text: &[u8]) -> Result<String, AllocError>
    ensures answer { IfOk result (λ s. string_bytes s ≡ transcript 1 console_machine (lines_of text.now)) }
{
    let mut even = [0; 32];
    let mut odd = [0; 32];
    let mut memory = ListMemory::new(WriteBack::new(BankStore::new(&mut even, &mut odd)));
    let transcript = session(heap, &mut memory, text);
    let _ = memory.finish().settle();
    transcript
}
