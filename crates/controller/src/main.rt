// The controller: mills a pocket from one list memory and tallies the passes in another.
#![tactic(auto)]

use job::Job;
use stop::Stop;
use store::bank::BankStore;
use write_back::WriteBack;

mod ending;
mod job;
mod lists;
mod pocket;
mod room;
mod stop;
mod told;

fn main(rt: HostRuntime) -> Result<(), Stop> {
    let mut even = [0; 64];
    let mut odd = [0; 64];
    let mut even_counts = [0; 14];
    let mut odd_counts = [0; 14];
    let mut job = Job::new(
        WriteBack::new(BankStore::new(&mut even, &mut odd)),
        WriteBack::new(BankStore::new(&mut even_counts, &mut odd_counts)),
    );
    let done = job.run(&rt);
    let (moves, tallies) = job.finish();
    let _ = moves.settle();
    let _ = tallies.settle();
    done
}
