// The worked examples, as one theorem over the table of them; an instance of all that a run's promise asks for; what any dispatcher over IZL tells.
#![tactic(auto)]

ghost use Rattle.std.specs.Prelude.{◌≡◌};
ghost use Rattle.dispatch.specs.Counts.{frame_start};
ghost use Rattle.dispatch.specs.Runs.Call.{next_slice};
ghost use Rattle.dispatch.specs.Runs.{Does};
ghost use Rattle.examples.specs.Instance.{Running, smallest};
ghost use Rattle.examples.specs.Known.{Known, NoneIdle};
ghost use Rattle.examples.specs.Worked.{Worked};
ghost use Rattle.izl.specs.Told as izl;
ghost use Rattle.startup.specs.Startup.{LaunchedFile};
ghost use Rattle.wrap.specs.Told.{told};

use dispatch::{Dispatcher, Stamped};
use izl::Izl;
use local::LocalScheduler;
use refusal::{DispatchFault, SheetFault};
use startup::launch_file;
use wrap::Wrap;

// The file of task (2, 1) on one core with the share 1 and no note.
const SMALLEST: [u8; 24] = [
    0, 0, 0, 2, 0, 0, 0, 1, 0, 0, 0, 1, 0, 0, 0, 0, 0, 0, 0, 8, 1, 1, 0, 1,
];

// Where a frame of this length begins.
fn start_of(length: u32, frame: u32) -> u64
    ensures { result ≡ frame_start length frame }
{
    u64::from(frame) * u64::from(length)
}

// The examples hold; told are the starts of two late frames of 1000 ticks, which do not fit 32 bits.
pub fn worked_examples() -> (u64, u64)
    ensures examples { Worked }
    ensures starts { result ≡ (frame_start 1000 4294967, frame_start 1000 4294968) }
{
    (start_of(1000, 4_294_967), start_of(1000, 4_294_968))
}

// Launches the smallest plan at frame 0.
fn launch_smallest(scheduler: Wrap) -> Result<Dispatcher<Wrap>, SheetFault>
    ensures { LaunchedFile told smallest scheduler 0 result }
{
    launch_file(&SMALLEST, scheduler, 0)
}

// A dispatcher that runs the smallest plan: what the promises have as conditions can be met.
pub fn smallest_plan() -> Dispatcher<Wrap>
    ensures { Running result }
{
    launch_smallest(Wrap::new()).unwrap()
}

// The next slice of a dispatcher over IZL that ran before, by whatever calls.
#[tactic(auto, using(crate::proofs::Next::none_idle))]
pub fn next_by_izl(run: &mut Dispatcher<Izl>) -> Result<Stamped, DispatchFault>
    ensures known { Known run.old }
    ensures does { Does izl.told run.old (next_slice result) run.new }
    ensures none_idle { NoneIdle result run.new }
{
    run.next_slice()
}
