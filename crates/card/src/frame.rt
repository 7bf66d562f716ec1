// The frame length, and the checks of the tasks that it is made from.
ghost use Rattle.std.specs.Prelude.{◌≡◌, ◌+◌, ◌≤◌, length, MatchResult};
ghost use Rattle.refusal.specs.Table.{card_told, numbered};
ghost use Rattle.card.specs.Verdicts.{fine, gcd_in, lcm, judged_task, judged_tasks, frame_of};

use crate::types::Task;
use refusal::CardFault;

const MAX_PERIOD: u32 = 1_000_000;

const MAX_FRAME: u64 = 1_000_000;

// The greatest common divisor.
fn gcd(mut a: u32, mut b: u32) -> u32
    ensures divisor { result ≡ gcd_in (b + 1) a b }
    ensures some { 1 ≤ b → 1 ≤ result }
{
    while b != 0 {
        (a, b) = (b, a % b);
    }
    a
}

// The least common multiple.
fn common_multiple(a: u32, b: u32) -> u64
    requires { 1 ≤ b }
    ensures { result ≡ lcm a b }
{
    u64::from(a / gcd(a, b)) * u64::from(b)
}

// The common multiple of `multiple` and the period of the task with this number.
fn check_task(multiple: u32, number: u8, task: Task) -> Result<u32, CardFault>
    ensures { MatchResult result (λ m. (judged_task multiple number task ≡ fine) × (m ≡ lcm multiple task.period)) (λ e. card_told e ≡ numbered (judged_task multiple number task)) }
{
    if !(1..=MAX_PERIOD).contains(&task.period) {
        return Err(CardFault::Period(number));
    }
    if !(1..=task.period).contains(&task.run_time) {
        return Err(CardFault::RunTime(number));
    }
    let next = common_multiple(multiple, task.period);
    if next > MAX_FRAME {
        return Err(CardFault::LongFrame(number));
    }
    Ok(next as u32)
}

// The frame length of tasks that pass their checks, or the first fault.
pub(crate) fn frame_length(tasks: &[Task]) -> Result<u32, CardFault>
    requires { length tasks.now ≤ 32 }
    ensures { MatchResult result (λ h. (judged_tasks 1 1 tasks.now ≡ fine) × (h ≡ frame_of tasks.now)) (λ e. card_told e ≡ numbered (judged_tasks 1 1 tasks.now)) }
{
    let mut multiple = 1;
    for (i, task) in tasks.iter().enumerate() {
        multiple = check_task(multiple, i as u8 + 1, *task)?;
    }
    Ok(multiple)
}
