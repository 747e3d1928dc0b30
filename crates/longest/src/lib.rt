// How long a run can take: the worst case of a flow with every worker named once in each stretch.
#![tactic(auto)]

ghost use Rattle.longest.specs.Answers.{answer_by};
ghost use Rattle.longest.specs.Promises.{WorstCasePromise};

use refusal::Refusal;

// The flow's total and the worst case: the most stretches, the most steps, and the most of them that are held.
#[derive(Clone, Copy)]
pub struct Longest {
    pub total: u32,
    pub stretches: u32,
    pub steps: u32,
    pub held: u32,
}

// The worst case of a flow file, or the first refusal met.
pub fn worst_case(file: &[u8]) -> Result<Longest, Refusal>
    ensures { WorstCasePromise file.now (answer_by result) }
{
    let measured = measure::measure(file)?;
    let flow = measured.flow;
    let stretches = measured.total - flow.tasks * (flow.workers - 1);
    let steps = stretches * flow.workers;
    Ok(Longest {
        total: measured.total,
        stretches,
        steps,
        held: steps - measured.total,
    })
}
