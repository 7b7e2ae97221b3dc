// Which calls their input alone turns away. In the Rust most calls are methods, and such input cannot be made there.
ghost use Rattle.std.specs.Prelude.{◌≡◌};
ghost use Rattle.std.specs.Option.{option_map};
ghost use Rattle.head_call.specs.Inputs.{input_number, input_refusal, list_refusal, refusal_said, waiter_refusal};

use crate::{Call, InputRefusal};
use head_values::PreparedBal;
use head_values::read_hub::as_prepared;

// The refusal's number, or 0 where the input is taken: document 01's numbers, which a host is told.
#[tactic(auto, unfolding(crate::specs::Inputs::input_number, crate::specs::Inputs::refusal_said))]
pub fn input_number(refusal: Option<InputRefusal>) -> u64
    ensures { result ≡ input_number refusal }
{
    match refusal {
        None => 0,
        Some(InputRefusal::ListDisagrees) => 2,
        Some(InputRefusal::WaiterAbove15) => 3,
    }
}

#[tactic(auto, unfolding(crate::specs::Inputs::list_refusal))]
pub(crate) fn list_refusal(list: PreparedBal) -> Option<InputRefusal>
    ensures { result ≡ list_refusal list }
{
    (!as_prepared(list)).then_some(InputRefusal::ListDisagrees)
}

#[tactic(auto, unfolding(crate::specs::Inputs::waiter_refusal))]
pub(crate) fn waiter_refusal(n: u64) -> Option<InputRefusal>
    ensures { result ≡ waiter_refusal n }
{
    (n > 15).then_some(InputRefusal::WaiterAbove15)
}

// Asked before the state is looked at.
#[tactic(auto, unfolding(crate::specs::Inputs::input_refusal))]
pub fn input_refusal(call: Call) -> Option<InputRefusal>
    ensures { option_map refusal_said result ≡ option_map refusal_said (input_refusal call) }
{
    match call {
        Call::Apply(_, list, _, _, _) => list_refusal(list),
        Call::Wait(n, _, _) | Call::Resume(n, _) => waiter_refusal(n),
        Call::Deliver(_, _, _)
        | Call::Claim(_)
        | Call::Release(_)
        | Call::Snapshot(_, _)
        | Call::Completion(_)
        | Call::Link(_, _, _)
        | Call::Report
        | Call::Stats
        | Call::Heads => None,
    }
}
