// The handle account of the running program: what `model` proves of its definitions holds of what the methods of an
// instrument, and the functions over a host's numbers, reply and return.

#![tactic(auto)]

ghost use Rattle.account.specs.Code.{CallsAreSteps};
ghost use Rattle.account.specs.Methods.{HandleAccount};
ghost use Rattle.account.specs.Host.{HostHandleAccount};

mod c_functions;
mod methods;

// Every list of calls from an accepted start replies what `step` gives of the views, so the handle account is one of the code.
#[tactic(auto, using(crate::proofs::Steps::calls_are_steps))]
pub fn calls_are_steps()
    ensures { CallsAreSteps }
{}

// Of every list of calls from an accepted start, each on the state that the one before returned: its replies, and every
// state on the way.
#[tactic(auto, using(crate::proofs::Calls::code_account))]
pub fn handle_account()
    ensures { HandleAccount }
{}

// The same of every list of calls of the C functions, read off the numbers that a host is given.
#[tactic(auto, using(crate::proofs::Hosted::host_account))]
pub fn host_handle_account()
    ensures { HostHandleAccount }
{}
