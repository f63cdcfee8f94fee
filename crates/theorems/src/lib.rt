// What the definitions of `model` promise, where no function needs it. Nothing imports this crate. All of it is in specs/.
#![tactic(auto)]
