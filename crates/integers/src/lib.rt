// Laws of the integers, all in specs/: no code.
#![tactic(auto)]
