// Claims over all crates' definitions; no code.
#![tactic(auto)]
