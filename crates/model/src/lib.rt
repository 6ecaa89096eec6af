// The definitions that every contract and theorem cites stand in specs/; this crate has no code.
#![tactic(auto)]
