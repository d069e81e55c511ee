// The starred examples of paper 01, and those of paper 02, No. 8, are in specs/Starred.antt; this crate has no code.
#![tactic(auto)]
