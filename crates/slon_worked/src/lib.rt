//! Worked sessions, whose replies are computed from the definitions. There is no code.
#![tactic(auto)]
