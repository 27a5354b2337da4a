//! Histories of calls on any machine: what leads where, and what is kept over every history. It has definitions and laws, and no code.
#![tactic(auto)]
