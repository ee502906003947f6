//! The trees of worked programs, with which the definitions of the meaning are computed.
#![tactic(auto)]
