//! What programs become where their meaning is told, made by code: plain trees in which each name, type and operator is settled.
#![tactic(auto)]

mod assigning;
mod contracts;
mod expressions;
mod formulas;
mod kinds;
mod olds;
mod operations;
mod places;
mod sending;
mod sight;
mod simple;
mod site;
mod statements;
