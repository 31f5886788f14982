// What the programs of typed cases share: how their text is taken, what a case hands in, and how a refusal is printed.
#![tactic(auto)]

pub mod handed;
pub mod refusal;
pub mod typed;
