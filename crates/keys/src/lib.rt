// Join keys: expressions, lists, codes, `try_reorder`, and what is answered; the rules stand in `adjust` and `inputs`.
#![tactic(auto)]

pub mod answer;
pub mod codes;
pub mod expr;
pub mod inputs;
pub mod list;
pub mod reorder;
