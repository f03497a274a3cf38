// Operator trees on rows: settings, facts, forms, the trees that `ensure_distribution` builds, and their order handling.
#![tactic(auto)]

pub mod child;
pub mod fact;
pub mod facts;
pub mod finish;
pub mod form;
pub mod kind;
pub mod lists;
pub mod mark;
pub mod need;
pub mod operator;
pub mod order;
pub mod ordered;
pub mod partitioning;
pub mod places;
pub mod relationship;
pub mod replace;
pub mod row;
pub mod settings;
pub mod settled;
pub mod status;
pub mod worked;
