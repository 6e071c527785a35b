//! A channel's query, the records of its groups, and the laws by which these answer for its trace.
//!
//! A record may stand for several: where a query sees no more of each of them than of it, and it
//! brings to each kernel what they bring together, the groups are the same, and so is each result.
//! So a query that asks no more than a channel keeps has the same answer on the channel's profile
//! as on its trace. The order of rows isn't promised. Nothing here is ever run.
#![tactic(auto)]

mod laws;

pub use laws::{
    alike_answers_have_one_profile, alike_answers_have_the_same_rows, profiles_answer_for_traces,
    stand_ins_answer_alike, tables_have_the_groups_of_traces,
};
