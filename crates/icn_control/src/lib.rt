//! The machine that runs code: what each instruction does to its stacks and its world.
#![tactic(auto)]

mod activation;
mod coexpression_laws;
mod coexpressions;
mod collecting;
mod failing;
mod failing_step;
mod hops;
mod initial;
mod kept_errors;
mod keywords;
mod leaving;
mod limits;
mod lists;
mod literals;
mod machine;
mod marks;
mod on_stack;
mod opening;
mod operands;
mod plain_values;
mod returns;
mod scans;
mod texts;
mod transfers;
mod turns;
mod values;
mod world;

pub use activation::Activation;
pub use coexpression_laws::{creations_are_read, transfers_are_read};
pub use coexpressions::{create, refresh};
pub use failing::{AfterFailure, Fallen, fall, fall_at_once};
pub use failing_step::fail_once;
pub use hops::{exhaust, hop};
pub use initial::init;
pub use keywords::{keyword_item, push_keyword};
pub use leaving::end_failing;
pub use limits::{limit, limit_at_once};
pub use lists::{make_list, push_list};
pub use literals::{push_cset, push_global, push_integer, push_local, push_static};
pub use machine::{Machine, RunState};
pub use marks::{lsusp, unmark};
pub use on_stack::{
    change_label, drop_mark, drop_operand, duplicate, give_limited, give_suspended, go_to,
    open_mark, push_below, push_null, put, put_slot,
};
pub use opening::{open_over, open_scan};
pub use operands::take_operands;
pub use plain_values::{take_value, value_slot};
pub use returns::{
    fail_procedure, give_back, leave_failing, leave_with, result_of, suspend_value, suspend_with,
};
pub use scans::{leave_scan, scan_left, swap_if_scanning, swap_pairs};
pub use texts::{push_string, push_text, short_text_slot};
pub use transfers::{coact, coret};
pub use turns::{begin_again, go_back, reenter};
pub use values::{list_of, value_of, values_of};
pub use world::{restore_pair, set_pair};
