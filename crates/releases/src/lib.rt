// The releases of one waste type alone, period by period, and the figures from those of all eight: request j of document 02, one column at a
// time. `columns` calls it with a file that the first engine accepts; no user does.
#![tactic(auto)]

mod across;
mod column;
mod type_columns;

pub use across::add_across;
pub use column::fill_four;
pub use type_columns::TypeColumns;
